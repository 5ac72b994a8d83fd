//! The remainders of the numbers of two ranges, with the sign of the dividend.

ghost use Rattle.std.specs.Prelude.{◌≡◌, ◌-◌, ◌≤◌, ◌^◌, pos, neg_ℤ, ◌≤ℤ◌, int_lt, int_rem, if◌then◌else◌};
ghost use Rattle.std.specs.Ordering.{int_eq};
ghost use Rattle.std.specs.Int.{int_min, int_max};
ghost use Rattle.interval_domain.specs.Arithmetic.{size, remainders, remainder};

use crate::quotients::size;
use crate::range::Range;
use crate::sums::is_one;

/// The greatest remainder by a number of the range. 0 where there is none.
fn greatest_remainder(range: Range) -> i64
    ensures value { result ≡ pos (size range - 1) }
    ensures bound { pos 0 ≤ℤ result }
{
    size(range).saturating_sub(1) as i64
}

/// The least remainder of numbers from `lo` on, where none is greater than `greatest`.
fn least_of(lo: i64, greatest: i64) -> i64
    requires { pos 0 ≤ℤ greatest }
    ensures value { result ≡ (if int_lt lo (pos 0) then int_max lo (neg_ℤ greatest) else pos 0) }
    ensures bound { result ≤ℤ pos 0 }
{
    if lo < 0 { lo.max(-greatest) } else { 0 }
}

/// The greatest remainder of numbers up to `hi`, where none is greater than `greatest`.
fn greatest_of(hi: i64, greatest: i64) -> i64
    requires { pos 0 ≤ℤ greatest }
    ensures value { result ≡ (if int_lt (pos 0) hi then int_min hi greatest else pos 0) }
    ensures bound { pos 0 ≤ℤ result }
{
    if 0 < hi { hi.min(greatest) } else { 0 }
}

/// The remainders, where a range has more than one number.
#[tactic(auto, unfolding(crate::specs::Arithmetic::remainders))]
fn remainders(a: Range, b: Range) -> Range
    ensures { result ≡ remainders a b }
{
    let greatest = greatest_remainder(b);
    Range::between(least_of(a.lo(), greatest), greatest_of(a.hi(), greatest))
}

/// The remainder of two numbers, or 0 where there is none.
fn exact_remainder(m: i64, n: i64) -> i64
    ensures { result ≡ (if int_eq n (pos 0) then pos 0 else int_rem m n) }
{
    if n == 0 { 0 } else { m.wrapping_rem(n) }
}

/// The remainders.
#[tactic(auto, unfolding(crate::specs::Arithmetic::remainder))]
pub fn remainder(a: Range, b: Range) -> Range
    ensures { result ≡ remainder a b }
{
    if is_one(a) && is_one(b) {
        let only = exact_remainder(a.lo(), b.lo());
        return Range::between(only, only);
    }
    remainders(a, b)
}
