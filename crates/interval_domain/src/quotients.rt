//! The truncated quotients of the numbers of two ranges, and the remainders.

ghost use Rattle.std.specs.Prelude.{◌≡◌, ◌≢◌, ◌≤◌, ◌-◌, ◌^◌, pos, neg_ℤ, ◌≤ℤ◌, ◌&&◌, int_le, int_div};
ghost use Rattle.std.specs.Int.{int_min, int_max};
ghost use Rattle.interval_domain.specs.Interval.{between};
ghost use Rattle.interval_domain.specs.Arithmetic.{near, near_quotient, near_between, quotient_by, quotient, size};

use crate::range::Range;
use crate::sums::is_one;

/// The truncated quotient of two numbers, brought to 64 bits.
#[tactic(auto, unfolding(crate::specs::Arithmetic::near))]
fn near_quotient(m: i64, n: i64) -> i64
    requires { n ≢ pos 0 }
    ensures { result ≡ near_quotient m n }
{
    if n == -1 { m.saturating_neg() } else { m / n }
}

/// The numbers from the lesser of two to the greater.
fn spanned(a: i64, b: i64) -> Range
    ensures { result ≡ between (int_min a b) (int_max a b) }
{
    Range::between(a.min(b), a.max(b))
}

/// The quotients by one number. By 0 there is none.
#[tactic(auto, unfolding(crate::specs::Arithmetic::quotient_by))]
fn quotient_by(range: Range, n: i64) -> Range
    ensures { result ≡ quotient_by range n }
{
    if n == 0 {
        return Range::between(0, 0);
    }
    spanned(near_quotient(range.lo(), n), near_quotient(range.hi(), n))
}

/// The greatest size of a number of the range.
#[tactic(auto, unfolding(crate::specs::Arithmetic::size))]
pub(crate) fn size(range: Range) -> u64
    ensures value { result ≡ size range }
    ensures bound { result ≤ 2 ^ 63 }
{
    range.lo().unsigned_abs().max(range.hi().unsigned_abs())
}

/// The numbers of a size up to that of the greatest number of the range.
#[tactic(auto, unfolding(crate::specs::Arithmetic::near, crate::specs::Arithmetic::near_between))]
fn up_to_size(size: u64) -> Range
    requires { size ≤ 2 ^ 63 }
    ensures { result ≡ near_between (neg_ℤ (pos size)) (pos size) }
{
    Range::between(
        0i64.saturating_sub_unsigned(size),
        0i64.saturating_add_unsigned(size),
    )
}

/// Returns whether all numbers of the one range are 0 or more, and all of the other 1 or more.
fn is_plain(a: Range, b: Range) -> bool
    ensures { result ≡ (int_le (pos 0) a.lo && int_le (pos 1) b.lo) }
{
    0 <= a.lo() && 1 <= b.lo()
}

/// The quotients of numbers that are not negative by positive ones.
fn plain_quotient(hi: i64, divisor: i64) -> Range
    requires hi { pos 0 ≤ℤ hi }
    requires divisor { pos 1 ≤ℤ divisor }
    ensures { result ≡ between (pos 0) (int_div hi divisor) }
{
    Range::between(0, hi / divisor)
}

/// The truncated quotients.
#[tactic(auto, unfolding(crate::specs::Arithmetic::quotient))]
pub fn quotient(a: Range, b: Range) -> Range
    ensures { result ≡ quotient a b }
{
    if is_one(b) {
        return quotient_by(a, b.lo());
    }
    if is_plain(a, b) {
        return plain_quotient(a.hi(), b.lo());
    }
    up_to_size(size(a))
}
