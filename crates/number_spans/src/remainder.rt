//! Remainders, with the sign of the dividend.

ghost use Rattle.std.specs.Prelude.{◌≡◌, ◌≤ℤ◌, pos, negsuc, neg_ℤ, ◌-ℤ◌, int_lt, if◌then◌else◌};
ghost use Rattle.std.specs.Int.{int_min, int_max};
ghost use Rattle.number_spans.specs.Sizes.{IsSmall};
ghost use Rattle.number_spans.specs.Quotient.{size};
ghost use Rattle.number_spans.specs.Remainder as rule;

use crate::quotient::size;
use crate::span::Span;

/// No remainder by a number of the range is larger.
fn greatest_remainder(q: Span) -> i128
    requires { IsSmall q }
    ensures value { result ≡ size q -ℤ pos 1 }
    ensures bound { negsuc 0 ≤ℤ result }
{
    size(q) - 1
}

/// The least remainder of numbers from `lo` on, where none is larger than `greatest`.
fn least_of(lo: i128, greatest: i128) -> i128
    requires { negsuc 0 ≤ℤ greatest }
    ensures { result ≡ (if int_lt lo (pos 0) then int_max lo (neg_ℤ greatest) else pos 0) }
{
    if lo < 0 { lo.max(-greatest) } else { 0 }
}

/// The greatest remainder of numbers up to `hi`.
fn greatest_of(hi: i128, greatest: i128) -> i128
    ensures { result ≡ (if int_lt (pos 0) hi then int_min hi greatest else pos 0) }
{
    if 0 < hi { hi.min(greatest) } else { 0 }
}

/// The remainders.
#[tactic(auto, unfolding(crate::specs::Remainder::remainders))]
pub fn remainders(r: Span, q: Span) -> Span
    requires second { IsSmall q }
    ensures { result ≡ rule.remainders r q }
{
    let greatest = greatest_remainder(q);
    Span::between(least_of(r.lo, greatest), greatest_of(r.hi, greatest))
}
