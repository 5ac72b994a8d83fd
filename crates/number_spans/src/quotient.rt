//! Truncated quotients.

ghost use Rattle.std.specs.Prelude.{◌≡◌, ◌≢◌, pos, true, ◌≤ℤ◌, neg_ℤ, int_div};
ghost use Rattle.std.specs.Int.{int_min, int_max};
ghost use Rattle.number_spans.specs.Spans.{between};
ghost use Rattle.number_spans.specs.Sizes.{IsSmall, IsEnd};
ghost use Rattle.number_spans.specs.Quotient as rule;

use crate::span::Span;

/// The greatest size of an end.
#[tactic(auto, unfolding(crate::specs::Quotient::size))]
pub fn size(r: Span) -> i128
    requires { IsSmall r }
    ensures value { result ≡ rule.size r }
    ensures least { pos 0 ≤ℤ result }
    ensures greatest { result ≤ℤ pos 9223372045444710400 }
{
    r.lo.abs().max(r.hi.abs())
}

/// No quotient of a number of the range is less.
fn least_quotient(r: Span) -> i128
    requires { IsSmall r }
    ensures { result ≡ neg_ℤ (rule.size r) }
{
    -size(r)
}

/// The truncated quotient.
fn divided(m: i128, n: i128) -> i128
    requires dividend { IsEnd m }
    requires divisor { n ≢ pos 0 }
    ensures { result ≡ int_div m n }
{
    m / n
}

/// The numbers from the lesser of two to the greater.
fn spanned(a: i128, b: i128) -> Span
    ensures { result ≡ between (int_min a b) (int_max a b) }
{
    Span::between(a.min(b), a.max(b))
}

/// The quotients by a constant.
#[tactic(auto, unfolding(crate::specs::Quotient::quotients_by))]
fn quotients_by(r: Span, n: i128) -> Span
    requires small { IsSmall r }
    requires divisor { n ≢ pos 0 }
    ensures { result ≡ rule.quotients_by r n }
{
    spanned(divided(r.lo, n), divided(r.hi, n))
}

/// The quotients of numbers that are not negative by positive ones.
fn plain_quotients(r: Span, q: Span, by_constant: bool) -> Span
    requires dividend { pos 0 ≤ℤ r.lo }
    requires divisor { pos 1 ≤ℤ q.lo }
    ensures { result ≡ rule.plain_quotients r q by_constant }
{
    let lo = if by_constant { r.lo / q.lo } else { 0 };
    Span::between(lo, r.hi / q.lo)
}

/// The quotients.
#[tactic(auto, unfolding(crate::specs::Quotient::quotients))]
pub fn quotients(r: Span, q: Span, by_constant: bool) -> Span
    requires first { IsSmall r }
    requires second { IsSmall q }
    requires divisor { by_constant ≡ true → q.lo ≢ pos 0 }
    ensures { result ≡ rule.quotients r q by_constant }
{
    if 0 <= r.lo && 1 <= q.lo {
        plain_quotients(r, q, by_constant)
    } else if by_constant {
        quotients_by(r, q.lo)
    } else {
        Span::between(least_quotient(r), size(r))
    }
}
