//! Products.

ghost use Rattle.std.specs.Prelude.{◌≡◌};
ghost use Rattle.number_spans.specs.Spans.{between};
ghost use Rattle.number_spans.specs.Sizes.{IsSmall, IsBounded};
ghost use Rattle.number_spans.specs.Product as rule;
ghost use Rattle.interval_domain.specs.Arithmetic.{least, greatest};

use crate::exact::times;
use crate::span::Span;
use domain_api::Expr;

/// The least of four numbers.
#[tactic(auto, unfolding(interval_domain::specs::Arithmetic::least))]
fn least(a: i128, b: i128, c: i128, d: i128) -> i128
    ensures { result ≡ least a b c d }
{
    a.min(b).min(c.min(d))
}

/// The greatest of four numbers.
#[tactic(auto, unfolding(interval_domain::specs::Arithmetic::greatest))]
fn greatest(a: i128, b: i128, c: i128, d: i128) -> i128
    ensures { result ≡ greatest a b c d }
{
    a.max(b).max(c.max(d))
}

/// The numbers from the least of four to the greatest.
fn spanned(a: i128, b: i128, c: i128, d: i128) -> Span
    ensures { result ≡ between (least a b c d) (greatest a b c d) }
{
    Span::between(least(a, b, c, d), greatest(a, b, c, d))
}

/// From the least to the greatest product of two ends.
pub fn corners(r: Span, q: Span) -> Span
    requires first { IsSmall r }
    requires second { IsSmall q }
    ensures value { result ≡ rule.corners r q }
    ensures low { IsBounded result.lo }
    ensures high { IsBounded result.hi }
{
    spanned(
        times(r.lo, q.lo),
        times(r.lo, q.hi),
        times(r.hi, q.lo),
        times(r.hi, q.hi),
    )
}

/// Returns whether the expression is this constant.
pub fn is_the_constant(e: Expr, k: i64) -> bool
    ensures { result ≡ rule.is_the_constant e k }
{
    e.sym == 0 && e.k == k
}
