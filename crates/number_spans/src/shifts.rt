//! Shifts.

ghost use Rattle.std.specs.Prelude.{◌≡◌, ◌≤◌, length};
ghost use Rattle.number_spans.specs.Shifts.{IsAmount};
ghost use Rattle.number_spans.specs.Shifts as rule;

use crate::exact::power;
use crate::span::Span;
use domain_api::Expr;

/// Numbers shifted to the right.
#[tactic(auto, unfolding(crate::specs::Shifts::shifted_right))]
pub fn shifted_right(r: Span, b: Expr) -> Span
    requires amount { b.sym ≡ 0 → IsAmount b.k }
    ensures { result ≡ rule.shifted_right r b }
{
    if b.sym == 0 {
        let places = b.k as u32;
        Span::between(r.lo >> places, r.hi >> places)
    } else {
        Span::between(r.lo.min(0), r.hi.max(-1))
    }
}
