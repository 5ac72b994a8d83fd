//! Two values side by side.

ghost use Rattle.std.specs.Prelude.{◌≡◌, ℤ, Option};
ghost use Rattle.domain_api.specs.Laws.Gaps.{greater_gap-either};
ghost use Rattle.domain_api.specs.Order.{greater_gap};
ghost use Rattle.std.proofs.Common.{inl, inr};

use crate::order::Order;

/// Two values that are known together.
#[derive(Drop)]
pub struct Paired<A, B> {
    pub first: A,
    pub second: B,
}

/// The greater of two gaps.
fn greater(a: Option<i64>, b: Option<i64>) -> Option<i64>
    ensures { result ≡ greater_gap a b }
{
    match (a, b) {
        (None, _) => b,
        (_, None) => a,
        (Some(k), Some(l)) => Some(k.max(l)),
    }
}

impl<A: Order, B: Order> Order for Paired<A, B> {
    ghost allows = { λ pair number. A.allows pair.first number × B.allows pair.second number };

    ghost gap = { λ pair s t. greater_gap (A.gap pair.first s t) (B.gap pair.second s t) };

    fn gap(&self, s: u32, t: u32) -> Option<i64> {
        greater(self.first.gap(s, t), self.second.gap(s, t))
    }

    ghost gap_allowed = { λ pair number s t k is both.
        elim (greater_gap-either (A.gap pair.first s t) (B.gap pair.second s t) k is) [
          | inl first ↦ A.gap_allowed pair.first number s t k first both.0
          | inr second ↦ B.gap_allowed pair.second number s t k second both.1
        ] };
}
