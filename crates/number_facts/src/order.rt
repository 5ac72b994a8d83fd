//! How symbols are known to lie to each other, as knowledge of their order.

ghost use Rattle.number_facts.specs.Gaps.{gap};
ghost use Rattle.number_facts.specs.Laws.Allowing.{AllowsNumbers, gap_allowed};

use crate::numbers::Numbers;
use domain_api::Order;

/// The gap of two symbols is the greatest of what is stored of them, of two stored constants behind each other, and of
/// the least number of the second less the greatest of the first, cut to 64 bits; 0 of a symbol and itself. A symbol
/// that has no range counts by bounds alone. Takes no memory.
impl Order for Numbers {
    ghost allows = { AllowsNumbers };

    ghost gap = { gap };

    #[tactic(auto, using(crate::proofs::SameSymbols::gap_same), unfolding(crate::specs::Gaps::gap))]
    fn gap(&self, s: u32, t: u32) -> Option<i64> {
        if s == t {
            return Some(0);
        }
        if self.has(s) && self.has(t) {
            self.bounds.gap_with(s, t, self.distance(s, t))
        } else {
            self.bounds.gap(s, t)
        }
    }

    ghost gap_allowed = { gap_allowed };
}
