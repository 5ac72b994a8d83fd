//! Bounds as knowledge of how symbols lie to each other.

ghost use Rattle.pentagon_domain.specs.Gaps as rule;
ghost use Rattle.pentagon_domain.specs.Laws.GapsHold.{gap_above};

use crate::bounds::Bounds;
use domain_api::Order;

/// The gap of two symbols is the greatest of what is stored of them and of two stored constants behind each other,
/// cut to 64 bits; 0 of a symbol and itself. It costs a search for each bound from the first, but where the greatest of
/// all constants shows that what is behind it tells no more. It takes no memory.
impl Order for Bounds {
    ghost allows = { λ bounds number. rule.Allows bounds number };

    ghost gap = { λ bounds s t. rule.gap bounds s t };

    #[tactic(auto, using(crate::proofs::Reaches::gap_same))]
    fn gap(&self, s: u32, t: u32) -> Option<i64> {
        if s == t {
            return Some(0);
        }
        let mut known = self.stored_gap(s, t);
        let firsts = self.rows_from(s);
        for first in firsts {
            known = self.raised_behind(known, first, t);
        }
        known
    }

    ghost gap_allowed = { λ bounds number s t k is allowed. gap_above bounds number s t allowed k is };
}
