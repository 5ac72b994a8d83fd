//! Whether a call's operands are of the kinds that its places take (ECMA-335 III.3.19).

ghost use Rattle.std.specs.Prelude.{◌≡◌};
ghost use Rattle.cil_model.specs.Kinds.{take_each};

use cil_model::{Kind, Place, takes};

/// Returns whether each place takes the kind at its index, and there are as many of both.
#[tactic(auto, using(crate::proofs::TakeLemmas::lengths))]
pub fn take_each(places: &[Place], kinds: &[Kind]) -> bool
    ensures { result ≡ take_each places.now kinds.now }
{
    if places.len() != kinds.len() {
        return false;
    }
    for index in 0..places.len() {
        if !takes(places[index], kinds[index]) {
            return false;
        }
    }
    true
}
