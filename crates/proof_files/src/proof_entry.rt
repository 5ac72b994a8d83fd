//! What a proof file has of a unit.

use abs_state::Invariant;
use cil_model::Unit;

/// A unit, and its invariant.
#[derive(Drop)]
pub struct ProofEntry {
    pub unit: Unit,
    pub inv: Invariant,
}
