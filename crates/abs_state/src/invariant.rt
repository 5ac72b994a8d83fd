//! What is held of a unit.

use crate::state::AbsState;

/// What is held at the start of each block of a unit, a state for each block in their order.
#[derive(Drop)]
pub struct Invariant {
    pub states: Vec<AbsState>,
}
