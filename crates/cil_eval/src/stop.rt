//! How runs end.

use cil_model::{FaultKind, Value};

/// How a run ended, or the limit that it met. Two numbers are a unit's index in the world and an IL offset.
#[derive(Clone, Copy, Debug, PartialEq, Eq)]
pub enum Stop {
    /// The method returned this, or nothing where its result is void.
    Returned(Option<Value>),
    Fault(FaultKind, u32, u32),
    /// An assumption is false.
    Assumed(u32, u32),
    /// All steps are taken.
    Steps,
    /// A call finds no room for its frame.
    Depth,
    /// A new array finds no cells.
    Cells,
}
