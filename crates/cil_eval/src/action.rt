//! What instructions do to the frame that runs.

use cil_model::{FaultKind, Value};

/// What an instruction does, once its operands are taken from the stack.
#[derive(Clone, Copy, Debug, PartialEq, Eq)]
pub(crate) enum Action {
    /// Pushes a value, and goes on after the instruction.
    Push(Value),
    /// Goes on after the instruction.
    Next,
    /// Goes on at an IL offset.
    Jump(u32),
    /// The run ends in a fault.
    Fault(FaultKind),
    /// The run ends at an assumption that is false.
    Assumed,
    /// The run ends because an array finds no cells.
    Cells,
    /// Nothing is defined. Typed code never comes here.
    Stuck,
}
