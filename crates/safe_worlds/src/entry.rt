//! Entries of methods.

use cil_model::{ArrayCell, List, Value};

/// Where a frame began.
#[derive(Drop)]
pub struct Entry {
    /// The index of its unit in the world.
    pub unit: u32,
    pub args: List<Value>,
    pub heap: List<ArrayCell>,
}
