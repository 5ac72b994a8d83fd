//! Points of runs.

use cil_model::{ArrayCell, Frame, List};

/// A frame of the machine with its heap: what a state of an analysis speaks of.
#[derive(Drop)]
pub struct Point {
    pub frame: Frame,
    pub heap: List<ArrayCell>,
}
