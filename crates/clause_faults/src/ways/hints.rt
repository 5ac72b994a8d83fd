//! What is remembered to find equal arrivals at once.

use crate::ways::gather::KINDS;
use std::alloc::{AllocError, Global};

/// Where equal arrivals, and equal lists of them, may be found. What is found there is looked at before it is used, so
/// what these hold does not matter.
#[derive(Drop)]
pub(crate) struct Hints {
    /// Places in the list that is gathered.
    pub(crate) places: Vec<usize>,
    /// Indexes of instructions, by the numbers of the lists that come to them.
    pub(crate) homes: Vec<usize>,
}

impl Hints {
    /// Nothing is remembered of code of so many instructions.
    pub(crate) fn new(alloc: Global, count: usize) -> Result<Hints, AllocError> {
        let places = vec![in alloc; 0; count.saturating_mul(KINDS)]?;
        let homes = vec![in alloc; 0; count.saturating_mul(KINDS)]?;
        Ok(Hints { places, homes })
    }
}
