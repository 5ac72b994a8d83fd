//! Two reached states as one, a state in the names of its first uses, and whether one says no more than another.
#![tactic(auto)]

mod definitions;
mod inclusion;
mod items;
mod merging;
mod sides;

pub use inclusion::includes;
pub use merging::{Merging, merged, named};
