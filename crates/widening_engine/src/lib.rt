//! The rounds of an analysis: states flow along the edges between blocks until they settle. And what finds the
//! invariants of units by them.
#![tactic(auto)]

mod dirty;
mod finder;
mod heads;
mod keeping;
mod kept;
mod kept_block;
mod plain;

pub use dirty::Dirty;
pub use finder::Finder;
pub use keeping::{States, kept_rounds, limit};
pub use plain::Plain;
