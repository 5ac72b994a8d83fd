//! What is known of numbers by ranges, bounds and definitions together, and how each operator and each comparison
//! changes it.
#![tactic(auto)]

mod additions;
mod arith;
mod assume;
mod comparisons;
mod definitions;
mod differences;
mod ends;
mod fresh;
mod gap;
mod numbers;
mod order;
mod outcome;
mod relation;
mod spans;

pub use definitions::Definitions;
pub use numbers::Numbers;
pub use relation::Relation;
