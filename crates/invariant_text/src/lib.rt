//! The text of a unit's invariant: for each block its line, and then what holds at its start.
#![tactic(auto)]

mod blocks;
mod decimals;
mod expressions;
mod references;
mod states;
mod symbols;
mod variables;

pub use blocks::invariant_text;
pub use states::put_state_lines;
