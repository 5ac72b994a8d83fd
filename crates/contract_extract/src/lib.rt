//! The clauses of a method's contract, read from the code of its contract block.
#![tactic(auto)]

mod block;
mod body_code;
mod contracts;
mod read_clause;
mod trees;

pub use contracts::{Contracts, extract};
