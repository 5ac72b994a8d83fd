//! When a state rules out that an operation ends in a fault, and what is known where it did not, over the operation's
//! operands. Clauses and instructions alike are judged by it.
//!
//! A condition of operands is *met* by a choice of a number for each symbol and of null or an array for each reference
//! (`IsMet` of specs/Meaning). Where a state holds by a choice,
//!
//! - a condition that the state entails is met (`sound` of `entails`);
//! - the state that assumes a condition which is met holds by the same choice (`keeps` of `assume`).
//!
//! The machine's operators, lengths, elements, new arrays and assertions fault exactly where one of their conditions is
//! not met, and the fault is that of the first such condition (specs/Faults; proofs/FaultLaws proves it).
#![tactic(auto)]

mod assumption;
mod condition;
mod entailment;

pub use assumption::assume;
pub use condition::{Condition, Operation};
pub use entailment::entails;
