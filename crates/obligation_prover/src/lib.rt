//! The obligations of a method: the faults that are to be ruled out, when a state rules one out, and what is known
//! where one did not come.
#![tactic(auto)]

mod avoidance;
mod by_obligation;
mod clauses;
mod entailment;
mod faults;
mod listing;
mod operations;
mod tested;

pub use avoidance::{avoid, avoid_all};
pub use by_obligation::{assume, entails};
pub use clauses::clauses_shown;
pub use entailment::rules_out;
pub use faults::faults_of;
pub use listing::obligations;
pub use tested::{Tested, clause_obligation, tested_by};
