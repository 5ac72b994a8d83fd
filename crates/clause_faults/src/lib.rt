//! What is wrong with the code of a method's clauses.
#![tactic(auto)]

mod clause_code;
mod clause_fault;
mod first_fault;
mod heights;
mod own_faults;
mod pure_code;
mod ways;

pub use clause_code::check_clause;
pub use clause_fault::{ClauseFault, ClauseRefusal};
pub use first_fault::{either, fault_if};
pub use own_faults::{branch_targets, closes};
pub use ways::made_values::asked_by;
