//! What calls of methods and returns owe and give of contracts, in the state of the analysis.
//!
//! At a call the arguments lie on top of the stack, the last one uppermost. They are put into the places of the
//! parameters (`put_args`). The callee's Requires are judged in turn, each with what the earlier ones say, and all of
//! them hold from then on. What comes back is known by the callee's Ensures alone (`after_call`). At a return the
//! result is put into its place (`put_result`), and the unit's own Ensures are judged in turn too: each with what the
//! earlier ones say. All of them hold from then on (`give_back`).
//!
//! specs/CallStates has what becomes of states, specs/CallForms what has to be there, and specs/Meaning what all of it
//! says of points of runs.
#![tactic(auto)]

mod arguments;
mod calls;
mod clauses;
mod returns;

pub use arguments::{put_args, put_result};
pub use calls::{after_call, assume_all_requires, assume_requires, call, requires_shown};
pub use clauses::clause_numbered;
pub use returns::{assume_all_ensures, assume_ensures, ensures_shown, give_back};
