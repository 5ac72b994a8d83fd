//! Ensures that are inferred of a method: what its returns show of the result under an invariant of its unit, as
//! clauses; their texts; and units to which such clauses were added.
//!
//! No proof rests on an inferred clause by itself: a unit to which it was added is judged anew, and shows it there or
//! not. specs/Candidates has what is inferred, and specs/Strengthening what becomes of a unit.
#![tactic(auto)]

mod following;
mod inference;
mod inferred;
mod lists;
mod returns;
mod rows;
mod strengthening;
mod texts;

pub use inference::candidates;
pub use strengthening::strengthen;
pub use texts::append_inferred;
