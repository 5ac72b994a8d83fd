//! The verdict on each obligation of a unit under an invariant, however that was found, and that a unit whose verdicts
//! are all proved is safe.
#![tactic(auto)]

mod judging;
mod verdict;

pub use judging::judge;
pub use verdict::{Verdict, all_proved, proved_count};
