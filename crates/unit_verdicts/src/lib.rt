//! The verdicts on units, under what a cache or a proof file holds for them or a finder answers.
//!
//! Verdicts are defined under any pick of states (`verdicts_under`), and reported under what the finder answers. An
//! honest cache is one of limits, what finders answer, spelled in any way that can be read: then what is read of it is
//! what a finder would have found.
#![tactic(auto)]

mod analysis;
mod proof_left;
mod proved_units;
mod source;
mod unit_verdicts;
mod verdict_cache;

pub use analysis::{JudgedUnit, PickedUnit, find_flow, judge_flow};
pub use unit_verdicts::{UnitVerdicts, judge_under};
pub use verdict_cache::VerdictCache;
