//! The verdicts on the obligations of each unit of a world, and that a world whose verdicts are all proved is safe,
//! recursion included.
#![tactic(auto)]

mod worlds;

pub use worlds::judge_world;
