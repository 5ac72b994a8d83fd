//! Points of runs: a frame of the machine with its heap. That each point of a run has values of the machine is proved
//! here once, for whatever is said of points; and that inductive states hold wherever points come along edges.
#![tactic(auto)]

mod point;

pub use point::Point;
