//! The rules on segments of arrays, as lines of cases ask for them. Each line is read, what the call of array_segments
//! asks of its caller is tested, and that call is made.
#![tactic(auto)]

mod premises;
mod rules;
mod text;

pub use rules::SegmentRules;
