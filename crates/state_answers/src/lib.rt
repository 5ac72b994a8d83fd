//! The answers of cases that tell something of a state. Each reads its line, tests what the call of abs_state asks of
//! its caller, and compares what that call answers with what is told.
#![tactic(auto)]

mod answers;

pub use answers::{
    after, differs, ends, exact, gap, length, leq, made, nullness, refused, variable,
};
