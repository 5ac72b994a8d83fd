//! The steps of cases that change a state. Each reads its line, tests what the call of abs_state asks of its caller,
//! and makes that call.
#![tactic(auto)]

mod steps;

pub use steps::{
    arith, assume, compare, forget, join, load, load_at, new_array, push, put, store, store_at,
    widen,
};
