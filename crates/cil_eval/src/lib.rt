//! The machine that runs units, under limits on its steps, its memory and the depth of its calls.
#![tactic(auto)]

mod act;
mod action;
mod address_rows;
mod arguments;
mod array_rows;
mod calls;
mod effect;
mod enter;
mod flow;
mod frames;
mod given;
mod int_args;
mod limits;
mod machine;
mod offsets;
mod perform;
mod stack_rows;
mod start;
mod start_refusal;
mod stop;
mod turn;

pub use limits::Limits;
pub use machine::Machine;
pub use start_refusal::StartRefusal;
pub use stop::Stop;
