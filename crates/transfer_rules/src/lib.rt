//! What instructions do to states: the state where a method begins, the one after an instruction, and the one along
//! each way on from a branch. States flow along the edges of a unit's graph, and are an invariant where each edge
//! carries that of its source to that of its target.
#![tactic(auto)]

mod acts;
mod addresses;
mod arrays;
mod calls;
mod choices;
mod entry;
mod forms;
mod induction;
mod moves;
mod operands;
mod operators;
mod rules;
mod unit_state;
mod unknown_states;
mod walks;

pub use entry::entry_state;
pub use induction::{all_carried, are_begun, has_shape, inductive};
pub use rules::{along, post};
pub use unit_state::UnitState;
pub use unknown_states::unknown;
