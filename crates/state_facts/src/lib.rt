//! What is known of a point that is reached, by symbols and references, and what each instruction makes of it.
#![tactic(auto)]

mod arithmetic;
mod arrays;
mod assuming;
mod calls;
mod comparing;
mod known;
mod moves;
mod test;
mod unknown_values;

pub use assuming::definition_at;
pub use frame_names::{Reference, Var};
pub use known::Known;
