//! The bytes of an invariant: states one after another, read and written.
#![tactic(auto)]

mod arrays;
mod bounds;
mod checking;
mod constants;
mod definitions;
mod expressions;
mod fault;
mod numbers;
mod pairs;
mod put_arrays;
mod put_numbers;
mod put_states;
mod put_symbols;
mod ranges;
mod rows;
mod segments;
mod states;
mod variables;

pub use checking::{check_invariant, fault_at};
pub use fault::{InvFault, InvRefusal};
pub use put_states::invariant_bytes;
pub use states::read_invariant;
