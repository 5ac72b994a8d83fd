//! What the abstract domains of the analysis have in common: traits whose laws are proved of each domain,
//! so that code over a trait rests on its laws alone.
#![tactic(auto)]

mod expr;
mod flow_state;
mod lattice;
mod meter;
mod order;
mod paired;
mod values;

pub use expr::Expr;
pub use flow_state::FlowState;
pub use lattice::Lattice;
pub use meter::{Meter, Ticks};
pub use order::{Order, gap_is_at_least};
pub use paired::Paired;
use std::alloc::AllocError;
pub use values::Values;

/// Memory ran out.
pub type NoMemory = AllocError;
