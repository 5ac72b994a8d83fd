//! What is known of a point of a run, by symbols and references: the state of the analysis before an instruction.
#![tactic(auto)]

mod equality;
mod invariant;
mod lattice;
mod likeness;
mod obligations;
mod parts;
mod state;
mod steps;
mod unknown_values;

pub use array_contents::{Contents, Segs};
pub use invariant::Invariant;
pub use obligations::Judged;
pub use parts::Parts;
pub use state::AbsState;
pub use state_facts::{Reference, Var};
