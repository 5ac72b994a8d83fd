//! The units of an assembly, or of several that are linked: each method with all that its check depends on, or the
//! first reason why it has none.
#![tactic(auto)]

mod callable;
mod callees;
mod calls;
mod code_checks;
mod entry;
mod file_units;
mod header;
mod linked;
mod making;
mod meaning;
mod met;
mod names;
mod own_code;
mod reach;
mod reason;
mod row;
mod slots;
mod sources;
mod units;
mod world;

pub use calls::callee_tokens;
pub use entry::{MethodEntry, Outcome};
pub use file_units::FileUnits;
pub use linked::{FileEntries, build_linked};
pub use reason::Reason;
pub use units::{Units, build_units};
pub use world::{WorldRefusal, world_of};
