//! Facts of references alone: which are null, and which are not the same array.
#![tactic(auto)]

mod apart;
mod kept;
mod marks;
mod nullness;
mod pair_forms;
mod pair_list;
mod sorting;

pub use apart::Apart;
pub use nullness::Nullness;
