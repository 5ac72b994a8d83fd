//! Several assemblies as one: which methods their calls of other assemblies mean.
#![tactic(auto)]

mod homes;
mod key;
mod links;
mod sigs;

pub use links::Links;
