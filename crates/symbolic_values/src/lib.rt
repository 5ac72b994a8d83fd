//! Names of numbers: how the symbols of two states are paired, numbered by first use, and what of their definitions
//! stays.
#![tactic(auto)]

mod def;
mod env;
mod identity;
mod naming;
mod own_names;
mod pairing;
mod pairs;
mod references;
mod renaming;
mod uses;

pub use def::Def;
pub use env::Env;
pub use pairing::{first_use_order, pair_up};
pub use pairs::{Key, Pairs};
pub use references::{ReferencePairs, pair_references};
pub use renaming::renamed;
