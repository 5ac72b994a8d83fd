//! The items of an array as far as they are known: segments between bounds, each with a set that has the items between
//! them.
#![tactic(auto)]

mod bound;
mod common_bounds;
mod form;
mod growing;
mod inclusion;
mod limit;
mod load;
mod renaming;
mod segments;
mod store;
mod unifying;

pub use segments::Segs;
