//! The flow graph of a method's body: its blocks, the edges between them, and the heads of its loops.
#![tactic(auto)]

mod blocks;
mod edges;
mod graph;
mod heads;
mod sorted;

pub use blocks::block_starts;
pub use graph::{Edge, Graph};
