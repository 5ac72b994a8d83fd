//! Units with their flow graphs and the kinds of their code, found once. Nothing here knows of states: that runs of the
//! machine go along the edges of the graph is proved for whatever is said of them.
#![tactic(auto)]

mod instructions;
mod unit_flow;

pub use unit_flow::UnitFlow;
