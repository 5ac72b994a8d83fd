//! What is known of the differences of symbols: bounds s + k <= t, as a domain of the analysis.
#![tactic(auto)]

mod bound_row;
mod bounds;
mod builder;
mod changes;
mod ends;
mod forms;
mod gaps;
mod idle;
mod note;
mod order;
mod orders;
mod search;
mod settled;
mod shared;
mod targets;
mod tight;

pub use bound_row::BoundRow;
pub use bounds::Bounds;
pub use builder::BoundsBuilder;
pub use ends::Ends;
pub use gaps::raised_gap;

#[cfg(test)]
mod tests;
