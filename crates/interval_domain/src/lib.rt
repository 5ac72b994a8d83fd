//! Ranges of numbers, as a domain of the analysis.
#![tactic(auto)]

mod bits;
mod joins;
mod products;
mod quotients;
mod range;
mod remainders;
mod sums;
mod values;

pub use range::Range;
