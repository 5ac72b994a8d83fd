//! Searches for small arguments with which a method ends in a fault.
#![tactic(auto)]

mod answer;
mod choice;
mod lists;
mod method_search;
mod trial;
mod values;

pub use answer::{Search, SearchRefusal};
pub use method_search::search;
