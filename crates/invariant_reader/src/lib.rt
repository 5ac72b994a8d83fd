//! The text of a unit's invariant, read as the states whose text it is. What is read is printed again and compared, so
//! that the readers need only find the states, and no second form of the text is trusted.
#![tactic(auto)]

mod arrays;
mod blocks;
mod bounds;
mod constants;
mod definitions;
mod digits;
mod expressions;
mod kinds;
mod pairs;
mod prefixes;
mod ranges;
mod references;
mod sections;
mod segments;
mod states;
mod symbols;
mod variables;

pub use blocks::read_invariant_text;
pub use constants::see_printable;
