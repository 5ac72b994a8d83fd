//! The text of whole states, and the tests of what their calls ask of their caller.
//!
//! A *state* is `unreachable`, or its variables in order, each a number, `r1`, `null`, `text` or the address of an item
//! as `r1[s2+1]`, or `empty`. Then follow facts, each behind a `;`: those of rule_text,
//! `r1 is int32[] not-null length s1+2`, and `r1 apart r2`. A range in place of a variable or an index is a new symbol
//! of this range. The tests hold where nothing is reached, but for `reached`.
#![tactic(auto)]

mod premises;
mod states;

pub use premises::{
    are_alike, has_number, has_reference, has_symbol, has_value, has_variable, has_variables,
    is_array_place, is_comparison, reached,
};
pub use states::{append_value, parts, state, state_text, value};
