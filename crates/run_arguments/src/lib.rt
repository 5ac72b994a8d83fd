//! The arguments of `run`, as words: whether a word is one, and which; and the text of an argument.
#![tactic(auto)]

mod argument;
mod items;
mod number;
mod text;

pub use argument::{is_argument, read_argument};
pub use number::read_number;
pub use text::{Item, append_argument, append_item, append_items};
