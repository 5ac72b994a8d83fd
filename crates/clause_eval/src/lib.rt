//! The memory of the machine, and the values of clauses over it: arrays in one row of cells, the lists of frames, the
//! arithmetic of values, and what clauses say of them.
#![tactic(auto)]

mod arithmetic;
mod arrays;
mod clause_tests;
mod clause_values;
mod comparisons;
mod memory;
mod pile;
mod reading;
mod rows;
mod values;

pub use arithmetic::{operated, operated_one};
pub use arrays::{Arrays, is_array, item_count};
pub use clause_tests::{false_ensures, false_requires, put_all_olds};
pub use comparisons::{compares_values, comparison_of, comparison_value, is_true, number_of};
pub use memory::{ArrayRef, Memory};
pub use pile::Pile;
pub use values::{put, zero_of};
