//! The arguments that runs begin with.

use crate::list::List;

/// An argument of the method that a run begins with.
#[derive(Drop)]
pub enum Arg {
    Int(i32),
    Bool(bool),
    /// No array, of either type.
    Null,
    /// A new array of int32. It fits where it has at most 2147483647 items.
    Ints(List<i32>),
    /// A new array of bool. It fits where it has at most 2147483647 items.
    Bools(List<bool>),
    /// What an earlier parameter of the same array type was given, by its number: the first parameter is 0.
    Same(u32),
}
