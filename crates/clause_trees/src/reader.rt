//! What a tree is read by.

ghost use Rattle.std.specs.Prelude.{◌≡◌};
ghost use Rattle.clause_trees.specs.declared.reader.Time.TheVariants as times;

use std::alloc::Global;

/// Where the variables are that a tree reads.
#[derive(Clone, Copy, Debug, PartialEq, Eq)]
pub struct TreeEnv {
    /// The list index of the variable that has argument 0. The other arguments follow it.
    pub args: u32,
    /// The list index of the variable that has the result, if there is one.
    pub result: Option<u32>,
}

/// The time at which the items of arrays are read.
#[derive(Clone, Copy, Debug, PartialEq, Eq)]
pub(crate) enum Time {
    /// At the state.
    Now,
    /// At the method's entry: inside an old value. Nothing is known of the items then.
    Entry,
}

/// What a tree is read by.
#[derive(Clone, Copy)]
pub(crate) struct Reader {
    pub alloc: Global,
    pub env: TreeEnv,
    pub time: Time,
}

impl Reader {
    /// The reader of an old value.
    pub fn at_entry(self) -> Reader
        ensures env { result.env ≡ self.env }
        ensures time { result.time ≡ times.Entry }
    {
        Reader {
            time: Time::Entry,
            ..self
        }
    }
}
