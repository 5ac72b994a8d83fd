//! The trees that the code of a clause makes.

pub(crate) mod ahead;
pub(crate) mod conditions;
pub(crate) mod dropped;
pub(crate) mod limits;
pub(crate) mod stretch;
pub(crate) mod tree_counts;
pub(crate) mod tree_of;
pub(crate) mod tree_stack;
