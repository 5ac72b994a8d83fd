//! The ways forward through the code of a clause, and the stacks that come to its instructions along them.
//!
//! Whether an operand of OldValue has a kind that it may have is judged on each way, by what stands on the stack there:
//! of two ways one may be at fault and the other not. A tree of too many nodes is not kept, and is a fault only where a
//! call closes it.

pub(crate) mod arrivals;
pub(crate) mod behind;
pub(crate) mod gather;
pub(crate) mod hints;
pub(crate) mod homes;
pub(crate) mod made_values;
pub(crate) mod one_pass;
