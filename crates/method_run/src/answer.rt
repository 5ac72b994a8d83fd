//! Answers to `run`.

use cil_model::List;

/// What is answered of a run.
#[derive(Drop)]
pub enum RunAnswer {
    /// The run was made, or its arguments' arrays have too many cells.
    Line {
        /// 0 where the method returned, 8 at a fault, 9 at a limit, 10 at a false assumption.
        status: u8,
        /// How it ended, with a line feed.
        text: List<u8>,
    },
    /// The arguments do not fit, for this reason: `arguments`, or `requires` and the number of the first Requires that
    /// is not true of them.
    Misfit(List<u8>),
}
