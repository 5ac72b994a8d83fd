//! Why runs do not start.

/// The reasons why a run does not start. The first that holds is reported.
#[derive(Clone, Copy, Debug, PartialEq, Eq)]
pub enum StartRefusal {
    /// There is no unit of this index.
    Unit,
    /// An argument is missing or left over, or is not of its parameter's type.
    Arguments,
    /// This Requires, counted from 1, is not true of the arguments.
    Requires(u8),
    /// The limit on cells is below what the arrays of the arguments take.
    Cells,
}
