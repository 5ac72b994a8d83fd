//! The limits of a run.

/// The limits of a run.
#[derive(Clone, Copy, Debug, PartialEq, Eq)]
pub struct Limits {
    /// The most steps. A run that returns with its last step returns.
    pub steps: u32,
    /// The most cells that arrays may take: an array of n items takes n + 1, and those of the arguments count.
    pub cells: u32,
    /// The most frames, with that of the entry: at least 1.
    pub depth: u32,
}
