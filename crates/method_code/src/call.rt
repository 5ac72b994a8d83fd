//! What calls in code call.

/// What a call in the code of a method calls, as its token says.
#[derive(Clone, Copy, Debug, PartialEq, Eq)]
pub enum Call {
    /// A method of which units may have an entry among their callees, by its key: a number that this method has and no
    /// other one.
    Callee(u64),
    /// A method of the class `Contract`, by the number that its calls have in units.
    Contract(u32),
    /// Anything else, or nothing.
    Unknown,
}
