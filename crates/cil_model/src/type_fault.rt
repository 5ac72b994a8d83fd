//! Why code has no kinds of stacks.

/// The first thing that is wrong with the stacks of a method's code (ECMA-335 III.1.7.5). The number is an IL
/// offset.
#[derive(Clone, Copy, Debug, PartialEq, Eq)]
pub enum TypeFault {
    /// The instruction lacks an operand.
    Underflow(u32),
    /// Two ways to the instruction bring stacks that do not merge.
    Conflict(u32),
    /// An operand has a kind that the instruction does not take, or an argument or a local is missing.
    WrongKind(u32),
    /// The code ends after the instruction.
    FallsOff(u32),
    /// The instruction leaves more values than the stack holds.
    Deep(u32),
}
