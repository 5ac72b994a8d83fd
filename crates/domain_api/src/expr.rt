//! Expressions of one symbol.

/// The number of a symbol, and a constant added to it. Symbol 0 is the number 0.
#[derive(Clone, Copy, Debug, PartialEq, Eq)]
pub struct Expr {
    /// The symbol.
    pub sym: u32,
    /// The constant.
    pub k: i64,
}
