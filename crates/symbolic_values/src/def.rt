//! Definitions of symbols.

use domain_api::Expr;

/// The value that a symbol is known to have. All but the difference are truths: the symbol is 1 where they hold, and
/// else 0.
#[derive(Clone, Copy, Debug, PartialEq, Eq)]
pub enum Def {
    /// The two are equal.
    Eq(Expr, Expr),
    /// The first is less.
    Lt(Expr, Expr),
    /// The first is less, where each negative number counts as above all others.
    LtUn(Expr, Expr),
    /// The reference of this number is null, or where the flag is false, is not.
    NullTest(u32, bool),
    /// The first without the second.
    Sub(Expr, Expr),
}
