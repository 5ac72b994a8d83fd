//! Expressions and definitions in other names.

ghost use Rattle.std.specs.Prelude.{◌≡◌, ◌+ℤ◌, ◌≤ℤ◌, IfSome, None, get_or, negsuc, pos};
ghost use Rattle.symbolic_values.specs.Meaning.{SaysMore, SaysSame};
ghost use Rattle.symbolic_values.specs.Names.{fitting, renamed, renamed_above, renamed_def, renamed_more};

use crate::def::Def;
use domain_api::Expr;

/// The expression of a symbol and a constant, if the constant is one of 64 bits.
pub(crate) fn fitting(sym: u32, k: i128) -> Option<Expr>
    ensures { result ≡ fitting sym k }
{
    if k < -9_223_372_036_854_775_808 || 9_223_372_036_854_775_807 < k {
        None
    } else {
        Some(Expr { sym, k: k as i64 })
    }
}

/// The name of a symbol.
fn name_of(names: &[Option<Expr>], symbol: u32) -> Option<Expr>
    ensures { result ≡ get_or names.now symbol None }
{
    match names.get(symbol as usize) {
        Some(name) => *name,
        None => None,
    }
}

/// The name of a reference.
fn reference_of(names: &[Option<u32>], reference: u32) -> Option<u32>
    ensures { result ≡ get_or names.now reference None }
{
    match names.get(reference as usize) {
        Some(name) => *name,
        None => None,
    }
}

/// The expression, where each symbol is worth the expression at its place. None where there is none at that place, or
/// where the constant leaves 64 bits.
pub fn renamed(e: Expr, names: &[Option<Expr>]) -> Option<Expr>
    ensures { result ≡ renamed names.now e }
{
    let name = name_of(names, e.sym)?;
    fitting(name.sym, i128::from(name.k) + i128::from(e.k))
}

/// The sum of two constants.
fn sum(a: i64, b: i64) -> i128
    ensures value { result ≡ a +ℤ b }
    ensures least { negsuc 18446744073709551615 ≤ℤ result }
    ensures greatest { result ≤ℤ pos 18446744073709551616 }
{
    i128::from(a) + i128::from(b)
}

/// The sum of three constants.
fn total(a: i64, b: i64, c: i64) -> i128
    ensures { result ≡ a +ℤ (b +ℤ c) }
{
    i128::from(a) + sum(b, c)
}

/// The same, and a constant more. The sum is cut once, in the end.
fn renamed_more(e: Expr, more: i64, names: &[Option<Expr>]) -> Option<Expr>
    ensures { result ≡ renamed_more names.now more e }
{
    let name = name_of(names, e.sym)?;
    fitting(name.sym, total(name.k, e.k, more))
}

impl Def {
    /// The definition in other names.
    fn in_names(self, symbols: &[Option<Expr>], references: &[Option<u32>]) -> Option<Def>
        ensures { result ≡ renamed_def symbols.now references.now self }
    {
        match self {
            Def::Eq(x, y) => Some(Def::Eq(renamed(x, symbols)?, renamed(y, symbols)?)),
            Def::Lt(x, y) => Some(Def::Lt(renamed(x, symbols)?, renamed(y, symbols)?)),
            Def::LtUn(x, y) => Some(Def::LtUn(renamed(x, symbols)?, renamed(y, symbols)?)),
            Def::Sub(x, y) => Some(Def::Sub(renamed(x, symbols)?, renamed(y, symbols)?)),
            Def::NullTest(r, is) => Some(Def::NullTest(reference_of(references, r)?, is)),
        }
    }

    /// In other names, the definition of what is greater by `more`.
    fn in_names_above(
        self,
        more: i64,
        symbols: &[Option<Expr>],
        references: &[Option<u32>],
    ) -> Option<Def>
        ensures { result ≡ renamed_above more symbols.now references.now self }
    {
        match self {
            Def::Sub(x, y) => Some(Def::Sub(renamed_more(x, more, symbols)?, renamed(y, symbols)?)),
            _ if more == 0 => self.in_names(symbols, references),
            _ => None,
        }
    }

    /// The definition, where each symbol is worth the expression at its place, and each reference is the one at its
    /// place. None where there is none at one of these places, or where a constant leaves 64 bits.
    pub fn renamed(self, symbols: &[Option<Expr>], references: &[Option<u32>]) -> Option<Def>
        ensures value { result ≡ renamed_def symbols.now references.now self }
        ensures says { IfSome result (SaysSame symbols.now references.now self) }
    {
        self.in_names(symbols, references)
    }

    /// In other names, the definition of what is greater by `more` than the symbol that this one defines: of a
    /// difference, `more` is added to the first expression, and any other is None unless `more` is 0. None too where
    /// a symbol or the reference has no name, or where a constant of the outcome leaves 64 bits.
    pub fn renamed_above(
        self,
        more: i64,
        symbols: &[Option<Expr>],
        references: &[Option<u32>],
    ) -> Option<Def>
        ensures value { result ≡ renamed_above more symbols.now references.now self }
        ensures says { IfSome result (SaysMore more symbols.now references.now self) }
    {
        self.in_names_above(more, symbols, references)
    }
}
