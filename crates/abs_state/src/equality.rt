//! Whether two states say the same.

ghost use Rattle.std.specs.Prelude.{◌≡◌, ◌↔◌, IsTrue};

use crate::state::AbsState;
use domain_api::Expr;
use frame_names::{Reference, Var};
use interval_domain::Range;
use number_facts::Numbers;
use state_facts::Known;
use symbolic_values::Def;

/// Returns whether two ranges are equal.
fn is_same_range(a: &Range, b: &Range) -> bool
    ensures { IsTrue result ↔ (a.now ≡ b.now) }
{
    a.lo() == b.lo() && a.hi() == b.hi() && a.hole() == b.hole()
}

/// Returns whether two expressions are equal.
fn is_same_expr(a: Expr, b: Expr) -> bool
    ensures { IsTrue result ↔ (a ≡ b) }
{
    a.sym == b.sym && a.k == b.k
}

/// Returns whether two expressions are each equal to another one.
fn are_same_exprs(a: Expr, b: Expr, c: Expr, d: Expr) -> bool
    ensures { IsTrue result ↔ ((a ≡ c) × (b ≡ d)) }
{
    is_same_expr(a, c) && is_same_expr(b, d)
}

/// Returns whether two variables have the same.
fn is_same_var(a: &Var, b: &Var) -> bool
    ensures { IsTrue result ↔ (a.now ≡ b.now) }
{
    match (*a, *b) {
        (Var::Number(x), Var::Number(y)) => is_same_expr(x, y),
        (Var::Reference(r), Var::Reference(q)) => r == q,
        (Var::Text, Var::Text) => true,
        (Var::Address(r, x), Var::Address(q, y)) => r == q && is_same_expr(x, y),
        (Var::Number(_) | Var::Reference(_) | Var::Text | Var::Address(..), _) => false,
    }
}

/// Returns whether two definitions say the same.
fn is_same_def(a: Def, b: Def) -> bool
    ensures { IsTrue result ↔ (a ≡ b) }
{
    match (a, b) {
        (Def::Eq(x, y), Def::Eq(z, w)) => are_same_exprs(x, y, z, w),
        (Def::Lt(x, y), Def::Lt(z, w)) => are_same_exprs(x, y, z, w),
        (Def::LtUn(x, y), Def::LtUn(z, w)) => are_same_exprs(x, y, z, w),
        (Def::Sub(x, y), Def::Sub(z, w)) => are_same_exprs(x, y, z, w),
        (Def::NullTest(r, is), Def::NullTest(q, other)) => r == q && is == other,
        _ => false,
    }
}

/// Returns whether two symbols are the same, with the same definition.
fn is_same_definition(a: &(u32, Def), b: &(u32, Def)) -> bool
    ensures { IsTrue result ↔ (a.now ≡ b.now) }
{
    a.0 == b.0 && is_same_def(a.1, b.1)
}

/// Returns whether the same is known of two references.
fn is_same_reference(a: &Reference, b: &Reference) -> bool
    ensures { IsTrue result ↔ (a.now ≡ b.now) }
{
    a.place == b.place && a.nullness == b.nullness && is_same_expr(a.length, b.length)
}

/// Returns whether two lists of ranges are equal.
fn are_same_ranges(a: &[Range], b: &[Range]) -> bool
    ensures { IsTrue result ↔ (a.now ≡ b.now) }
{
    if a.len() != b.len() {
        return false;
    }
    for index in 0..a.len() {
        if !is_same_range(&a[index], &b[index]) {
            return false;
        }
    }
    true
}

/// Returns whether two lists of variables are equal.
fn are_same_variables(a: &[Var], b: &[Var]) -> bool
    ensures { IsTrue result ↔ (a.now ≡ b.now) }
{
    if a.len() != b.len() {
        return false;
    }
    for index in 0..a.len() {
        if !is_same_var(&a[index], &b[index]) {
            return false;
        }
    }
    true
}

/// Returns whether two lists of definitions are equal.
fn are_same_definitions(a: &[(u32, Def)], b: &[(u32, Def)]) -> bool
    ensures { IsTrue result ↔ (a.now ≡ b.now) }
{
    if a.len() != b.len() {
        return false;
    }
    for index in 0..a.len() {
        if !is_same_definition(&a[index], &b[index]) {
            return false;
        }
    }
    true
}

/// Returns whether two lists of references are equal.
fn are_same_references(a: &[Reference], b: &[Reference]) -> bool
    ensures { IsTrue result ↔ (a.now ≡ b.now) }
{
    if a.len() != b.len() {
        return false;
    }
    for index in 0..a.len() {
        if !is_same_reference(&a[index], &b[index]) {
            return false;
        }
    }
    true
}

/// Returns whether the same is known of symbols.
fn are_same_numbers(a: &Numbers, b: &Numbers) -> bool
    ensures { IsTrue result ↔ (a.now ≡ b.now) }
{
    are_same_ranges(&a.ranges, &b.ranges)
        && are_same_definitions(a.definitions.rows(), b.definitions.rows())
        && a.bounds.same(&b.bounds)
}

/// Returns whether the same is known.
fn is_same_known(a: &Known, b: &Known) -> bool
    ensures { IsTrue result ↔ (a.now ≡ b.now) }
{
    are_same_variables(&a.variables, &b.variables)
        && are_same_numbers(&a.numbers, &b.numbers)
        && are_same_references(&a.references, &b.references)
        && a.apart.same(&b.apart)
        && a.contents.same(&b.contents)
}

impl AbsState {
    /// Returns whether two states are equal. Takes no memory.
    pub fn same(&self, other: &AbsState) -> bool
        ensures { IsTrue result ↔ (self.now ≡ other.now) }
    {
        match (&self.known, &other.known) {
            (None, None) => true,
            (Some(a), Some(b)) => is_same_known(a, b),
            _ => false,
        }
    }
}
