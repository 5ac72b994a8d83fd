//! The text of definitions.

use crate::failure::Failure;
use crate::numbers::append_number;
use crate::words::{append_reference, expr, reference};
use domain_api::Expr;
use std::alloc::AllocError;
use symbolic_values::Def;

/// The definition of two numbers, by its name.
fn of_numbers(name: &str, x: Expr, y: Expr) -> Option<Def> {
    match name {
        "eq" => Some(Def::Eq(x, y)),
        "lt" => Some(Def::Lt(x, y)),
        "lt.un" => Some(Def::LtUn(x, y)),
        "difference" => Some(Def::Sub(x, y)),
        _ => None,
    }
}

/// The definition of a text: `lt s1 s2+1`, or `null r1`.
pub fn definition(text: &str) -> Result<Def, Failure> {
    let mut words = text.split_whitespace();
    let found = match (words.next(), words.next(), words.next(), words.next()) {
        (Some("null"), Some(r), None, None) => Some(Def::NullTest(reference(r)?, true)),
        (Some("not-null"), Some(r), None, None) => Some(Def::NullTest(reference(r)?, false)),
        (Some(name), Some(x), Some(y), None) => of_numbers(name, expr(x)?, expr(y)?),
        _ => None,
    };
    found.ok_or(Failure::Unread("a definition"))
}

/// Appends the text of a definition of two numbers.
fn append_of_numbers(text: &mut String, name: &str, x: Expr, y: Expr) -> Result<(), AllocError> {
    write!(text, "{name} ")?;
    append_number(text, x)?;
    text.push(' ')?;
    append_number(text, y)
}

/// Appends the text of a null test.
fn append_test(text: &mut String, name: &str, r: u32) -> Result<(), AllocError> {
    text.push_str(name)?;
    append_reference(text, r)
}

/// Appends the text of a definition.
pub fn append_definition(text: &mut String, def: Def) -> Result<(), AllocError> {
    match def {
        Def::Eq(x, y) => append_of_numbers(text, "eq", x, y),
        Def::Lt(x, y) => append_of_numbers(text, "lt", x, y),
        Def::LtUn(x, y) => append_of_numbers(text, "lt.un", x, y),
        Def::Sub(x, y) => append_of_numbers(text, "difference", x, y),
        Def::NullTest(r, true) => append_test(text, "null ", r),
        Def::NullTest(r, false) => append_test(text, "not-null ", r),
    }
}
