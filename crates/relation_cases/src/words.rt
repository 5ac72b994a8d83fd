//! The texts of numbers that may be none.

use domain_api::Expr;
use rule_text::append_number;
use std::alloc::{AllocError, Global};

/// Appends a number of 64 bits, or that there is none.
pub fn append_found(text: &mut String, found: Option<i64>) -> Result<(), AllocError> {
    match found {
        None => text.push_str("none"),
        Some(number) => write!(text, "{number}"),
    }
}

/// A number of 64 bits, or that there is none.
pub fn number_text(alloc: Global, found: Option<i64>) -> Result<String, AllocError> {
    let mut text = String::new(alloc);
    append_found(&mut text, found)?;
    Ok(text)
}

/// Appends the text of a number, or that there is none.
pub fn append_expr(text: &mut String, found: Option<Expr>) -> Result<(), AllocError> {
    match found {
        None => text.push_str("none"),
        Some(e) => append_number(text, e),
    }
}

/// The text of a number, or that there is none.
pub fn expr_text(alloc: Global, found: Option<Expr>) -> Result<String, AllocError> {
    let mut text = String::new(alloc);
    append_expr(&mut text, found)?;
    Ok(text)
}
