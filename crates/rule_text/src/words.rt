//! The words of symbols, references and numbers.

use crate::failure::Failure;
use crate::numbers::number;
use domain_api::Expr;
use std::alloc::{AllocError, Global};

/// The number of a word: `7`, or `s2+7`.
pub fn expr(word: &str) -> Result<Expr, Failure> {
    number(word).ok_or(Failure::Unread("a number"))
}

/// The numbers of a list of words.
pub fn exprs(alloc: Global, text: &str) -> Result<Vec<Expr>, Failure> {
    let mut exprs = Vec::new(alloc);
    for word in text.split_whitespace() {
        exprs.push(expr(word)?)?;
    }
    Ok(exprs)
}

/// What stands behind a letter: the number of a symbol or of a reference.
fn numbered(word: &str, letter: char) -> Option<u32> {
    word.strip_prefix(letter)?.parse::<u32>().ok()
}

/// The symbol of a word: `s2`.
pub fn symbol(word: &str) -> Result<u32, Failure> {
    numbered(word, 's').ok_or(Failure::Unread("a symbol"))
}

/// The reference of a word: `r2`, or `null`.
pub fn reference(word: &str) -> Result<u32, Failure> {
    if word == "null" {
        return Ok(0);
    }
    numbered(word, 'r').ok_or(Failure::Unread("a reference"))
}

/// Appends the word of a reference.
pub fn append_reference(text: &mut String, r: u32) -> Result<(), AllocError> {
    match r {
        0 => text.push_str("null"),
        _ => write!(text, "r{r}"),
    }
}

/// Appends what stands between an item and the one before it.
pub fn separate(text: &mut String, index: usize, between: &str) -> Result<(), AllocError> {
    if index > 0 {
        text.push_str(between)?;
    }
    Ok(())
}
