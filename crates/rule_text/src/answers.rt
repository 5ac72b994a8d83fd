//! Answers, and what is asked before them.

use crate::failure::Failure;
use std::alloc::Global;

/// A question, and the text of its answer behind ` = `.
pub fn asked(text: &str) -> Result<(&str, &str), Failure> {
    match text.split_once(" = ") {
        Some(parts) => Ok(parts),
        None => Err(Failure::Unread("` = ` and an answer")),
    }
}

/// The two words of a text.
pub fn two_words(text: &str) -> Result<(&str, &str), Failure> {
    let mut words = text.split_whitespace();
    match (words.next(), words.next(), words.next()) {
        (Some(a), Some(b), None) => Ok((a, b)),
        _ => Err(Failure::Unread("two words")),
    }
}

/// The three words of a text.
pub fn three_words(text: &str) -> Result<(&str, &str, &str), Failure> {
    let mut words = text.split_whitespace();
    match (words.next(), words.next(), words.next(), words.next()) {
        (Some(a), Some(b), Some(c), None) => Ok((a, b, c)),
        _ => Err(Failure::Unread("three words")),
    }
}

/// The answer that was found is the one that is told.
pub fn check(found: String, told: &str) -> Result<(), Failure> {
    if found.as_str() == told {
        Ok(())
    } else {
        Err(Failure::Found(found))
    }
}

/// Compares what was found, yes or no, with what is told.
pub fn check_yes(alloc: Global, found: bool, told: &str) -> Result<(), Failure> {
    check(
        String::from_str(alloc, if found { "yes" } else { "no" })?,
        told,
    )
}
