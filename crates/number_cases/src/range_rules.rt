//! The rules on ranges.

use domain_api::Values;
use interval_domain::Range;
use rule_text::{Failure, append_range, asked, check, check_yes, range, three_words, two_words};
use std::alloc::{AllocError, Global};

/// The range of a word.
fn read(word: &str) -> Result<Range, Failure> {
    range(word).ok_or(Failure::Unread("a range"))
}

/// The text of a range, or that there is none.
fn text_of(alloc: Global, range: Option<Range>) -> Result<String, AllocError> {
    let Some(range) = range else {
        return String::from_str(alloc, "none");
    };
    let mut text = String::new(alloc);
    append_range(&mut text, range)?;
    Ok(text)
}

/// What an operator on sets of numbers gives, by its name.
fn given<V: Values>(operator: &str, a: &V, b: &V) -> Option<V> {
    Some(match operator {
        "hull" => a.hull(b),
        "widened" => a.widened(b),
        "add" => a.add(b),
        "sub" => a.sub(b),
        "mul" => a.mul(b),
        "div" => a.div(b),
        "rem" => a.rem(b),
        "and" => a.and(b),
        _ => return None,
    })
}

/// `ranges hull 0..1 5..6 = 0..6`: an operator on two ranges.
pub fn operate(alloc: Global, argument: &str) -> Result<(), Failure> {
    let (question, told) = asked(argument)?;
    let (operator, a, b) = three_words(question)?;
    match given(operator, &read(a)?, &read(b)?) {
        None => Err(Failure::Unread("an operator on ranges")),
        found => check(text_of(alloc, found)?, told),
    }
}

/// `range 1 0 = none`: all numbers from one to another.
pub fn between(alloc: Global, argument: &str) -> Result<(), Failure> {
    let (ends, told) = asked(argument)?;
    let (lo, hi) = two_words(ends)?;
    match (lo.parse::<i64>(), hi.parse::<i64>()) {
        (Ok(lo), Ok(hi)) => check(text_of(alloc, Range::new(lo, hi))?, told),
        _ => Err(Failure::Unread("two ends")),
    }
}

/// `constant 3 = 3..3`: the range of one number.
pub fn constant(alloc: Global, argument: &str) -> Result<(), Failure> {
    let (number, told) = asked(argument)?;
    match number.parse::<i64>() {
        Ok(number) => check(text_of(alloc, Some(Range::constant(number)))?, told),
        Err(_) => Err(Failure::Unread("a constant")),
    }
}

/// `full int32`: the range of each int32.
pub fn full(alloc: Global, told: &str) -> Result<(), Failure> {
    check(text_of(alloc, Some(Range::full()))?, told)
}

/// `without 0..5 3 = 0..5!3`: a range without a number.
pub fn without(alloc: Global, argument: &str) -> Result<(), Failure> {
    let (question, told) = asked(argument)?;
    let (from, number) = two_words(question)?;
    match number.parse::<i64>() {
        Ok(number) => check(text_of(alloc, read(from)?.without(number))?, told),
        Err(_) => Err(Failure::Unread("a number")),
    }
}

/// `within 0..5 0..4 = no`: whether the second range has each number of the first.
pub fn within(alloc: Global, argument: &str) -> Result<(), Failure> {
    let (question, told) = asked(argument)?;
    let (a, b) = two_words(question)?;
    check_yes(alloc, read(a)?.within(&read(b)?), told)
}
