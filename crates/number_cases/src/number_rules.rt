//! The rules on numbers.

ghost use Rattle.std.specs.Prelude.{◌≤◌, length, IfOk, OnOk};
ghost use Rattle.number_facts.specs.Facts.{AreNarrow, IsThere};

use crate::facts::facts_text;
use domain_api::{Expr, Order};
use number_facts::Numbers;
use rule_text::{
    Failure, append_number, append_wide_range, are_narrow, asked, check, comparison, expr,
    may_operate, operator, symbol, three_words, two_words,
};
use std::alloc::{AllocError, Global};

/// The symbol of a number is there.
pub fn is_there(numbers: &Numbers, e: Expr) -> Result<(), Failure>
    ensures { OnOk result (e.sym ≤ length numbers.now.ranges) }
{
    if e.sym as usize <= numbers.ranges.len() {
        Ok(())
    } else {
        Err(Failure::Unmet("the number's symbol is there"))
    }
}

/// The numbers of each symbol are int32.
fn narrow(numbers: &Numbers) -> Result<(), Failure>
    ensures { OnOk result (AreNarrow numbers.now) }
{
    if are_narrow(numbers.ranges.as_slice()) {
        Ok(())
    } else {
        Err(Failure::Unmet("the numbers of each symbol are int32"))
    }
}

/// The symbol of a number is there, and its constant is one of -2^32 to 2^32.
fn is_small(numbers: &Numbers, e: Expr) -> Result<(), Failure>
    ensures { OnOk result (IsThere numbers.now e) }
{
    is_there(numbers, e)?;
    if -4_294_967_296 <= e.k && e.k <= 4_294_967_296 {
        Ok(())
    } else {
        Err(Failure::Unmet("the number's constant has at most 33 bits"))
    }
}

/// The two numbers of an operator, each there, with a constant of at most 33 bits, and of symbols of int32.
fn operands(numbers: &Numbers, a: &str, b: &str) -> Result<(Expr, Expr), Failure>
    ensures first { IfOk result (λ pair. IsThere numbers.now pair.0) }
    ensures second { IfOk result (λ pair. IsThere numbers.now pair.1) }
    ensures narrow { OnOk result (AreNarrow numbers.now) }
{
    let (a, b) = (expr(a)?, expr(b)?);
    narrow(numbers)?;
    is_small(numbers, a)?;
    is_small(numbers, b)?;
    Ok((a, b))
}

/// The text of a number that was made, or that there is none.
fn made_text(alloc: Global, made: Option<Expr>) -> Result<String, AllocError> {
    let Some(e) = made else {
        return String::from_str(alloc, "none");
    };
    let mut text = String::new(alloc);
    append_number(&mut text, e)?;
    Ok(text)
}

/// `ends s1+3 = 3..12!8`: the least and the greatest of a number, and the one that it is not.
pub fn ends(alloc: Global, numbers: &Numbers, argument: &str) -> Result<(), Failure> {
    let (e, told) = asked(argument)?;
    let e = expr(e)?;
    is_there(numbers, e)?;
    let mut text = String::new(alloc);
    append_wide_range(&mut text, numbers.ends(e))?;
    check(text, told)
}

/// `gap s1 s2 = 3`: how far the second symbol is known to lie above the first.
pub fn gap(alloc: Global, numbers: &Numbers, argument: &str) -> Result<(), Failure> {
    let (question, told) = asked(argument)?;
    let (s, t) = two_words(question)?;
    let found = match numbers.gap(symbol(s)?, symbol(t)?) {
        None => String::from_str(alloc, "none")?,
        Some(far) => format!(in alloc; "{far}")?,
    };
    check(found, told)
}

/// `fresh 0 10 5 = s1`: a new number between two ends, but for a hole (`-`: for none).
pub fn fresh(alloc: Global, numbers: &mut Numbers, argument: &str) -> Result<(), Failure> {
    let (question, told) = asked(argument)?;
    let (lo, hi, hole) = three_words(question)?;
    let hole = match hole {
        "-" => None,
        _ => Some(end(hole)?),
    };
    let made = numbers.fresh(end(lo)?, end(hi)?, hole)?;
    check(made_text(alloc, made)?, told)
}

/// A number of 64 bits.
pub fn end(word: &str) -> Result<i64, Failure> {
    word.parse::<i64>()
        .ok()
        .ok_or(Failure::Unread("an end or a hole"))
}

/// `arith add s1 5 = s1+5`: the result of an operator.
pub fn arith(alloc: Global, numbers: &mut Numbers, argument: &str) -> Result<(), Failure> {
    let (question, told) = asked(argument)?;
    let (op, a, b) = three_words(question)?;
    let op = operator(op).ok_or(Failure::Unread("an operator"))?;
    let (a, b) = operands(numbers, a, b)?;
    may_operate(op, b)?;
    let made = numbers.arith(op, a, b)?;
    check(made_text(alloc, made)?, told)
}

/// `exact add.ovf s1 s2 = 5..17`: the ends that are judged for overflow.
pub fn exact(alloc: Global, numbers: &Numbers, argument: &str) -> Result<(), Failure> {
    let (question, told) = asked(argument)?;
    let (op, a, b) = three_words(question)?;
    let op = operator(op).ok_or(Failure::Unread("an operator"))?;
    let (a, b) = operands(numbers, a, b)?;
    let (lo, hi) = numbers.exact_ends(op, a, b);
    check(format!(in alloc; "{lo}..{hi}")?, told)
}

/// `compare clt s1 5 = s2`: the truth of a comparison.
pub fn compare(alloc: Global, numbers: &mut Numbers, argument: &str) -> Result<(), Failure> {
    let (question, told) = asked(argument)?;
    let (op, a, b) = three_words(question)?;
    let op = operator(op).ok_or(Failure::Unread("an operator"))?;
    let (a, b) = (expr(a)?, expr(b)?);
    is_there(numbers, a)?;
    is_there(numbers, b)?;
    let made = numbers.compare(op, a, b)?;
    check(made_text(alloc, Some(made))?, told)
}

/// `assume lt s1 5`: assumes that a comparison holds, or that it does not. Answers whether something is reached then.
pub fn assume(numbers: &mut Numbers, argument: &str, holds: bool) -> Result<bool, Failure> {
    let (op, a, b) = three_words(argument)?;
    let op = comparison(op).ok_or(Failure::Unread("a comparison"))?;
    let (a, b) = (expr(a)?, expr(b)?);
    is_there(numbers, a)?;
    is_there(numbers, b)?;
    Ok(numbers.assume_cmp(op, a, b, holds)?)
}

/// `after s1 in 0..9`, or `after unreachable`: all that is known, as a copy tells it.
pub fn after(alloc: Global, numbers: &Option<Numbers>, told: &str) -> Result<(), Failure> {
    let found = match numbers {
        None => String::from_str(alloc, "unreachable")?,
        Some(numbers) => facts_text(alloc, &numbers.copy(alloc)?)?,
    };
    check(found, told)
}
