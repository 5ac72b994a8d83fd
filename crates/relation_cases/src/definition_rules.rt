//! The rules on definitions of symbols.

use crate::name_rules::two_sides;
use domain_api::Expr;
use rule_text::{Failure, append_definition, asked, check, definition};
use std::alloc::{AllocError, Global};
use symbolic_values::{Def, Pairs, ReferencePairs};

/// The text of a definition, or that there is none.
fn definition_text(alloc: Global, found: Option<Def>) -> Result<String, AllocError> {
    let Some(def) = found else {
        return String::from_str(alloc, "none");
    };
    let mut text = String::new(alloc);
    append_definition(&mut text, def)?;
    Ok(text)
}

/// `named-definition lt s1 s2 | lt s3 s4 = lt s1 s2`: the new definition of two, by the pairs that are known.
pub fn named(
    alloc: Global,
    numbers: &Pairs,
    references: &ReferencePairs,
    argument: &str,
) -> Result<(), Failure> {
    let (question, told) = asked(argument)?;
    let (a, b) = two_sides(question)?;
    let found = numbers.named_def(references, definition(a)?, definition(b)?);
    check(definition_text(alloc, found)?, told)
}

/// `renamed-definition lt s1 s2+1 = lt s3 s1`: a definition in the names of symbols and references.
pub fn renamed(
    alloc: Global,
    symbols: &[Option<Expr>],
    references: &[Option<u32>],
    argument: &str,
) -> Result<(), Failure> {
    let (question, told) = asked(argument)?;
    let found = definition(question)?.renamed(symbols, references);
    check(definition_text(alloc, found)?, told)
}

/// `renamed-above 2 difference s1 s2 = difference s3+2 s1`: the same of what is greater by so much than the symbol that
/// is defined.
pub fn renamed_above(
    alloc: Global,
    symbols: &[Option<Expr>],
    references: &[Option<u32>],
    argument: &str,
) -> Result<(), Failure> {
    let (question, told) = asked(argument)?;
    let Some((more, question)) = question.split_once(' ') else {
        return Err(Failure::Unread("how much more, and a definition"));
    };
    let Ok(more) = more.parse::<i64>() else {
        return Err(Failure::Unread("how much more"));
    };
    let found = definition(question)?.renamed_above(more, symbols, references);
    check(definition_text(alloc, found)?, told)
}
