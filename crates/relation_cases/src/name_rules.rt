//! The rules on names of numbers and of references.

ghost use Rattle.std.specs.Prelude.{◌≡◌, true, length, OnOk};
ghost use Rattle.std.specs.List.{AllByRecursion};
ghost use Rattle.symbolic_values.specs.Pairing.{AreNear, IsNear};

use crate::words::{append_expr, expr_text};
use domain_api::Expr;
use rule_text::{
    Failure, append_number, asked, check, expr, exprs, reference, separate, two_words,
};
use std::alloc::{AllocError, Global};
use symbolic_values::{Env, Key, Pairs, ReferencePairs, first_use_order, pair_up, renamed};

/// The constant of a number is one of -2^32 to 2^32.
fn is_near(e: Expr) -> bool
    ensures { result ≡ true → IsNear e }
{
    -4_294_967_296 <= e.k && e.k <= 4_294_967_296
}

/// That of each number is.
fn are_near(exprs: &[Expr]) -> bool
    ensures { result ≡ true → AllByRecursion IsNear exprs.now }
{
    match exprs {
        [] => true,
        [first, others @ ..] => is_near(*first) && are_near(others),
    }
}

/// The constants of numbers are near.
fn near(env: &Env) -> Result<(), Failure>
    ensures { OnOk result (AreNear env.now) }
{
    if are_near(env.exprs.as_slice()) {
        Ok(())
    } else {
        Err(Failure::Unmet("each constant has at most 33 bits"))
    }
}

/// There are as many numbers of both states.
fn same_length(a: &Env, b: &Env) -> Result<(), Failure>
    ensures { OnOk result (length a.now ≡ length b.now) }
{
    if a.exprs.len() == b.exprs.len() {
        Ok(())
    } else {
        Err(Failure::Unmet("both states have as many numbers"))
    }
}

/// Two lists of numbers, named together.
fn paired(alloc: Global, a: &Env, b: &Env) -> Result<Pairs, Failure> {
    same_length(a, b)?;
    near(a)?;
    near(b)?;
    Ok(pair_up(alloc, a, b)?)
}

/// What stands before and behind a `|`.
pub fn two_sides(text: &str) -> Result<(&str, &str), Failure> {
    text.split_once('|')
        .ok_or(Failure::Unread("two sides, with | between"))
}

/// `pair s1+3 7 | s2 7`: the numbers of two states, named together.
pub fn pair(alloc: Global, argument: &str) -> Result<Pairs, Failure> {
    let (a, b) = two_sides(argument)?;
    let a = Env {
        exprs: exprs(alloc, a)?,
    };
    let b = Env {
        exprs: exprs(alloc, b)?,
    };
    paired(alloc, &a, &b)
}

/// The references of a list of words.
fn references(alloc: Global, text: &str) -> Result<Vec<u32>, Failure> {
    let mut references = Vec::new(alloc);
    for word in text.split_whitespace() {
        references.push(reference(word)?)?;
    }
    Ok(references)
}

/// `pair-references r1 null | r2 r2`: the references of two states, named together.
pub fn pair_references(alloc: Global, argument: &str) -> Result<ReferencePairs, Failure> {
    let (a, b) = two_sides(argument)?;
    let a = references(alloc, a)?;
    let b = references(alloc, b)?;
    if a.len() != b.len() {
        return Err(Failure::Unmet("both states have as many references"));
    }
    Ok(symbolic_values::pair_references(alloc, a.as_slice(), b.as_slice())?)
}

/// The text of keys.
fn keys_text(alloc: Global, keys: &[Key]) -> Result<String, AllocError> {
    let mut text = String::new(alloc);
    if keys.is_empty() {
        text.push_str("none")?;
    }
    for (index, key) in keys.iter().enumerate() {
        separate(&mut text, index, ", ")?;
        write!(text, "s{} s{} {} {}", key.s, key.t, key.shift, key.first)?;
    }
    Ok(text)
}

/// `keys s1 s2 -3 3, s0 s1 2 0`: the keys in order, each with its symbols, its shift and the constant of its first use.
pub fn keys(alloc: Global, pairs: &Pairs, told: &str) -> Result<(), Failure> {
    check(keys_text(alloc, pairs.keys.as_slice())?, told)
}

/// The text of numbers in order.
fn names_text(alloc: Global, exprs: &[Expr]) -> Result<String, AllocError> {
    let mut text = String::new(alloc);
    if exprs.is_empty() {
        text.push_str("none")?;
    }
    for (index, e) in exprs.iter().enumerate() {
        separate(&mut text, index, " ")?;
        append_number(&mut text, *e)?;
    }
    Ok(text)
}

/// `names s1 7 s1-2`: the new number of each pair, and also those of a copy.
pub fn names(alloc: Global, pairs: &Pairs, told: &str) -> Result<(), Failure> {
    check(names_text(alloc, pairs.exprs.as_slice())?, told)?;
    let again = pairs.copy(alloc)?;
    check(names_text(alloc, again.exprs.as_slice())?, told)
}

/// The text of names that may be none.
fn found_text(alloc: Global, names: &[Option<Expr>]) -> Result<String, AllocError> {
    let mut text = String::new(alloc);
    for (index, name) in names.iter().enumerate() {
        separate(&mut text, index, " ")?;
        append_expr(&mut text, *name)?;
    }
    Ok(text)
}

/// `own-names 3 = 0 s2-1 none`: the new numbers of so many symbols, from symbol 0 on, where a state is paired with
/// itself.
pub fn own_names(alloc: Global, pairs: &Pairs, argument: &str) -> Result<(), Failure> {
    let (count, told) = asked(argument)?;
    let Ok(count) = count.parse::<u16>() else {
        return Err(Failure::Unread("how many symbols"));
    };
    let names = pairs.names(alloc, usize::from(count))?;
    check(found_text(alloc, names.as_slice())?, told)
}

/// `reference-names r1 null`: the new reference of each pair, and also those of a copy.
pub fn reference_names(alloc: Global, pairs: &ReferencePairs, told: &str) -> Result<(), Failure> {
    check(references_text(alloc, &pairs.pairs)?, told)?;
    check(references_text(alloc, &pairs.copy(alloc)?.pairs)?, told)
}

/// The text of the new references.
fn references_text(alloc: Global, pairs: &Pairs) -> Result<String, AllocError> {
    let mut text = String::new(alloc);
    if pairs.exprs.is_empty() {
        text.push_str("none")?;
    }
    for (index, e) in pairs.exprs.iter().enumerate() {
        separate(&mut text, index, " ")?;
        match e.sym {
            0 => text.push_str("null")?,
            sym => write!(text, "r{sym}")?,
        }
    }
    Ok(text)
}

/// `named s1+3 s2+3 = s1`: the new number of two, by the keys that are known, and also by those of a copy.
pub fn named(alloc: Global, pairs: &Pairs, argument: &str) -> Result<(), Failure> {
    let (question, told) = asked(argument)?;
    let (e, f) = two_words(question)?;
    let (e, f) = (expr(e)?, expr(f)?);
    check(expr_text(alloc, pairs.named(e, f))?, told)?;
    let again = pairs.copy(alloc)?;
    check(expr_text(alloc, again.named(e, f))?, told)
}

/// The symbols of a list of words, in the order of their first uses.
fn first_used(alloc: Global, text: &str) -> Result<Vec<u32>, Failure> {
    let env = Env {
        exprs: exprs(alloc, text)?,
    };
    Ok(first_use_order(alloc, &env)?)
}

/// The text of symbols.
fn symbols_text(alloc: Global, symbols: &[u32]) -> Result<String, AllocError> {
    let mut text = String::new(alloc);
    if symbols.is_empty() {
        text.push_str("none")?;
    }
    for (index, sym) in symbols.iter().enumerate() {
        separate(&mut text, index, " ")?;
        write!(text, "s{sym}")?;
    }
    Ok(text)
}

/// `first-uses s3 s1+2 = s3 s1`: the symbols in the order of their first uses.
pub fn first_uses(alloc: Global, argument: &str) -> Result<(), Failure> {
    let (question, told) = asked(argument)?;
    let symbols = first_used(alloc, question)?;
    check(symbols_text(alloc, symbols.as_slice())?, told)
}

/// `symbol-names 0 s3-1 none`: the names of symbols, from symbol 0 on.
pub fn symbol_names(alloc: Global, text: &str) -> Result<Vec<Option<Expr>>, Failure> {
    let mut names = Vec::new(alloc);
    for word in text.split_whitespace() {
        names.push(match word {
            "none" => None,
            _ => Some(expr(word)?),
        })?;
    }
    Ok(names)
}

/// `new-references null r2 none`: the names of references, from reference 0 on.
pub fn new_references(alloc: Global, text: &str) -> Result<Vec<Option<u32>>, Failure> {
    let mut names = Vec::new(alloc);
    for word in text.split_whitespace() {
        names.push(match word {
            "none" => None,
            _ => Some(reference(word)?),
        })?;
    }
    Ok(names)
}

/// `renamed s1+3 = s3+2`: a number in the names of symbols.
pub fn renamed_number(
    alloc: Global,
    names: &[Option<Expr>],
    argument: &str,
) -> Result<(), Failure> {
    let (question, told) = asked(argument)?;
    check(expr_text(alloc, renamed(expr(question)?, names))?, told)
}
