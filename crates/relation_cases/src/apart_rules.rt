//! The rules on references.

use alias_facts::Apart;
use rule_text::{
    Failure, asked, check, check_yes, nullness, nullness_name, reference, separate, two_words,
};
use std::alloc::{AllocError, Global};

/// The text of pairs.
fn pairs_text(alloc: Global, pairs: &[(u32, u32)]) -> Result<String, AllocError> {
    let mut text = String::new(alloc);
    if pairs.is_empty() {
        text.push_str("none")?;
    }
    for (index, pair) in pairs.iter().enumerate() {
        separate(&mut text, index, ", ")?;
        write!(text, "r{} r{}", pair.0, pair.1)?;
    }
    Ok(text)
}

/// `apart r1 r2`: keeps two references apart.
pub fn set_apart(apart: &mut Apart, argument: &str) -> Result<(), Failure> {
    let (r, q) = two_words(argument)?;
    apart.set_apart(reference(r)?, reference(q)?)?;
    Ok(())
}

/// `new r5`: keeps a reference apart from each one before it.
pub fn set_new(apart: &mut Apart, argument: &str) -> Result<(), Failure> {
    apart.set_apart_from_earlier(reference(argument)?)?;
    Ok(())
}

/// No other pairs than those of a text, which are set apart in its order: `r1 r2, new r5`, or `none`.
fn apart_of(alloc: Global, text: &str) -> Result<Apart, Failure> {
    let mut apart = Apart::new(alloc);
    if text == "none" {
        return Ok(apart);
    }
    for text in text.split(',') {
        let text = text.trim();
        match text.strip_prefix("new ") {
            Some(text) => set_new(&mut apart, text)?,
            None => set_apart(&mut apart, text)?,
        }
    }
    Ok(apart)
}

/// `pairs r1 r2, r1 r3`: all pairs that are kept, and also those of a copy.
pub fn pairs(alloc: Global, apart: &Apart, told: &str) -> Result<(), Failure> {
    check(pairs_text(alloc, &apart.pairs(alloc)?)?, told)?;
    let again = apart.copy(alloc)?;
    check(pairs_text(alloc, &again.pairs(alloc)?)?, told)
}

/// `is-apart r1 r2 = yes`: whether two references are kept apart.
pub fn is_apart(alloc: Global, apart: &Apart, argument: &str) -> Result<(), Failure> {
    let (question, told) = asked(argument)?;
    let (r, q) = two_words(question)?;
    check_yes(alloc, apart.is_apart(reference(r)?, reference(q)?), told)
}

/// `same-pairs r1 r2, new r5 = yes`: whether the same pairs are kept as where these are set apart alone.
pub fn same(alloc: Global, apart: &Apart, argument: &str) -> Result<(), Failure> {
    let (question, told) = asked(argument)?;
    let others = apart_of(alloc, question)?;
    check_yes(alloc, apart.same(&others), told)?;
    check_yes(alloc, others.same(apart), told)
}

/// `must-differ r1 r2 one-place not-null may-be-null = yes`: whether two references cannot be the same array. Their
/// places are one, or `two-places`, and so much is known of each.
pub fn must_differ(alloc: Global, apart: &Apart, argument: &str) -> Result<(), Failure> {
    let (question, told) = asked(argument)?;
    let mut words = question.split_whitespace();
    let (Some(r), Some(q), Some(places), Some(a), Some(b), None) = (
        words.next(),
        words.next(),
        words.next(),
        words.next(),
        words.next(),
        words.next(),
    ) else {
        return Err(Failure::Unread("five words"));
    };
    let same_place = match places {
        "one-place" => true,
        "two-places" => false,
        _ => return Err(Failure::Unread("one-place or two-places")),
    };
    let (r, q) = (reference(r)?, reference(q)?);
    let found = apart.cannot_be_same(r, q, same_place, nullness(a)?, nullness(b)?);
    check_yes(alloc, found, told)
}

/// `joined-nullness null not-null = may-be-null`: what is known where either is.
pub fn joined(alloc: Global, argument: &str) -> Result<(), Failure> {
    let (question, told) = asked(argument)?;
    let (a, b) = two_words(question)?;
    let found = nullness(a)?.join(nullness(b)?);
    check(String::from_str(alloc, nullness_name(found))?, told)
}

/// `entails null may-be-null = yes`: whether the one tells at least as much as the other.
pub fn entails(alloc: Global, argument: &str) -> Result<(), Failure> {
    let (question, told) = asked(argument)?;
    let (a, b) = two_words(question)?;
    check_yes(alloc, nullness(a)?.entails(nullness(b)?), told)
}
