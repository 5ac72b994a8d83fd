//! The rules on two states as one, on one in other names, and on inclusion.

ghost use Rattle.std.specs.Prelude.{◌≡◌, true, IfOk, OnOk};
ghost use Rattle.number_spans.specs.Sizes.{IsWide};
ghost use Rattle.merged_numbers.specs.Meaning.{AreMeasured, IsMeasured};

use crate::facts::facts_text;
use crate::number_rules::{end, is_there};
use domain_api::{Expr, NoMemory};
use frame_names::Bound;
use merged_numbers::{Merged, Side, includes, joined, normed, widened};
use number_facts::{Definitions, Numbers};
use number_spans::Span;
use rule_text::{Failure, asked, check, check_yes, expr, symbol, two_words};
use std::alloc::{AllocError, Global};
use symbolic_values::Key;

/// An end is at most 2^65.
fn is_wide(n: i128) -> bool
    ensures { result ≡ true → IsWide n }
{
    -36_893_488_147_419_103_232 <= n && n <= 36_893_488_147_419_103_232
}

/// The ends of a span are, and its hole.
fn is_measured(span: &Span) -> bool
    ensures { result ≡ true → IsMeasured span.now }
{
    let hole = match span.hole {
        None => true,
        Some(hole) => is_wide(hole),
    };
    is_wide(span.lo) && is_wide(span.hi) && hole
}

/// Those of each span are.
fn are_measured(spans: &[Span]) -> bool
    ensures { result ≡ true → AreMeasured spans.now }
{
    match spans {
        [] => true,
        [first, others @ ..] => is_measured(first) && are_measured(others),
    }
}

/// The ends of spans are at most 2^65.
fn measured(spans: &[Span]) -> Result<(), Failure>
    ensures { OnOk result (AreMeasured spans.now) }
{
    if are_measured(spans) {
        Ok(())
    } else {
        Err(Failure::Unmet("each end is at most 2^65"))
    }
}

/// The numbers that each symbol may be, from symbol 0 on.
fn spans(alloc: Global, numbers: &Numbers) -> Result<Vec<Span>, Failure> {
    let mut spans = Vec::new(alloc);
    for sym in 0..u32::MAX {
        if sym as usize > numbers.ranges.len() {
            break;
        }
        let e = Expr { sym, k: 0 };
        is_there(numbers, e)?;
        let (lo, hi, hole) = numbers.ends(e);
        spans.push(Span { lo, hi, hole })?;
    }
    Ok(spans)
}

/// The same, of which each end is at most 2^65.
fn measured_spans(alloc: Global, numbers: &Numbers) -> Result<Vec<Span>, Failure>
    ensures { IfOk result (λ spans. AreMeasured spans.items) }
{
    let spans = spans(alloc, numbers)?;
    measured(spans.as_slice())?;
    Ok(spans)
}

/// `s1 s2 -3 3`: a key, with its symbols, its shift and the constant of its first use.
fn key(text: &str) -> Result<Key, Failure> {
    let mut words = text.split_whitespace();
    match (words.next(), words.next(), words.next(), words.next()) {
        (Some(s), Some(t), Some(shift), Some(first)) => Ok(Key {
            s: symbol(s)?,
            t: symbol(t)?,
            shift: end(shift)?,
            first: end(first)?,
        }),
        _ => Err(Failure::Unread("a key")),
    }
}

/// The keys of a text, each behind a `,`; `none` where there are none.
fn keys(alloc: Global, text: &str) -> Result<Vec<Key>, Failure> {
    let mut keys = Vec::new(alloc);
    if text == "none" {
        return Ok(keys);
    }
    for text in text.split(',') {
        keys.push(key(text)?)?;
    }
    Ok(keys)
}

/// The text of what is known of new symbols.
fn merged_text(alloc: Global, merged: Option<Merged>) -> Result<String, AllocError> {
    let Some(Merged { ranges, bounds }) = merged else {
        return String::from_str(alloc, "unreachable");
    };
    facts_text(
        alloc,
        &Numbers {
            ranges,
            definitions: Definitions::new(alloc),
            bounds,
        },
    )
}

/// Two states as one, or the first in other names, by the keyword.
fn made_by(
    alloc: Global,
    keyword: &str,
    keys: &[Key],
    a: &Side<'_>,
    b: &Side<'_>,
) -> Result<Option<Merged>, NoMemory>
    requires first { AreMeasured a.now.spans.now }
    requires second { AreMeasured b.now.spans.now }
{
    match keyword {
        "joined" => joined(alloc, keys, a, b),
        "widened" => widened(alloc, keys, a, b),
        _ => normed(alloc, keys, a),
    }
}

/// What a rule makes of two states, for the keys of a text.
fn made_of(
    alloc: Global,
    numbers: &Numbers,
    beside: &Numbers,
    keyword: &str,
    of: &str,
) -> Result<Option<Merged>, Failure> {
    let keys = keys(alloc, of)?;
    let first = measured_spans(alloc, numbers)?;
    let second = measured_spans(alloc, beside)?;
    let a = Side {
        spans: first.as_slice(),
        bounds: &numbers.bounds,
    };
    let b = Side {
        spans: second.as_slice(),
        bounds: &beside.bounds,
    };
    Ok(made_by(alloc, keyword, keys.as_slice(), &a, &b)?)
}

/// `joined s1 s1 0 0, s2 s0 3 0 = s1 in 0..9`: what is known of new symbols, one for each key; `widened` likewise, and
/// `normed`, where what stands beside counts for nothing.
pub fn merged(
    alloc: Global,
    numbers: &Numbers,
    beside: &Numbers,
    keyword: &str,
    argument: &str,
) -> Result<(), Failure> {
    let (of, told) = asked(argument)?;
    let made = made_of(alloc, numbers, beside, keyword, of)?;
    check(merged_text(alloc, made)?, told)
}

/// A value and an offset.
fn binding(text: &str) -> Result<Bound, Failure> {
    let (value, offset) = two_words(text)?;
    Ok(Bound {
        value: expr(value)?,
        offset: end(offset)?,
    })
}

/// The values and offsets of a text, each two behind a `,`; `none` where there are none.
fn bindings(alloc: Global, text: &str) -> Result<Vec<Bound>, Failure> {
    let mut bindings = Vec::new(alloc);
    if text == "none" {
        return Ok(bindings);
    }
    for text in text.split(',') {
        bindings.push(binding(text)?)?;
    }
    Ok(bindings)
}

/// `within-beside s1 0, s2+3 1 = yes`: whether all that ranges and bounds say beside is known of what its symbols are
/// bound to, each by a value and its own offset there.
pub fn within(
    alloc: Global,
    numbers: &Numbers,
    beside: &Numbers,
    argument: &str,
) -> Result<(), Failure> {
    let (of, told) = asked(argument)?;
    let bindings = bindings(alloc, of)?;
    let spans = measured_spans(alloc, numbers)?;
    let a = Side {
        spans: spans.as_slice(),
        bounds: &numbers.bounds,
    };
    let is = includes(
        &a,
        bindings.as_slice(),
        beside.ranges.as_slice(),
        &beside.bounds,
    );
    check_yes(alloc, is, told)
}
