//! The rules on bounds and gaps.

use crate::words::{append_found, number_text};
use domain_api::{Expr, Order};
use pentagon_domain::{BoundRow, Bounds, Ends, raised_gap};
use rule_text::{
    Failure, append_number, asked, check, check_yes, expr, range, separate, symbol, three_words,
    two_words,
};
use std::alloc::{AllocError, Global};

/// The row of a text: `s1+3 <= s2`.
fn row(text: &str) -> Result<BoundRow, Failure> {
    let Some((from, to)) = text.split_once(" <= ") else {
        return Err(Failure::Unread("a bound"));
    };
    let Expr { sym: s, k } = expr(from.trim())?;
    let t = symbol(to.trim())?;
    Ok(BoundRow { s, t, k })
}

/// The rows of a text, each behind a `,`; `none` where there are none.
fn rows_of(alloc: Global, text: &str) -> Result<Vec<BoundRow>, Failure> {
    let mut rows = Vec::new(alloc);
    if text == "none" {
        return Ok(rows);
    }
    for text in text.split(',') {
        rows.push(row(text)?)?;
    }
    Ok(rows)
}

/// The text of rows.
fn rows_text(alloc: Global, rows: &[BoundRow]) -> Result<String, AllocError> {
    let mut text = String::new(alloc);
    if rows.is_empty() {
        text.push_str("none")?;
    }
    for (index, row) in rows.iter().enumerate() {
        separate(&mut text, index, ", ")?;
        append_number(
            &mut text,
            Expr {
                sym: row.s,
                k: row.k,
            },
        )?;
        write!(text, " <= s{}", row.t)?;
    }
    Ok(text)
}

/// `bound s1+3 <= s2`: adds a bound.
pub fn add(bounds: &mut Bounds, argument: &str) -> Result<(), Failure> {
    let BoundRow { s, t, k } = row(argument)?;
    bounds.add_bound(s, t, k)?;
    Ok(())
}

/// `bounds s1+3 <= s2, s2-1 <= s3`: no other bounds than these, which are added in this order.
pub fn bounds(alloc: Global, argument: &str) -> Result<Bounds, Failure> {
    let rows = rows_of(alloc, argument)?;
    let mut bounds = Bounds::with_capacity(alloc, rows.len())?;
    bounds.add_all(&rows)?;
    Ok(bounds)
}

/// `rows s1+3 <= s2`: all that is stored.
pub fn rows(alloc: Global, bounds: &Bounds, told: &str) -> Result<(), Failure> {
    check(rows_text(alloc, bounds.rows())?, told)
}

/// `rows-from s1 = s1+3 <= s2`: what is stored from a symbol.
pub fn rows_from(alloc: Global, bounds: &Bounds, argument: &str) -> Result<(), Failure> {
    let (s, told) = asked(argument)?;
    check(rows_text(alloc, bounds.rows_from(symbol(s)?))?, told)
}

/// `rows-to s2 = s1+3 <= s2`: what is stored to a symbol.
pub fn rows_to(alloc: Global, bounds: &Bounds, argument: &str) -> Result<(), Failure> {
    let (t, told) = asked(argument)?;
    check(rows_text(alloc, bounds.rows_to(symbol(t)?))?, told)
}

/// `made s1+3 <= s2 = yes`: whether rows in this order are bounds. Where they are, they come again, also of a copy.
pub fn made(alloc: Global, argument: &str) -> Result<(), Failure> {
    let (question, told) = asked(argument)?;
    let Some(bounds) = Bounds::of_rows(alloc, rows_of(alloc, question)?)? else {
        return check_yes(alloc, false, told);
    };
    check_yes(alloc, true, told)?;
    rows(alloc, &bounds, question)?;
    rows(alloc, &bounds.copy(alloc)?, question)
}

/// `same-bounds s1+3 <= s2 = yes`: whether the bounds are those of rows, and those of the rows these.
pub fn same(alloc: Global, bounds: &Bounds, argument: &str) -> Result<(), Failure> {
    let (question, told) = asked(argument)?;
    let others = self::bounds(alloc, question)?;
    check_yes(alloc, bounds.same(&others), told)?;
    check_yes(alloc, others.same(bounds), told)
}

/// `stored s1 s2 = 3`: the constant of the bound of two symbols.
pub fn stored(alloc: Global, bounds: &Bounds, argument: &str) -> Result<(), Failure> {
    let (question, told) = asked(argument)?;
    let (s, t) = two_words(question)?;
    check(
        number_text(alloc, bounds.stored(symbol(s)?, symbol(t)?))?,
        told,
    )
}

/// `stored-near s1 s2 s3 = 3 none`: the constants of the bounds from a symbol to others, each looked for next to the last.
pub fn stored_near(alloc: Global, bounds: &Bounds, argument: &str) -> Result<(), Failure> {
    let (question, told) = asked(argument)?;
    let (s, others) = question.split_once(' ').ok_or(Failure::Unread("symbols"))?;
    let s = symbol(s)?;
    let (mut guess, mut text) = (0, String::new(alloc));
    for (index, word) in others.split(' ').enumerate() {
        separate(&mut text, index, " ")?;
        append_found(&mut text, bounds.stored_near(s, symbol(word)?, &mut guess))?;
    }
    check(text, told)
}

/// The ends of a text, each behind a `,`: `0..0, 1..9`. That of symbol s is at place s.
fn ends_of(alloc: Global, text: &str) -> Result<Vec<Ends>, Failure> {
    let mut ends = Vec::new(alloc);
    for word in text.split(',') {
        let range = range(word.trim()).ok_or(Failure::Unread("ends"))?;
        ends.push(Ends {
            lo: range.lo(),
            hi: range.hi(),
        })?;
    }
    Ok(ends)
}

/// `noted 0..0, 1..9, 2..9 = settled`: what is noted of the bounds over these ends: `no`, `tight`, or `settled` too.
/// Behind ` then ` come other ends, for which it is noted next.
pub fn noted(alloc: Global, bounds: &Bounds, argument: &str) -> Result<(), Failure> {
    let (question, told) = asked(argument)?;
    let mut noted = bounds.copy(alloc)?;
    for text in question.split(" then ") {
        noted = noted.noted(alloc, ends_of(alloc, text)?)?;
    }
    let word = match (noted.tight_over(), noted.settled_over()) {
        (_, Some(_)) => "settled",
        (Some(_), None) => "tight",
        (None, None) => "no",
    };
    check(String::from_str(alloc, word)?, told)
}

/// `gap s1 s2 = 3`: how far the second symbol is known to lie above the first.
pub fn gap<O: Order>(alloc: Global, order: &O, argument: &str) -> Result<(), Failure> {
    let (question, told) = asked(argument)?;
    let (s, t) = two_words(question)?;
    check(number_text(alloc, order.gap(symbol(s)?, symbol(t)?))?, told)
}

/// `gap-with s1 s2 7 = 7`: the same, where their ranges tell an exact number too.
pub fn gap_with(alloc: Global, bounds: &Bounds, argument: &str) -> Result<(), Failure> {
    let (question, told) = asked(argument)?;
    let (s, t, between) = three_words(question)?;
    let found = bounds.gap_with(symbol(s)?, symbol(t)?, exact(between)?);
    check(number_text(alloc, found)?, told)
}

/// The exact number of a word.
fn exact(word: &str) -> Result<i128, Failure> {
    word.parse::<i128>()
        .ok()
        .ok_or(Failure::Unread("an exact number"))
}

/// `raised none 7 = 7`: a gap by bounds alone, where the ranges of two distinct symbols tell an exact number too.
pub fn raised(alloc: Global, argument: &str) -> Result<(), Failure> {
    let (question, told) = asked(argument)?;
    let (known, between) = two_words(question)?;
    let known = match known {
        "none" => None,
        _ => Some(
            known
                .parse::<i64>()
                .ok()
                .ok_or(Failure::Unread("a gap, or none"))?,
        ),
    };
    check(
        number_text(alloc, raised_gap(known, exact(between)?))?,
        told,
    )
}

/// `gaps s1 4 = none 0 3 none`: the gaps from a symbol to so many, from symbol 0 on. Others stood there before.
pub fn gaps(alloc: Global, bounds: &Bounds, argument: &str) -> Result<(), Failure> {
    let (question, told) = asked(argument)?;
    let (s, count) = two_words(question)?;
    let Ok(count) = count.parse::<u16>() else {
        return Err(Failure::Unread("how many symbols"));
    };
    let s = symbol(s)?;
    let mut gaps = vec![in alloc; Some(i64::MAX); usize::from(count)]?;
    bounds.gaps_from(s, &mut gaps);
    check(gaps_text(alloc, &gaps)?, told)
}

/// The text of gaps.
fn gaps_text(alloc: Global, gaps: &[Option<i64>]) -> Result<String, AllocError> {
    let mut text = String::new(alloc);
    for (index, gap) in gaps.iter().enumerate() {
        separate(&mut text, index, " ")?;
        append_found(&mut text, *gap)?;
    }
    Ok(text)
}
