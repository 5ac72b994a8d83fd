//! The text of numbers: constants, and symbols with a constant added.

use crate::ranges::range;
use domain_api::Expr;
use interval_domain::Range;
use std::alloc::AllocError;

/// The number of a text: `7`, `s2`, `s2+7` or `s2-7`.
pub fn number(text: &str) -> Option<Expr> {
    let Some(text) = text.strip_prefix('s') else {
        let k = text.parse::<i64>().ok()?;
        return Some(Expr { sym: 0, k });
    };
    let added = text.trim_start_matches(|it: char| it.is_ascii_digit());
    let sym = text.strip_suffix(added)?.parse::<u32>().ok()?;
    let k = if added.is_empty() {
        0
    } else {
        added.parse::<i64>().ok()?
    };
    Some(Expr { sym, k })
}

/// The range of a new symbol, and the constant added to it: `0..9` or `(0..9)+3`.
fn new_symbol(text: &str) -> Option<(Range, i64)> {
    let Some(text) = text.strip_prefix('(') else {
        return Some((range(text)?, 0));
    };
    let (ends, added) = text.split_once(')')?;
    Some((range(ends)?, added.parse::<i64>().ok()?))
}

/// The number of a text, where a range stands for a new symbol of this range. Its range is put behind those of the
/// other symbols.
pub fn operand(ranges: &mut Vec<Range>, text: &str) -> Result<Option<Expr>, AllocError> {
    let Some((range, k)) = new_symbol(text) else {
        return Ok(number(text));
    };
    ranges.push(range)?;
    Ok(match u32::try_from(ranges.len()) {
        Ok(sym) => Some(Expr { sym, k }),
        Err(_) => None,
    })
}

/// Appends the text of a number.
pub fn append_number(text: &mut String, e: Expr) -> Result<(), AllocError> {
    let Expr { sym, k } = e;
    if sym == 0 {
        return write!(text, "{k}");
    }
    write!(text, "s{sym}")?;
    if k == 0 {
        return Ok(());
    }
    if k > 0 {
        text.push('+')?;
    }
    write!(text, "{k}")
}
