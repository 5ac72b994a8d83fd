//! The text of facts on symbols.

use crate::definitions::{append_definition, definition};
use crate::failure::Failure;
use crate::numbers::append_number;
use crate::ranges::{append_range, range};
use crate::words::{expr, symbol};
use domain_api::Expr;
use interval_domain::Range;
use pentagon_domain::BoundRow;
use std::alloc::AllocError;
use symbolic_values::Def;

/// A fact on symbols.
#[derive(Clone, Copy)]
pub enum Fact {
    /// The range of a symbol.
    Range(u32, Range),
    /// How two symbols lie to each other.
    Bound(BoundRow),
    /// What a symbol is.
    Definition(u32, Def),
}

/// The fact of a text: `s2 in 0..9`, `s1+3 <= s2`, or `s3 is lt s1 s2+1`.
pub fn read_fact(text: &str) -> Result<Fact, Failure> {
    if let Some((s, ends)) = text.split_once(" in ") {
        let range = range(ends).ok_or(Failure::Unread("a range"))?;
        return Ok(Fact::Range(symbol(s)?, range));
    }
    if let Some((from, to)) = text.split_once(" <= ") {
        let Expr { sym: s, k } = expr(from)?;
        let t = symbol(to)?;
        return Ok(Fact::Bound(BoundRow { s, t, k }));
    }
    let Some((s, is)) = text.split_once(" is ") else {
        return Err(Failure::Unread("a fact"));
    };
    Ok(Fact::Definition(symbol(s)?, definition(is)?))
}

/// Adds the range of the next symbol.
pub fn add_range(ranges: &mut Vec<Range>, s: u32, range: Range) -> Result<(), Failure> {
    if s == 0 || s as usize - 1 != ranges.len() {
        return Err(Failure::Unread("the range of the next symbol"));
    }
    ranges.push(range)?;
    Ok(())
}

/// Appends what stands between a fact and what is before it.
pub fn separate_fact(text: &mut String) -> Result<(), AllocError> {
    if !text.is_empty() {
        text.push_str("; ")?;
    }
    Ok(())
}

/// Appends the range of each symbol.
pub fn append_ranges(text: &mut String, ranges: &[Range]) -> Result<(), AllocError> {
    for (index, range) in ranges.iter().enumerate() {
        separate_fact(text)?;
        write!(text, "s{} in ", index.saturating_add(1))?;
        append_range(text, *range)?;
    }
    Ok(())
}

/// Appends each bound.
pub fn append_bounds(text: &mut String, rows: &[BoundRow]) -> Result<(), AllocError> {
    for BoundRow { s, t, k } in rows {
        separate_fact(text)?;
        append_number(text, Expr { sym: *s, k: *k })?;
        write!(text, " <= s{t}")?;
    }
    Ok(())
}

/// Appends each definition.
pub fn append_definitions(text: &mut String, definitions: &[(u32, Def)]) -> Result<(), AllocError> {
    for (s, def) in definitions {
        separate_fact(text)?;
        write!(text, "s{s} is ")?;
        append_definition(text, *def)?;
    }
    Ok(())
}
