//! The text of segments.

use crate::failure::Failure;
use crate::numbers::append_number;
use crate::ranges::{append_range, range};
use crate::words::{exprs, separate};
use array_segments::Segs;
use domain_api::Expr;
use interval_domain::Range;
use std::alloc::{AllocError, Global};

/// The content of a segment and its mark: `0..9`, or `0..9 ?` where it may be empty.
pub fn segment(text: &str) -> Result<(Range, bool), Failure> {
    let (content, may_be_empty) = match text.strip_suffix('?') {
        Some(content) => (content.trim(), true),
        None => (text, false),
    };
    match range(content) {
        Some(range) => Ok((range, may_be_empty)),
        None => Err(Failure::Unread("the range of a segment")),
    }
}

/// Adds a bound, and the segment behind it, if there is one: `0 s1} 0..9 ?`.
fn add_piece(alloc: Global, segs: &mut Segs<Range>, text: &str) -> Result<(), Failure> {
    let Some((bound, behind)) = text.split_once('}') else {
        return Err(Failure::Unread("a bound, between { and }"));
    };
    segs.bounds.push(exprs(alloc, bound)?)?;
    let behind = behind.trim();
    if behind.is_empty() {
        return Ok(());
    }
    let (content, may_be_empty) = segment(behind)?;
    segs.contents.push(content)?;
    segs.marks.push(may_be_empty)?;
    Ok(())
}

/// The segments of a text: `{0} 0..9 ? {s1 s2+1} 5..5 {s3}`.
pub fn segments(alloc: Global, text: &str) -> Result<Segs<Range>, Failure> {
    let mut segs = Segs {
        bounds: Vec::new(alloc),
        contents: Vec::new(alloc),
        marks: Vec::new(alloc),
    };
    for piece in text.split('{') {
        if !piece.trim().is_empty() {
            add_piece(alloc, &mut segs, piece)?;
        }
    }
    Ok(segs)
}

/// Appends the text of a bound.
fn append_bound(text: &mut String, bound: &[Expr]) -> Result<(), AllocError> {
    text.push('{')?;
    for (index, expr) in bound.iter().enumerate() {
        separate(text, index, " ")?;
        append_number(text, *expr)?;
    }
    text.push('}')
}

/// Appends the text of the segment at a place, if there is one.
fn append_segment(text: &mut String, segs: &Segs<Range>, place: usize) -> Result<(), AllocError> {
    let Some(content) = segs.contents.get(place) else {
        return Ok(());
    };
    text.push(' ')?;
    append_range(text, *content)?;
    if segs.marks.get(place).copied().unwrap_or(false) {
        text.push_str(" ?")?;
    }
    text.push(' ')
}

/// Appends the text of segments.
pub fn append_segments(text: &mut String, segs: &Segs<Range>) -> Result<(), AllocError> {
    for (place, bound) in segs.bounds.iter().enumerate() {
        append_bound(text, bound)?;
        append_segment(text, segs, place)?;
    }
    Ok(())
}
