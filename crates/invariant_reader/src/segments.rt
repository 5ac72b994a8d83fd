//! Segments of the items of a reference.

ghost use Rattle.std.specs.Prelude.{◌≡◌, ◌++◌, ◌∷◌, [], option_map, IfOk, OnOk};
ghost use Rattle.array_segments.specs.Segments.{lists_of};
ghost use Rattle.invariant_reader.specs.CodeLines.{IsCodeBound, IsCodeSegment, IsCodeSegments};
ghost use Rattle.invariant_reader.specs.CodeNumbers.{IsCodeExpr};
ghost use Rattle.invariant_reader.specs.ReadsBack.{AnyEnd, ReadsBack};
ghost use Rattle.invariant_reader.specs.SegmentReaders.{EndsBound, EndsSegments, begun, read_mark, read_next_expr};
ghost use Rattle.invariant_reader.specs.SegmentReaders.{with_segment};
ghost use Rattle.invariant_text.proofs.SegmentReading.{text_of};
ghost use Rattle.invariant_text.specs.ReferenceLines.{bound_text, exprs_text, segments_text};

use crate::expressions::read_expr;
use crate::kinds::begins_with;
use crate::prefixes::behind;
use crate::ranges::read_range;
use array_contents::Segs;
use domain_api::{Expr, NoMemory};
use interval_domain::Range;
use std::alloc::Global;
use std::marker::Model;

/// A segment, and the bound where it ends.
#[derive(Drop)]
struct Segment {
    content: Range,
    may_be_empty: bool,
    end: Vec<Expr>,
}

impl Model for Segment {
    ghost use Rattle.invariant_reader.specs.CodeLines as told;

    ghost Value = { told.Segment };

    ghost view = { λ s. (s.content, (s.may_be_empty, s.end.items)) };
}

/// An expression after a comma, and what is behind it.
fn read_next_expr(text: &[u8]) -> Option<(Expr, &[u8])>
    ensures { option_map (λ read. (read.0, read.1.now)) result ≡ read_next_expr text.now }
{
    let left = behind(text, b", ")?;
    read_expr(left)
}

/// Expressions with commas between, and what is behind them.
fn read_exprs(alloc: Global, text: &[u8]) -> Result<Option<(Vec<Expr>, &[u8])>, NoMemory>
    ensures { IfOk result (λ read. ReadsBack exprs_text IsCodeBound EndsBound text.now
        (option_map (λ it. (it.0.items, it.1.now)) read)) }
{
    let Some((first, mut rest)) = read_expr(text) else {
        return Ok(None);
    };
    let mut exprs = Vec::new(alloc);
    exprs.push(first)?;
    while begins_with(rest, b',') {
        let Some((expr, left)) = read_next_expr(rest) else {
            return Ok(None);
        };
        // Never: an expression is not empty.
        if left.len() >= rest.len() {
            return Ok(None);
        }
        exprs.push(expr)?;
        rest = left;
    }
    Ok(Some((exprs, rest)))
}

/// A bound, and what is behind it: ` {s1, s2 + 1}`.
fn read_bound(alloc: Global, text: &[u8]) -> Result<Option<(Vec<Expr>, &[u8])>, NoMemory>
    ensures { IfOk result (λ read. ReadsBack bound_text IsCodeBound AnyEnd text.now
        (option_map (λ it. (it.0.items, it.1.now)) read)) }
{
    let Some(left) = behind(text, b" {") else {
        return Ok(None);
    };
    let Some(read) = read_exprs(alloc, left)? else {
        return Ok(None);
    };
    let (exprs, left) = read;
    let Some(left) = behind(left, b"}") else {
        return Ok(None);
    };
    Ok(Some((exprs, left)))
}

/// The mark of a segment that may be empty, or that there is none, and what is behind it.
fn read_mark(text: &[u8]) -> (bool, &[u8])
    ensures { (result.0, result.1.now) ≡ read_mark text.now }
{
    match behind(text, b" ?") {
        Some(left) => (true, left),
        None => (false, text),
    }
}

/// A segment with the bound where it ends, and what is behind it: ` 0..9 ? {s1}`.
fn read_segment(alloc: Global, text: &[u8]) -> Result<Option<(Segment, &[u8])>, NoMemory>
    ensures { IfOk result (λ read. ReadsBack text_of IsCodeSegment AnyEnd text.now
        (option_map (λ it. (it.0, it.1.now)) read)) }
{
    let Some(left) = behind(text, b" ") else {
        return Ok(None);
    };
    let Some(read) = read_range(left) else {
        return Ok(None);
    };
    let (content, left) = read;
    let (may_be_empty, left) = read_mark(left);
    let Some(read) = read_bound(alloc, left)? else {
        return Ok(None);
    };
    let (end, left) = read;
    let segment = Segment {
        content,
        may_be_empty,
        end,
    };
    Ok(Some((segment, left)))
}

/// No segments yet, behind the first bound.
fn begun(alloc: Global, first: Vec<Expr>) -> Result<Segs<Range>, NoMemory>
    ensures { IfOk result (λ segs. lists_of segs ≡ begun first.items) }
{
    let mut bounds = Vec::new(alloc);
    bounds.push(first)?;
    Ok(Segs {
        bounds,
        contents: Vec::new(alloc),
        marks: Vec::new(alloc),
    })
}

/// Adds a segment.
fn add(segs: &mut Segs<Range>, segment: Segment) -> Result<(), NoMemory>
    ensures { OnOk result (lists_of segs.new ≡ with_segment (lists_of segs.old) segment) }
{
    segs.contents.push(segment.content)?;
    segs.marks.push(segment.may_be_empty)?;
    segs.bounds.push(segment.end)?;
    Ok(())
}

/// The segments of a reference, and what is behind them: ` {0} 0..9 {s1}`.
///
/// Cost: linear in the text that is read.
pub(crate) fn read_segments(
    alloc: Global,
    text: &[u8],
) -> Result<Option<(Segs<Range>, &[u8])>, NoMemory>
    ensures { IfOk result (λ read. ReadsBack segments_text IsCodeSegments EndsSegments text.now
        (option_map (λ it. (lists_of it.0, it.1.now)) read)) }
{
    let Some(read) = read_bound(alloc, text)? else {
        return Ok(None);
    };
    let (first, mut rest) = read;
    let mut segs = begun(alloc, first)?;
    while begins_with(rest, b' ') {
        let Some(read) = read_segment(alloc, rest)? else {
            return Ok(None);
        };
        let (segment, left) = read;
        // Never: a segment is not empty.
        if left.len() >= rest.len() {
            return Ok(None);
        }
        add(&mut segs, segment)?;
        rest = left;
    }
    Ok(Some((segs, rest)))
}
