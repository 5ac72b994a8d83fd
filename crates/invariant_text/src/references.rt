//! The lines of references: what is known of each, and which are apart.

ghost use Rattle.std.specs.Prelude.{◌≡◌, ◌++◌, All, length, map, OnOk};
ghost use Rattle.std.specs.List.{flat_map};
ghost use Rattle.array_segments.specs.SegmentLists.{HasForm};
ghost use Rattle.array_segments.specs.Segments.{lists_of};
ghost use Rattle.invariant_text.specs.ReferenceLines.{apart_line, bound_text, exprs_text, known_text, mark_text};
ghost use Rattle.invariant_text.specs.ReferenceLines.{next_expr, nullness_text, reference_line, reference_lines};
ghost use Rattle.invariant_text.specs.ReferenceLines.{segment_text, segments_text};
ghost use Rattle.invariant_text.specs.Shape.{AreSegmentsOf};

use crate::expressions::{put_expr, put_range};
use crate::variables::put_reference;
use alias_facts::Nullness;
use array_contents::Contents;
use array_segments::Segs;
use domain_api::{Expr, NoMemory};
use frame_names::Reference;
use interval_domain::Range;
use std::alloc::Global;

/// Appends expressions, each after a comma.
fn put_next_exprs(alloc: Global, out: &mut Vec<u8>, exprs: &[Expr]) -> Result<(), NoMemory>
    ensures { OnOk result (out.new.items ≡ out.old.items ++ flat_map next_expr exprs.now) }
{
    for e in exprs {
        out.extend_from_slice(b", ")?;
        put_expr(alloc, out, *e)?;
    }
    Ok(())
}

/// Appends expressions, with commas between.
fn put_exprs(alloc: Global, out: &mut Vec<u8>, exprs: &[Expr]) -> Result<(), NoMemory>
    ensures { OnOk result (out.new.items ≡ out.old.items ++ exprs_text exprs.now) }
{
    match exprs {
        [] => Ok(()),
        [first, rest @ ..] => {
            put_expr(alloc, out, *first)?;
            put_next_exprs(alloc, out, rest)
        }
    }
}

/// Appends a bound of segments: ` {s1, s2 + 1}`.
#[tactic(auto, unfolding(crate::specs::ReferenceLines::bound_text))]
fn put_bound(alloc: Global, out: &mut Vec<u8>, bound: &[Expr]) -> Result<(), NoMemory>
    ensures { OnOk result (out.new.items ≡ out.old.items ++ bound_text bound.now) }
{
    out.extend_from_slice(b" {")?;
    put_exprs(alloc, out, bound)?;
    out.extend_from_slice(b"}")
}

/// The mark of a segment that may be empty.
fn mark_text(may_be_empty: bool) -> &'static [u8]
    ensures { result.now ≡ mark_text may_be_empty }
{
    if may_be_empty { b" ?" } else { b"" }
}

/// Appends a segment and the bound where it ends: ` 0..9 ? {s1}`.
#[tactic(auto, unfolding(crate::specs::ReferenceLines::segment_text))]
fn put_segment(
    alloc: Global,
    out: &mut Vec<u8>,
    content: &Range,
    may_be_empty: bool,
    end: &[Expr],
) -> Result<(), NoMemory>
    ensures { OnOk result (out.new.items ≡ out.old.items ++ segment_text content.now may_be_empty end.now) }
{
    out.extend_from_slice(b" ")?;
    put_range(alloc, out, content)?;
    out.extend_from_slice(mark_text(may_be_empty))?;
    put_bound(alloc, out, end)
}

/// Appends the segments of a reference: ` {0} 0..9 {s1}`.
fn put_segments(alloc: Global, out: &mut Vec<u8>, segs: &Segs<Range>) -> Result<(), NoMemory>
    requires formed { HasForm (lists_of segs.now) }
    ensures { OnOk result (out.new.items ≡ out.old.items ++ segments_text (lists_of segs.now)) }
{
    put_bound(alloc, out, &segs.bounds[0])?;
    for i in 0..segs.contents.len() {
        put_segment(
            alloc,
            out,
            &segs.contents[i],
            segs.marks[i],
            &segs.bounds[i + 1],
        )?;
    }
    Ok(())
}

/// What is known of a reference being null.
fn nullness_text(nullness: Nullness) -> &'static [u8]
    ensures { result.now ≡ nullness_text nullness }
{
    match nullness {
        Nullness::May => b"may be null",
        Nullness::NotNull => b"not null",
        Nullness::Null => b"is null",
    }
}

/// Appends what is known of the reference of a number: `r1 int32[] not null length s1`.
#[tactic(auto, unfolding(crate::specs::ReferenceLines::known_text))]
fn put_known(alloc: Global, out: &mut Vec<u8>, r: u64, known: &Reference) -> Result<(), NoMemory>
    ensures { OnOk result (out.new.items ≡ out.old.items ++ known_text r known.now) }
{
    put_reference(out, r)?;
    out.extend_from_slice(b" ")?;
    out.extend_from_slice(known.place.text())?;
    out.extend_from_slice(b" ")?;
    out.extend_from_slice(nullness_text(known.nullness))?;
    out.extend_from_slice(b" length ")?;
    put_expr(alloc, out, known.length)
}

/// Appends the line of the reference of a number.
#[tactic(auto, unfolding(crate::specs::ReferenceLines::reference_line))]
fn put_reference_line(
    alloc: Global,
    out: &mut Vec<u8>,
    r: u64,
    known: &Reference,
    segs: &Segs<Range>,
) -> Result<(), NoMemory>
    requires formed { HasForm (lists_of segs.now) }
    ensures { OnOk result (out.new.items ≡ out.old.items ++ reference_line r known.now (lists_of segs.now)) }
{
    out.extend_from_slice(b"    ")?;
    put_known(alloc, out, r, known)?;
    put_segments(alloc, out, segs)?;
    out.extend_from_slice(b"\n")
}

/// Appends a line for each reference, which has these segments.
fn put_each_reference(
    alloc: Global,
    out: &mut Vec<u8>,
    references: &[Reference],
    segments: &[Segs<Range>],
) -> Result<(), NoMemory>
    requires each { length segments.now ≡ length references.now }
    requires formed { All (λ segs. HasForm (lists_of segs)) segments.now }
    ensures { OnOk result (out.new.items
        ≡ out.old.items ++ reference_lines 1 references.now (map lists_of segments.now)) }
{
    for i in 0..references.len() {
        put_reference_line(alloc, out, i as u64 + 1, &references[i], &segments[i])?;
    }
    Ok(())
}

/// Appends a line for each reference, with what is known of its items.
pub(crate) fn put_references(
    alloc: Global,
    out: &mut Vec<u8>,
    references: &[Reference],
    contents: &Contents,
) -> Result<(), NoMemory>
    requires formed { AreSegmentsOf references.now contents.now }
    ensures { OnOk result (out.new.items ≡ out.old.items ++ reference_lines 1 references.now contents.now) }
{
    put_each_reference(alloc, out, references, contents.segments.as_slice())
}

/// Appends the line of two references that are not the same array.
#[tactic(auto, unfolding(crate::specs::ReferenceLines::apart_line))]
fn put_apart_line(out: &mut Vec<u8>, pair: &(u32, u32)) -> Result<(), NoMemory>
    ensures { OnOk result (out.new.items ≡ out.old.items ++ apart_line pair.now) }
{
    out.extend_from_slice(b"    ")?;
    put_reference(out, u64::from(pair.0))?;
    out.extend_from_slice(b" apart ")?;
    put_reference(out, u64::from(pair.1))?;
    out.extend_from_slice(b"\n")
}

/// Appends a line for each two references that are not the same array.
pub(crate) fn put_apart(out: &mut Vec<u8>, pairs: &[(u32, u32)]) -> Result<(), NoMemory>
    ensures { OnOk result (out.new.items ≡ out.old.items ++ flat_map apart_line pairs.now) }
{
    for pair in pairs {
        put_apart_line(out, pair)?;
    }
    Ok(())
}
