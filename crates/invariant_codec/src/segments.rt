//! Segments of the items of a reference.

ghost use Rattle.std.specs.Prelude.{◌≡◌, ◌+◌, ◌-◌, ◌≤◌, ◌∷◌, [], length, map, IfOk, OnOk};
ghost use Rattle.array_segments.specs.Segments.{lists_of};
ghost use Rattle.cc_base.specs.Tests.{first_of, JudgesOrNoMemory};
ghost use Rattle.invariant_codec.specs.Parses.{IsRead};
ghost use Rattle.invariant_codec.specs.Segments.{each_segment, first_of_bounds, segment, segments, segments_of};
ghost use Rattle.invariant_codec.specs.Segments.{with_segment};

use crate::bounds::{read_first_bound, read_next_bound};
use crate::fault::InvRefusal;
use crate::numbers::{read_flag, read_within};
use crate::ranges::read_range;
use array_contents::Segs;
use domain_api::{Expr, NoMemory};
use interval_domain::Range;
use std::alloc::Global;
use std::marker::Model;

/// A segment, and the bound where it ends.
#[derive(Drop)]
struct Segment {
    content: Range,
    may_be_empty: bool,
    end: Vec<Expr>,
}

impl Model for Segment {
    ghost use Rattle.invariant_codec.specs.Segments as told;

    ghost Value = { told.Segment };

    ghost view = { λ s. record { content = s.content; may_be_empty = s.may_be_empty; end = s.end.items } };
}

/// The segment at this offset, of an array of this length, and the offset after it.
#[tactic(auto, using(cc_base::proofs::TestLemmas::appended, cc_base::proofs::TestLemmas::carried), unfolding(crate::specs::Segments::segment))]
fn read_segment(
    alloc: Global,
    bytes: &[u8],
    at: u32,
    symbols: usize,
    length_is: Expr,
    is_last: bool,
) -> Result<(Segment, u32), InvRefusal>
    requires short { length bytes.now ≤ 2147483647 }
    ensures { JudgesOrNoMemory result (first_of ((segment symbols length_is is_last).read bytes.now at).tests)
        (λ read. IsRead bytes.now ((segment symbols length_is is_last).read bytes.now at) read.0 read.1) }
{
    let (content, at) = read_range(bytes, at)?;
    let may_be_empty = read_flag(bytes, at)?;
    let (end, next) = read_next_bound(alloc, bytes, at + 1, symbols, length_is, is_last)?;
    let segment = Segment {
        content,
        may_be_empty,
        end,
    };
    Ok((segment, next))
}

/// No segments yet, behind the first bound.
fn begun(alloc: Global, first: Vec<Expr>) -> Result<Segs<Range>, NoMemory>
    ensures { IfOk result (λ segs. lists_of segs ≡ segments_of first.items []) }
{
    let mut bounds = Vec::new(alloc);
    bounds.push(first)?;
    Ok(Segs {
        bounds,
        contents: Vec::new(alloc),
        marks: Vec::new(alloc),
    })
}

/// Adds a segment.
fn add(segs: &mut Segs<Range>, segment: Segment) -> Result<(), NoMemory>
    ensures { OnOk result (lists_of segs.new ≡ with_segment (lists_of segs.old) segment) }
{
    segs.contents.push(segment.content)?;
    segs.marks.push(segment.may_be_empty)?;
    segs.bounds.push(segment.end)?;
    Ok(())
}

/// Reads so many segments from this offset on, and adds them behind the first bound. Returns the offset after them.
#[tactic(auto, using(crate::proofs::SegmentsRead::all_segments))]
fn read_each(
    alloc: Global,
    bytes: &[u8],
    start: u32,
    count: u8,
    symbols: usize,
    length_is: Expr,
    segs: &mut Segs<Range>,
) -> Result<u32, InvRefusal>
    requires short { length bytes.now ≤ 2147483647 }
    requires inside { start ≤ length bytes.now }
    requires begun { lists_of segs.old ≡ segments_of (first_of_bounds (lists_of segs.old)) [] }
    ensures { JudgesOrNoMemory result (first_of ((each_segment symbols length_is count).read bytes.now start).tests)
        (λ next. (lists_of segs.new ≡ segments_of (first_of_bounds (lists_of segs.old)) ((each_segment symbols length_is count).read bytes.now start).value)
        × (next ≡ ((each_segment symbols length_is count).read bytes.now start).next) × (next ≤ length bytes.now)) }
{
    let mut at = start;
    for i in 0..count {
        let (segment, next) = read_segment(alloc, bytes, at, symbols, length_is, i + 1 == count)?;
        add(segs, segment)?;
        at = next;
    }
    Ok(at)
}

/// The segments of an array of this length, 1 to 12, after their count, and the offset after them.
#[tactic(auto, using(cc_base::proofs::TestLemmas::appended, cc_base::proofs::TestLemmas::carried), unfolding(crate::specs::Segments::segments))]
pub(crate) fn read_segments(
    alloc: Global,
    bytes: &[u8],
    at: u32,
    symbols: usize,
    length_is: Expr,
) -> Result<(Segs<Range>, u32), InvRefusal>
    requires short { length bytes.now ≤ 2147483647 }
    ensures { JudgesOrNoMemory result (first_of ((segments symbols length_is).read bytes.now at).tests)
        (λ read. (lists_of read.0 ≡ ((segments symbols length_is).read bytes.now at).value)
        × (read.1 ≡ ((segments symbols length_is).read bytes.now at).next) × (read.1 ≤ length bytes.now)) }
{
    let count = read_within(bytes, at, 1, 12)?;
    let (first, at) = read_first_bound(alloc, bytes, at + 1, symbols)?;
    let mut segs = begun(alloc, first)?;
    let next = read_each(alloc, bytes, at, count, symbols, length_is, &mut segs)?;
    Ok((segs, next))
}
