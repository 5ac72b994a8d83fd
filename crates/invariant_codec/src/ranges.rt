//! Ranges.

ghost use Rattle.std.specs.Prelude.{◌≡◌, ◌+◌, ◌-◌, ◌≤◌, None, Some, length, if◌then◌else◌};
ghost use Rattle.cc_base.specs.Tests.{first_of, Judges, JudgesOrNoMemory};
ghost use Rattle.interval_domain.specs.Interval.{interval, is_inside};
ghost use Rattle.invariant_codec.specs.Formats.{each};
ghost use Rattle.invariant_codec.specs.Numbers.{hole, inner, range, ranges};
ghost use Rattle.invariant_codec.specs.Parses.{IsRead};

use crate::fault::{InvFault, InvRefusal};
use crate::numbers::{read_flag, read_i32, read_u16};
use interval_domain::Range;
use std::alloc::Global;

/// The range with a hole strictly between its ends. None where it is not there.
#[tactic(auto, using(crate::proofs::RangesRead::hole_made))]
fn with_hole(range: Range, hole: i64) -> Option<Range>
    ensures { result ≡ if is_inside range.lo range.hi hole then Some (interval range.lo range.hi (Some hole)) else None }
{
    if hole <= range.lo() || range.hi() <= hole {
        return None;
    }
    range.without(hole)
}

/// The range with the hole at this offset. It takes four bytes.
#[tactic(auto, using(cc_base::proofs::TestLemmas::appended, cc_base::proofs::TestLemmas::first_tests))]
fn read_inner(bytes: &[u8], at: u32, range: Range) -> Result<Range, InvFault>
    ensures { Judges result (first_of ((inner range.lo range.hi).read bytes.now at).tests)
        (λ holed. (holed ≡ interval range.lo range.hi (Some ((inner range.lo range.hi).read bytes.now at).value))
        × (at + 4 ≡ ((inner range.lo range.hi).read bytes.now at).next) × (at + 4 ≤ length bytes.now)) }
{
    let hole = i64::from(read_i32(bytes, at)?);
    match with_hole(range, hole) {
        Some(holed) => Ok(holed),
        None => Err(InvFault::Form(at)),
    }
}

/// The range with the hole at this offset, if it has one, and the offset after it.
#[tactic(auto, using(cc_base::proofs::TestLemmas::appended), unfolding(crate::specs::Numbers::hole))]
fn read_hole(bytes: &[u8], at: u32, range: Range) -> Result<(Range, u32), InvFault>
    requires short { length bytes.now ≤ 2147483647 }
    requires whole { range.hole ≡ None }
    ensures { Judges result (first_of ((hole range.lo range.hi).read bytes.now at).tests)
        (λ read. (read.0 ≡ interval range.lo range.hi ((hole range.lo range.hi).read bytes.now at).value)
        × (read.1 ≡ ((hole range.lo range.hi).read bytes.now at).next) × (read.1 ≤ length bytes.now)) }
{
    if !read_flag(bytes, at)? {
        return Ok((range, at + 1));
    }
    let holed = read_inner(bytes, at + 1, range)?;
    Ok((holed, at + 5))
}

/// The range at this offset, and the offset after it.
#[tactic(auto, using(cc_base::proofs::TestLemmas::appended, cc_base::proofs::TestLemmas::first_tests), unfolding(crate::specs::Numbers::range))]
pub(crate) fn read_range(bytes: &[u8], at: u32) -> Result<(Range, u32), InvFault>
    requires short { length bytes.now ≤ 2147483647 }
    ensures { Judges result (first_of (range.read bytes.now at).tests)
        (λ read. IsRead bytes.now (range.read bytes.now at) read.0 read.1) }
{
    let lo = i64::from(read_i32(bytes, at)?);
    let hi = i64::from(read_i32(bytes, at + 4)?);
    let Some(range) = Range::new(lo, hi) else {
        return Err(InvFault::Form(at + 4));
    };
    let (holed, next) = read_hole(bytes, at + 8, range)?;
    Ok((holed, next))
}

/// So many ranges from this offset on, and the offset after them.
#[tactic(auto, using(crate::proofs::Counted::none_read, crate::proofs::Counted::all_read))]
fn read_each(
    alloc: Global,
    bytes: &[u8],
    start: u32,
    count: u16,
) -> Result<(Vec<Range>, u32), InvRefusal>
    requires short { length bytes.now ≤ 2147483647 }
    requires inside { start ≤ length bytes.now }
    ensures { JudgesOrNoMemory result (first_of ((each range count).read bytes.now start).tests)
        (λ read. IsRead bytes.now ((each range count).read bytes.now start) read.0.items read.1) }
{
    let mut ranges = Vec::new(alloc);
    let mut at = start;
    for _range in 0..count {
        let (range, next) = read_range(bytes, at)?;
        ranges.push(range)?;
        at = next;
    }
    Ok((ranges, at))
}

/// Ranges, after their count, and the offset after them.
#[tactic(auto, using(cc_base::proofs::TestLemmas::appended, cc_base::proofs::TestLemmas::carried), unfolding(crate::specs::Numbers::ranges))]
pub(crate) fn read_ranges(
    alloc: Global,
    bytes: &[u8],
    at: u32,
) -> Result<(Vec<Range>, u32), InvRefusal>
    requires short { length bytes.now ≤ 2147483647 }
    ensures { JudgesOrNoMemory result (first_of (ranges.read bytes.now at).tests)
        (λ read. IsRead bytes.now (ranges.read bytes.now at) read.0.items read.1) }
{
    let count = read_u16(bytes, at)?;
    read_each(alloc, bytes, at + 2, count)
}
