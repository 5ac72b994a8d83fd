//! References, with the segments of their items.

ghost use Rattle.std.specs.Prelude.{◌≡◌, ◌+◌, ◌-◌, ◌≤◌, ◌++◌, ◌∷◌, [], length, map, OnOk};
ghost use Rattle.array_segments.specs.Segments.{lists_of};
ghost use Rattle.cc_base.specs.Tests.{first_of, Judges, JudgesOrNoMemory};
ghost use Rattle.invariant_codec.specs.Formats.{each};
ghost use Rattle.invariant_codec.specs.Parses.{IsPassed, IsRead};
ghost use Rattle.invariant_codec.specs.Segments.{array, array_place, arrays, in_lists, nullness_format, with_array};

use crate::expressions::read_near_expr;
use crate::fault::{InvFault, InvRefusal};
use crate::numbers::{read_u16, read_within};
use crate::segments::read_segments;
use alias_facts::Nullness;
use array_contents::{Contents, Segs};
use cil_model::Place;
use domain_api::NoMemory;
use frame_names::Reference;
use interval_domain::Range;
use std::alloc::Global;
use std::marker::Model;

/// What is known of a reference, and of its items.
#[derive(Drop)]
struct KnownArray {
    reference: Reference,
    segments: Segs<Range>,
}

impl Model for KnownArray {
    ghost use Rattle.array_segments.specs.Segments.{lists_of};
    ghost use Rattle.invariant_codec.specs.Segments as told;

    ghost Value = { told.KnownArray };

    ghost view = { λ a. record { reference = a.reference; segments = lists_of a.segments } };
}

/// What is known of references, and of the items of each.
#[derive(Drop)]
pub(crate) struct KnownArrays {
    pub references: Vec<Reference>,
    pub contents: Contents,
}

impl Model for KnownArrays {
    ghost use Rattle.std.specs.Prelude.{List};
    ghost use Rattle.invariant_codec.specs.Segments as told;

    ghost Value = { told.Arrays };

    ghost view = { λ a. record { references = a.references.items; contents = a.contents } };
}

/// The type of arrays that a byte stands for.
#[tactic(auto, unfolding(crate::specs::Segments::array_place))]
fn read_place(bytes: &[u8], at: u32) -> Result<Place, InvFault>
    ensures { Judges result (first_of (array_place.read bytes.now at).tests)
        (λ place. IsRead bytes.now (array_place.read bytes.now at) place (at + 1)) }
{
    if read_within(bytes, at, 3, 4)? == 3 {
        return Ok(Place::Bools);
    }
    Ok(Place::Ints)
}

/// What a byte says of a reference being null.
#[tactic(auto, unfolding(crate::specs::Segments::nullness_format))]
fn read_nullness(bytes: &[u8], at: u32) -> Result<Nullness, InvFault>
    ensures { Judges result (first_of (nullness_format.read bytes.now at).tests)
        (λ it. IsRead bytes.now (nullness_format.read bytes.now at) it (at + 1)) }
{
    match read_within(bytes, at, 0, 2)? {
        0 => Ok(Nullness::May),
        1 => Ok(Nullness::NotNull),
        _ => Ok(Nullness::Null),
    }
}

/// The reference with its segments at this offset, and the offset after it.
#[tactic(auto, using(cc_base::proofs::TestLemmas::appended, cc_base::proofs::TestLemmas::carried), unfolding(crate::specs::Segments::array))]
fn read_array(
    alloc: Global,
    bytes: &[u8],
    at: u32,
    symbols: usize,
) -> Result<(KnownArray, u32), InvRefusal>
    requires short { length bytes.now ≤ 2147483647 }
    ensures { JudgesOrNoMemory result (first_of ((array symbols).read bytes.now at).tests)
        (λ read. IsRead bytes.now ((array symbols).read bytes.now at) read.0 read.1) }
{
    let place = read_place(bytes, at)?;
    let nullness = read_nullness(bytes, at + 1)?;
    let length = read_near_expr(bytes, at + 2, symbols)?;
    let (segments, next) = read_segments(alloc, bytes, at + 12, symbols, length)?;
    let reference = Reference {
        place,
        nullness,
        length,
    };
    Ok((
        KnownArray {
            reference,
            segments,
        },
        next,
    ))
}

/// Adds a reference with its segments.
fn add(arrays: &mut KnownArrays, array: KnownArray) -> Result<(), NoMemory>
    ensures { OnOk result (arrays.new ≡ with_array arrays.old array) }
{
    arrays.references.push(array.reference)?;
    arrays.contents.segments.push(array.segments)?;
    Ok(())
}

/// So many references with their segments from this offset on, and the offset after them.
#[tactic(auto, using(crate::proofs::Counted::none_read))]
fn read_each(
    alloc: Global,
    bytes: &[u8],
    start: u32,
    count: u16,
    symbols: usize,
) -> Result<(KnownArrays, u32), InvRefusal>
    requires short { length bytes.now ≤ 2147483647 }
    requires inside { start ≤ length bytes.now }
    ensures { JudgesOrNoMemory result (first_of ((each (array symbols) count).read bytes.now start).tests)
        (λ read. (read.0 ≡ in_lists ((each (array symbols) count).read bytes.now start).value)
        × (length read.0.references ≡ length ((each (array symbols) count).read bytes.now start).value)
        × (read.1 ≡ ((each (array symbols) count).read bytes.now start).next) × (read.1 ≤ length bytes.now)) }
{
    let mut arrays = KnownArrays {
        references: Vec::new(alloc),
        contents: Contents::new(alloc),
    };
    let mut at = start;
    for _array in 0..count {
        let (array, next) = read_array(alloc, bytes, at, symbols)?;
        add(&mut arrays, array)?;
        at = next;
    }
    Ok((arrays, at))
}

/// References with their segments, after their count, and the offset after them.
#[tactic(auto, using(cc_base::proofs::TestLemmas::appended, cc_base::proofs::TestLemmas::carried), unfolding(crate::specs::Segments::arrays))]
pub(crate) fn read_arrays(
    alloc: Global,
    bytes: &[u8],
    at: u32,
    symbols: usize,
) -> Result<(KnownArrays, u32), InvRefusal>
    requires short { length bytes.now ≤ 2147483647 }
    ensures { JudgesOrNoMemory result (first_of ((arrays symbols).read bytes.now at).tests)
        (λ read. (read.0 ≡ in_lists ((arrays symbols).read bytes.now at).value)
        × (length read.0.references ≡ length ((arrays symbols).read bytes.now at).value)
        × (read.1 ≡ ((arrays symbols).read bytes.now at).next) × (read.1 ≤ length bytes.now)) }
{
    let count = read_u16(bytes, at)?;
    read_each(alloc, bytes, at + 2, count, symbols)
}

/// Tests so many references with their segments from this offset on, and returns the offset after them.
fn check_each(
    alloc: Global,
    bytes: &[u8],
    start: u32,
    count: u16,
    symbols: usize,
) -> Result<u32, InvRefusal>
    requires short { length bytes.now ≤ 2147483647 }
    requires inside { start ≤ length bytes.now }
    ensures { JudgesOrNoMemory result (first_of ((each (array symbols) count).read bytes.now start).tests)
        (λ next. (count ≡ length ((each (array symbols) count).read bytes.now start).value)
        × IsPassed bytes.now ((each (array symbols) count).read bytes.now start) next) }
{
    let mut at = start;
    for _array in 0..count {
        let (_, next) = read_array(alloc, bytes, at, symbols)?;
        at = next;
    }
    Ok(at)
}

/// Tests references with their segments, after their count. Returns how many there are, and the offset after them.
#[tactic(auto, using(cc_base::proofs::TestLemmas::appended, cc_base::proofs::TestLemmas::carried), unfolding(crate::specs::Segments::arrays))]
pub(crate) fn check_arrays(
    alloc: Global,
    bytes: &[u8],
    at: u32,
    symbols: usize,
) -> Result<(usize, u32), InvRefusal>
    requires short { length bytes.now ≤ 2147483647 }
    ensures { JudgesOrNoMemory result (first_of ((arrays symbols).read bytes.now at).tests)
        (λ read. (read.0 ≡ length ((arrays symbols).read bytes.now at).value)
        × IsPassed bytes.now ((arrays symbols).read bytes.now at) read.1) }
{
    let count = read_u16(bytes, at)?;
    let next = check_each(alloc, bytes, at + 2, count, symbols)?;
    Ok((usize::from(count), next))
}
