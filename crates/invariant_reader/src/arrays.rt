//! The lines of references, with the segments of their items.

ghost use Rattle.std.specs.Prelude.{◌≡◌, ℕ, [], option_map, IfOk, OnOk};
ghost use Rattle.array_segments.specs.Segments.{lists_of};
ghost use Rattle.invariant_reader.specs.ArrayReaders.{read_nullness, read_place, read_reference_part, with_array};
ghost use Rattle.invariant_reader.specs.CodeLines.{IsKnownLine};
ghost use Rattle.invariant_reader.specs.ReadsBack.{AnyEnd, ReadsBack};
ghost use Rattle.invariant_text.proofs.Sections.{known_line};

use crate::digits::skip_digits;
use crate::expressions::read_expr;
use crate::prefixes::behind;
use crate::segments::read_segments;
use alias_facts::Nullness;
use array_contents::{Contents, Segs};
use cil_model::Place;
use domain_api::NoMemory;
use frame_names::Reference;
use interval_domain::Range;
use std::alloc::Global;
use std::marker::Model;

/// What is known of a reference, and of its items.
#[derive(Drop)]
pub(crate) struct KnownArray {
    reference: Reference,
    segments: Segs<Range>,
}

impl Model for KnownArray {
    ghost use Rattle.array_segments.specs.Segments.{lists_of};
    ghost use Rattle.invariant_reader.specs.CodeLines as told;

    ghost Value = { told.Known };

    ghost view = { λ a. (a.reference, lists_of a.segments) };
}

/// What is known of references, and of the items of each.
#[derive(Drop)]
pub(crate) struct KnownArrays {
    pub references: Vec<Reference>,
    pub contents: Contents,
}

impl Model for KnownArrays {
    ghost use Rattle.invariant_reader.specs.ArrayReaders as told;

    ghost Value = { told.Arrays };

    ghost view = { λ a. record { references = a.references.items; contents = a.contents } };
}

impl KnownArrays {
    /// No references yet.
    pub(crate) fn new(alloc: Global) -> KnownArrays
        ensures { result ≡ record { references = []; contents = [] } }
    {
        KnownArrays {
            references: Vec::new(alloc),
            contents: Contents::new(alloc),
        }
    }

    /// Adds a reference with its segments.
    pub(crate) fn add(&mut self, array: KnownArray) -> Result<(), NoMemory>
        ensures { OnOk result (self.new ≡ with_array self.old array) }
    {
        self.references.push(array.reference)?;
        self.contents.segments.push(array.segments)?;
        Ok(())
    }
}

/// A type of arrays, and what is behind it.
#[tactic(auto, unfolding(crate::specs::ArrayReaders::read_place))]
fn read_place(text: &[u8]) -> Option<(Place, &[u8])>
    ensures { option_map (λ read. (read.0, read.1.now)) result ≡ read_place text.now }
{
    if let Some(left) = behind(text, b"bool[]") {
        return Some((Place::Bools, left));
    }
    let left = behind(text, b"int32[]")?;
    Some((Place::Ints, left))
}

/// What is known of a reference being null, and what is behind it.
#[tactic(auto, unfolding(crate::specs::ArrayReaders::read_nullness))]
fn read_nullness(text: &[u8]) -> Option<(Nullness, &[u8])>
    ensures { option_map (λ read. (read.0, read.1.now)) result ≡ read_nullness text.now }
{
    if let Some(left) = behind(text, b"may be null") {
        return Some((Nullness::May, left));
    }
    if let Some(left) = behind(text, b"not null") {
        return Some((Nullness::NotNull, left));
    }
    let left = behind(text, b"is null")?;
    Some((Nullness::Null, left))
}

/// What is known of a reference but its segments, and what is behind it: `    r1 int32[] not null length s1`.
#[tactic(auto, unfolding(crate::specs::ArrayReaders::read_reference_part))]
fn read_reference_part(text: &[u8]) -> Option<(Reference, &[u8])>
    ensures { option_map (λ read. (read.0, read.1.now)) result ≡ read_reference_part text.now }
{
    let left = skip_digits(behind(text, b"    r")?);
    let left = behind(left, b" ")?;
    let (place, left) = read_place(left)?;
    let left = behind(left, b" ")?;
    let (nullness, left) = read_nullness(left)?;
    let left = behind(left, b" length ")?;
    let (length, left) = read_expr(left)?;
    let reference = Reference {
        place,
        nullness,
        length,
    };
    Some((reference, left))
}

/// The line of a reference, and what is behind it.
///
/// Cost: linear in the line.
pub(crate) fn read_array_line(
    alloc: Global,
    text: &[u8],
) -> Result<Option<(KnownArray, &[u8])>, NoMemory>
    ensures { IfOk result (λ read. (n : ℕ) → ReadsBack (known_line n) (IsKnownLine n) AnyEnd text.now
        (option_map (λ it. (it.0, it.1.now)) read)) }
{
    let Some(read) = read_reference_part(text) else {
        return Ok(None);
    };
    let (reference, left) = read;
    let Some(read) = read_segments(alloc, left)? else {
        return Ok(None);
    };
    let (segments, left) = read;
    let Some(left) = behind(left, b"\n") else {
        return Ok(None);
    };
    let array = KnownArray {
        reference,
        segments,
    };
    Ok(Some((array, left)))
}
