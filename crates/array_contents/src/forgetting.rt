//! Arrays that may have been changed.

ghost use Rattle.std.specs.Prelude.{◌≡◌, map, IfOk, OnOk, OnErr};
ghost use Rattle.std.specs.Option.{option_map};
ghost use Rattle.array_segments.specs.Segments.{lists_of};
ghost use Rattle.array_contents.specs.Replacing.{replaced_each, replaced_one, unknown_lists};
ghost use Rattle.array_contents.specs.Storing.{forgotten};

use crate::contents::Contents;
use array_segments::Segs;
use domain_api::{Expr, NoMemory};
use interval_domain::Range;
use std::alloc::Global;

/// An array of which only the length is known, and a range that has its items.
#[derive(Clone, Copy)]
pub struct Unknown {
    /// The length.
    pub length: Expr,
    /// The range.
    pub items: Range,
}

/// The segments of an array of which no more is known.
fn unknown_one(alloc: Global, array: Option<Unknown>) -> Result<Option<Segs<Range>>, NoMemory>
    ensures { IfOk result (λ one. option_map lists_of one ≡ unknown_lists array) }
{
    match array {
        None => Ok(None),
        Some(known) => {
            let one = Segs::whole(alloc, known.length, known.items, true)?;
            Ok(Some(one))
        }
    }
}

/// Those of each of these.
#[tactic(auto, using(crate::proofs::EachSteps::mapped_more))]
fn unknown_segments(
    alloc: Global,
    arrays: &[Option<Unknown>],
) -> Result<Vec<Option<Segs<Range>>>, NoMemory>
    ensures { IfOk result (λ fresh. map (option_map lists_of) fresh.items ≡ map unknown_lists arrays.now) }
{
    let mut fresh = Vec::with_capacity(alloc, arrays.len())?;
    for array in arrays {
        fresh.push(unknown_one(alloc, *array)?)?;
    }
    Ok(fresh)
}

/// Puts the fresh segments in the place of others, if there are some.
fn replace_one(one: &mut Segs<Range>, fresh: Option<Segs<Range>>)
    ensures { lists_of one.new ≡ replaced_one (option_map lists_of fresh) (lists_of one.old) }
{
    if let Some(segs) = fresh {
        *one = segs;
    }
}

/// Puts the fresh segments in the place of those of each reference, where there are some.
fn replace_each(segments: &mut [Segs<Range>], mut fresh: Vec<Option<Segs<Range>>>)
    ensures { map lists_of segments.new
        ≡ replaced_each (map (option_map lists_of) fresh.items) (map lists_of segments.old) }
{
    let count = segments.len().min(fresh.len());
    for place in 0..count {
        replace_one(&mut segments[place], fresh[place].take());
    }
}

/// Puts the segments of arrays of which no more is known in the place of those of references.
fn forget_each(
    alloc: Global,
    segments: &mut [Segs<Range>],
    arrays: &[Option<Unknown>],
) -> Result<(), NoMemory>
    ensures ok { OnOk result (map lists_of segments.new ≡ forgotten arrays.now (map lists_of segments.old)) }
    ensures err { OnErr result (map lists_of segments.new ≡ map lists_of segments.old) }
{
    let fresh = unknown_segments(alloc, arrays)?;
    replace_each(segments, fresh);
    Ok(())
}

impl Contents {
    /// Forgets what is known of these references, from reference 1 on: each that is one of which no more is known.
    ///
    /// # Errors
    ///
    /// Want of memory leaves what was known.
    pub fn forget(&mut self, alloc: Global, arrays: &[Option<Unknown>]) -> Result<(), NoMemory>
        ensures ok { OnOk result (self.new ≡ forgotten arrays.now self.old) }
        ensures err { OnErr result (self.new ≡ self.old) }
    {
        forget_each(alloc, &mut self.segments, arrays)
    }
}
