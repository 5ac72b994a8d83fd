//! Contents of two states as one.
//!
//! What arrays hold is forgotten where a join has more than 2^32 - 1 symbols: a new length would have no number. The
//! code answers want of memory there.

ghost use Rattle.std.specs.Prelude.{◌≡◌, get_or, map, IfOk};
ghost use Rattle.std.specs.List.{AllByRecursion};
ghost use Rattle.array_segments.specs.Behind.{StandsForBoth};
ghost use Rattle.array_segments.specs.SegmentLists.{HasForm, last_bound, zero_expr};
ghost use Rattle.array_segments.specs.Segments.{lists_of};
ghost use Rattle.array_segments.specs.Unifying.{unified};
ghost use Rattle.interval_domain.specs.Joins.{full, hull};
ghost use Rattle.array_contents.specs.Contents.{segments_at};
ghost use Rattle.array_contents.specs.Ends.{EachStands};
ghost use Rattle.array_contents.specs.Merging.{merged, merged_one};
ghost use Rattle.array_contents.specs.Makings.{making};

use crate::contents::Contents;
use crate::reference::null_segments;
use array_segments::Segs;
use domain_api::{Expr, NoMemory};
use interval_domain::Range;
use std::alloc::Global;
use symbolic_values::{Key, Pairs};

/// How two ranges become one.
#[derive(Clone, Copy)]
pub enum Making {
    /// What either has.
    Hull,
    /// What the first has, widened by the second.
    Widening,
}

/// The length at a place, or 0.
fn length_at(lengths: &[Expr], place: usize) -> Expr
    ensures { result ≡ get_or lengths.now place zero_expr }
{
    match lengths.get(place) {
        None => Expr { sym: 0, k: 0 },
        Some(length) => *length,
    }
}

/// The segments of two states as one.
fn made_of(
    alloc: Global,
    way: Making,
    first: &Segs<Range>,
    second: &Segs<Range>,
    pairs: &Pairs,
    length: Expr,
) -> Result<Segs<Range>, NoMemory>
    requires first { HasForm (lists_of first.now) }
    requires second { HasForm (lists_of second.now) }
    requires ends { StandsForBoth pairs.now (last_bound (lists_of first.now)) (last_bound (lists_of second.now))
        length }
    ensures { IfOk result (λ both. lists_of both
        ≡ unified hull (making way) full pairs.now length (lists_of first.now) (lists_of second.now)) }
{
    match way {
        Making::Hull => first.unify(alloc, second, pairs, length),
        Making::Widening => first.widen_under(alloc, second, pairs, length),
    }
}

impl Contents {
    /// Those of a new reference.
    #[tactic(auto, using(crate::proofs::AtSteps::form_of, crate::proofs::MergingSteps::stands_of))]
    fn merged_one(
        &self,
        alloc: Global,
        way: Making,
        other: &Contents,
        key: Key,
        pairs: &Pairs,
        length: Expr,
    ) -> Result<Segs<Range>, NoMemory>
        requires first { AllByRecursion HasForm self.now }
        requires second { AllByRecursion HasForm other.now }
        requires ends { StandsForBoth pairs.now (last_bound (segments_at self.now key.s))
            (last_bound (segments_at other.now key.t)) length }
        ensures { IfOk result (λ both. lists_of both
            ≡ merged_one (making way) pairs.now self.now other.now key length) }
    {
        if let (Some(first), Some(second)) = (self.at(key.s), other.at(key.t)) {
            return made_of(alloc, way, first, second, pairs, length);
        }
        let null = null_segments(alloc)?;
        let first = self.at_or(&null, key.s);
        let second = other.at_or(&null, key.t);
        made_of(alloc, way, first, second, pairs, length)
    }

    /// Those of new references. Each was the references s and t of its key in the first and in the second state, and
    /// has its next one of the new lengths. Symbols are named together by the pairs.
    ///
    /// Cost: as of `Segs::unify`, for each new reference. `NoMemory` where memory runs out.
    #[tactic(auto, using(crate::proofs::MergingSteps::merged_steps))]
    pub fn merged(
        &self,
        alloc: Global,
        way: Making,
        other: &Contents,
        keys: &[Key],
        pairs: &Pairs,
        lengths: &[Expr],
    ) -> Result<Contents, NoMemory>
        requires first { AllByRecursion HasForm self.now }
        requires second { AllByRecursion HasForm other.now }
        requires ends { EachStands pairs.now self.now other.now keys.now lengths.now }
        ensures { IfOk result (λ both. both ≡ merged (making way) pairs.now self.now other.now keys.now lengths.now) }
    {
        let mut segments = Vec::with_capacity(alloc, keys.len())?;
        for place in 0..keys.len() {
            let length = length_at(lengths, place);
            let one = self.merged_one(alloc, way, other, keys[place], pairs, length)?;
            segments.push(one)?;
        }
        Ok(Contents { segments })
    }
}
