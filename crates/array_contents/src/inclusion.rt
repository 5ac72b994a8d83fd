//! Whether contents say at least as much as others.

ghost use Rattle.std.specs.Prelude.{◌≡◌, get_or, map, IfOk};
ghost use Rattle.std.specs.List.{AllByRecursion};
ghost use Rattle.array_segments.specs.Inclusion.{includes};
ghost use Rattle.array_segments.specs.SegmentLists.{HasForm};
ghost use Rattle.array_segments.specs.Segments.{lists_of};
ghost use Rattle.interval_domain.specs.Joins.{within};
ghost use Rattle.array_contents.specs.Contents.{segments_at};
ghost use Rattle.array_contents.specs.Merging.{included};

use crate::contents::Contents;
use crate::reference::null_segments;
use array_segments::Segs;
use domain_api::{Expr, NoMemory, Order};
use interval_domain::Range;
use std::alloc::Global;

/// The reference at a place, or null.
fn bound_at(bound: &[u32], place: usize) -> u32
    ensures { result ≡ get_or bound.now place 0 }
{
    match bound.get(place) {
        None => 0,
        Some(r) => *r,
    }
}

impl Contents {
    /// Returns whether those of another reference are shown by those of the reference r.
    fn includes_one<O: Order>(
        &self,
        alloc: Global,
        order: &O,
        names: &[Option<Expr>],
        r: u32,
        one: &Segs<Range>,
    ) -> Result<bool, NoMemory>
        requires form { AllByRecursion HasForm self.now }
        requires other { HasForm (lists_of one.now) }
        ensures { IfOk result (λ is. is ≡
            includes within (O.gap order.now) names.now (segments_at self.now r) (lists_of one.now)) }
    {
        match self.at(r) {
            Some(known) => Ok(known.leq_under(one, order, names)),
            None => Ok(null_segments(alloc)?.leq_under(one, order, names)),
        }
    }

    /// Returns whether each of these is shown by those of the reference to which it is bound.
    #[tactic(auto, using(crate::proofs::MergingSteps::included_more))]
    fn includes_each<O: Order>(
        &self,
        alloc: Global,
        order: &O,
        names: &[Option<Expr>],
        bound: &[u32],
        others: &[Segs<Range>],
    ) -> Result<bool, NoMemory>
        requires form { AllByRecursion HasForm self.now }
        requires other { AllByRecursion HasForm (map lists_of others.now) }
        ensures { IfOk result (λ is. is ≡
            included (O.gap order.now) names.now self.now bound.now (map lists_of others.now)) }
    {
        for place in 0..others.len() {
            let r = bound_at(bound, place);
            if !self.includes_one(alloc, order, names, r, &others[place])? {
                return Ok(false);
            }
        }
        Ok(true)
    }

    /// Returns whether those of each of the other references, from reference 1 on, are shown by those of the reference
    /// to which it is bound. The names are those of the others' symbols.
    ///
    /// Cost: as of `Segs::leq_under`, for each of the others.
    pub fn includes<O: Order>(
        &self,
        alloc: Global,
        order: &O,
        names: &[Option<Expr>],
        bound: &[u32],
        other: &Contents,
    ) -> Result<bool, NoMemory>
        requires form { AllByRecursion HasForm self.now }
        requires other { AllByRecursion HasForm other.now }
        ensures { IfOk result (λ is. is ≡ included (O.gap order.now) names.now self.now bound.now other.now) }
    {
        self.includes_each(alloc, order, names, bound, &other.segments)
    }
}
