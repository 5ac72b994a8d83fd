//! Segments that are read, and made, one by one.

ghost use Rattle.std.specs.Prelude.{◌≡◌, ◌+◌, ◌^◌, ◌<◌, ◌∷◌, [], drop, get_or, length, IfOk, OnOk};
ghost use Rattle.array_segments.specs.Growing.{begun, with_more};
ghost use Rattle.array_segments.specs.Meaning.{segments_of};
ghost use Rattle.array_segments.specs.SegmentLists.{HasForm};
ghost use Rattle.array_segments.specs.Segments.{lists_of};

use crate::segments::Segs;
use domain_api::{Expr, NoMemory, Values};
use std::alloc::Global;

/// A segment, with the bound where it ends.
#[derive(Clone, Copy)]
pub(crate) struct SegmentView<'a, C> {
    pub content: C,
    pub mark: bool,
    pub upper: &'a [Expr],
}

impl<C: Values> Segs<C> {
    /// The segment at a place.
    #[tactic(auto, using(crate::proofs::NameSteps::segment_at))]
    pub(crate) fn segment(&self, place: usize) -> SegmentView<'_, C>
        requires form { HasForm (lists_of self.now) }
        requires place { place < length self.now.contents.items }
        ensures value { drop place (segments_of (lists_of self.now))
            ≡ record { content = result.content; may_be_empty = result.mark; upper = result.upper.now }
            ∷ drop (place + 1) (segments_of (lists_of self.now)) }
        ensures upper { result.upper.now ≡ get_or (lists_of self.now).bounds (place + 1) [] }
    {
        SegmentView {
            content: self.contents[place],
            mark: self.marks[place],
            upper: &self.bounds[place + 1],
        }
    }

    /// A first bound, and room for so many segments behind it.
    pub(crate) fn begun(alloc: Global, first: Vec<Expr>, capacity: usize) -> Result<Self, NoMemory>
        requires { capacity < 2 ^ 32 }
        ensures { IfOk result (λ segs. lists_of segs ≡ begun first.items) }
    {
        let mut bounds = Vec::with_capacity(alloc, capacity + 1)?;
        bounds.push(first)?;
        let contents = Vec::with_capacity(alloc, capacity)?;
        let marks = Vec::with_capacity(alloc, capacity)?;
        Ok(Segs {
            bounds,
            contents,
            marks,
        })
    }

    /// Adds a segment up to the bound.
    #[tactic(auto, using(crate::proofs::NameSteps::map_push))]
    pub(crate) fn add(&mut self, content: C, mark: bool, bound: Vec<Expr>) -> Result<(), NoMemory>
        ensures { OnOk result (lists_of self.new
            ≡ with_more (lists_of self.old)
            (record { content = content; may_be_empty = mark; upper = bound.items } ∷ [])) }
    {
        self.bounds.push(bound)?;
        self.contents.push(content)?;
        self.marks.push(mark)?;
        Ok(())
    }
}
