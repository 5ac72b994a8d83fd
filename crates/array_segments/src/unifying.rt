//! Two sides as one, between the bounds that they have in common.

ghost use Rattle.std.specs.Prelude.{◌≡◌, ◌+◌, ◌-◌, ◌≤◌, ◌<◌, ◌++◌, ◌∷◌, ◌&&◌, [], ℕ, ℤ, not, true, false, List, length, get_or, slice_range, suc, IfOk, OnOk, Some};
ghost use Rattle.std.specs.List.{list_any, reduce};
ghost use Rattle.array_segments.specs.Behind.{StandsForBoth, behind};
ghost use Rattle.array_segments.specs.CommonBounds.{Place, common_bound, first_bound, later_places, must_at, origin_place, paired_at, row};
ghost use Rattle.array_segments.specs.Growing.{begun, with_more};
ghost use Rattle.array_segments.specs.Meaning.{Holds};
ghost use Rattle.array_segments.specs.SegmentLists.{Has, HasForm, last_bound};
ghost use Rattle.array_segments.specs.Segments.{lists_of};
ghost use Rattle.array_segments.specs.Unifying.{common_segments, make_of, of_both, some_filled, unified};

use crate::common_bounds::lowest_paired;
use crate::load::hull_of;
use crate::segments::Segs;
use domain_api::{Expr, NoMemory, Values};
use std::alloc::Global;
use symbolic_values::Pairs;

/// How a content of each side becomes one.
#[derive(Clone, Copy)]
pub(crate) enum Merge {
    Hull,
    Widening,
}

/// Two sides that become one, with the array's length in the new names.
#[derive(Clone, Copy)]
struct Sides<'a, C> {
    first: &'a Segs<C>,
    second: &'a Segs<C>,
    pairs: &'a Pairs,
    end: Expr,
    merge: Merge,
}

/// The segments that are made so far, and the place of the last common bound on each side.
#[derive(Drop)]
struct Unifying<C> {
    made: Segs<C>,
    first: usize,
    second: usize,
}

/// What both sides have, where each may have nothing.
fn of_both<C: Values>(merge: Merge, a: Option<C>, b: Option<C>) -> C
    ensures { result ≡ of_both (make_of merge C.hull C.widened) C.full a b }
{
    match (a, b) {
        (Some(x), Some(y)) => match merge {
            Merge::Hull => x.hull(&y),
            Merge::Widening => x.widened(&y),
        },
        (Some(x), None) => x,
        (None, Some(y)) => y,
        (None, None) => C::full(),
    }
}

/// Tells whether one of the segments may not be empty.
fn some_filled(marks: &[bool]) -> bool
    ensures { result ≡ list_any not marks.now }
{
    marks.iter().any(|mark| !*mark)
}

impl<C: Values> Sides<'_, C> {
    /// The expressions of both sides at a place, with what has to be among them.
    fn paired_at(
        &self,
        alloc: Global,
        first: usize,
        second: usize,
        must: Option<Expr>,
    ) -> Result<Vec<Expr>, NoMemory>
        requires form { HasForm (lists_of self.now.first.now) }
        requires other { HasForm (lists_of self.now.second.now) }
        requires first { first ≤ length self.now.first.now.contents.items }
        requires second { second ≤ length self.now.second.now.contents.items }
        ensures { IfOk result (λ bound. bound.items
            ≡ paired_at self.now.pairs.now (lists_of self.now.first.now) (lists_of self.now.second.now) must first
            second) }
    {
        lowest_paired(
            alloc,
            self.pairs,
            &self.first.bounds[first],
            &self.second.bounds[second],
            must,
        )
    }

    /// What has to be among the expressions at a place.
    fn must_at(&self, first: usize, second: usize) -> Option<Expr>
        ensures { result
            ≡ must_at (lists_of self.now.first.now) (lists_of self.now.second.now) self.now.end first second }
    {
        if first == self.first.contents.len() && second == self.second.contents.len() {
            Some(self.end)
        } else {
            None
        }
    }

    /// What both sides have between two common bounds, where `x` and `y` are the places of the lower one.
    fn content(&self, x: usize, y: usize, first: usize, second: usize) -> C
        requires rises { x ≤ first }
        requires other_rises { y ≤ second }
        requires first { first ≤ length self.now.first.now.contents.items }
        requires second { second ≤ length self.now.second.now.contents.items }
        ensures { result ≡ of_both (make_of self.now.merge C.hull C.widened) C.full
            (reduce C.hull (slice_range self.now.first.now.contents.items x first))
            (reduce C.hull (slice_range self.now.second.now.contents.items y second)) }
    {
        of_both(
            self.merge,
            hull_of(&self.first.contents[x..first]),
            hull_of(&self.second.contents[y..second]),
        )
    }

    /// Tells whether the segment between them may be empty.
    fn mark(&self, x: usize, y: usize, first: usize, second: usize) -> bool
        requires rises { x ≤ first }
        requires other_rises { y ≤ second }
        requires first { first ≤ length self.now.first.now.marks.items }
        requires second { second ≤ length self.now.second.now.marks.items }
        ensures { result ≡ not (some_filled self.now.first.now.marks.items x first
            && some_filled self.now.second.now.marks.items y second) }
    {
        !(some_filled(&self.first.marks[x..first]) && some_filled(&self.second.marks[y..second]))
    }
}

impl<C: Values> Unifying<C> {
    /// Takes a place, which does not fall below the last one.
    #[tactic(auto, using(crate::proofs::UnifySteps::place_none, crate::proofs::UnifySteps::place_some))]
    fn take(
        &mut self,
        alloc: Global,
        sides: &Sides<'_, C>,
        first: usize,
        second: usize,
    ) -> Result<(), NoMemory>
        requires form { HasForm (lists_of sides.now.first.now) }
        requires other { HasForm (lists_of sides.now.second.now) }
        requires first { first ≤ length sides.now.first.now.contents.items }
        requires second { second ≤ length sides.now.second.now.contents.items }
        requires rises { self.old.first ≤ first }
        requires other_rises { self.old.second ≤ second }
        ensures value { OnOk result ((rest : List Place) →
            with_more (lists_of self.new.made) (common_segments C.hull (make_of sides.now.merge C.hull C.widened) C.full
            sides.now.pairs.now sides.now.end (lists_of sides.now.first.now) (lists_of sides.now.second.now)
            (record { first = self.new.first; second = self.new.second }) rest)
            ≡ with_more (lists_of self.old.made)
            (common_segments C.hull (make_of sides.now.merge C.hull C.widened) C.full sides.now.pairs.now sides.now.end
            (lists_of sides.now.first.now) (lists_of sides.now.second.now)
            (record { first = self.old.first; second = self.old.second })
            (record { first = first; second = second } ∷ rest))) }
        ensures first { OnOk result (self.new.first ≤ first) }
        ensures second { OnOk result (self.new.second ≤ second) }
    {
        let must = sides.must_at(first, second);
        let bound = sides.paired_at(alloc, first, second, must)?;
        if bound.is_empty() {
            return Ok(());
        }
        let content = sides.content(self.first, self.second, first, second);
        let mark = sides.mark(self.first, self.second, first, second);
        self.made.add(content, mark, bound)?;
        self.first = first;
        self.second = second;
        Ok(())
    }

    /// Takes a bound of the first side with those of the second from a place on.
    fn take_row(
        &mut self,
        alloc: Global,
        sides: &Sides<'_, C>,
        first: usize,
        from: usize,
    ) -> Result<(), NoMemory>
        requires form { HasForm (lists_of sides.now.first.now) }
        requires other { HasForm (lists_of sides.now.second.now) }
        requires first { first ≤ length sides.now.first.now.contents.items }
        requires rises { self.old.first ≤ first }
        requires other_rises { self.old.second ≤ from }
        requires inside { self.old.second ≤ length sides.now.second.now.contents.items }
        ensures value { OnOk result ((rest : List Place) →
            with_more (lists_of self.new.made) (common_segments C.hull (make_of sides.now.merge C.hull C.widened) C.full
            sides.now.pairs.now sides.now.end (lists_of sides.now.first.now) (lists_of sides.now.second.now)
            (record { first = self.new.first; second = self.new.second }) rest)
            ≡ with_more (lists_of self.old.made)
            (common_segments C.hull (make_of sides.now.merge C.hull C.widened) C.full sides.now.pairs.now sides.now.end
            (lists_of sides.now.first.now) (lists_of sides.now.second.now)
            (record { first = self.old.first; second = self.old.second })
            (row first from (suc (length sides.now.second.now.contents.items) - from) ++ rest))) }
        ensures first { OnOk result (self.new.first ≤ first) }
        ensures second { OnOk result (self.new.second ≤ length sides.now.second.now.contents.items) }
    {
        for second in from..sides.second.contents.len() + 1 {
            self.take(alloc, sides, first, second)?;
        }
        Ok(())
    }
}

impl<C: Values> Sides<'_, C> {
    /// Both sides as one, before the limit.
    fn joined(&self, alloc: Global) -> Result<Segs<C>, NoMemory>
        requires form { HasForm (lists_of self.now.first.now) }
        requires other { HasForm (lists_of self.now.second.now) }
        ensures { IfOk result (λ segs. lists_of segs
            ≡ with_more
            (begun (first_bound self.now.pairs.now (lists_of self.now.first.now) (lists_of self.now.second.now)))
            (common_segments C.hull (make_of self.now.merge C.hull C.widened) C.full
            self.now.pairs.now self.now.end (lists_of self.now.first.now) (lists_of self.now.second.now) origin_place
            (later_places (lists_of self.now.first.now) (lists_of self.now.second.now)))) }
    {
        let zero = Expr { sym: 0, k: 0 };
        let first = self.paired_at(alloc, 0, 0, Some(zero))?;
        let capacity = self.first.contents.len() + self.second.contents.len();
        let made = Segs::begun(alloc, first, capacity)?;
        let mut unifying = Unifying {
            made,
            first: 0,
            second: 0,
        };
        unifying.take_row(alloc, self, 0, 1)?;
        for place in 1..self.first.contents.len() + 1 {
            let from = unifying.second;
            unifying.take_row(alloc, self, place, from)?;
        }
        let Unifying {
            made,
            first: _,
            second: _,
        } = unifying;
        Ok(made)
    }

    /// Both sides as one.
    fn unified(&self, alloc: Global) -> Result<Segs<C>, NoMemory>
        requires form { HasForm (lists_of self.now.first.now) }
        requires other { HasForm (lists_of self.now.second.now) }
        ensures { IfOk result (λ segs. lists_of segs
            ≡ unified C.hull (make_of self.now.merge C.hull C.widened) C.full self.now.pairs.now self.now.end
            (lists_of self.now.first.now) (lists_of self.now.second.now)) }
    {
        let mut made = self.joined(alloc)?;
        made.keep_limit();
        Ok(made)
    }
}

impl<C: Values> Segs<C> {
    /// Joins the segments of two states. A place of each side makes a common bound where expressions at the two have a
    /// common name. Between two common bounds the contents of both become one hull, and the segment is marked unless
    /// each side has an unmarked one there. `length` is the array's length in the new names.
    ///
    /// Each bound of this side is compared with the other side's from the last common one on.
    pub fn unify(
        &self,
        alloc: Global,
        other: &Self,
        pairs: &Pairs,
        length: Expr,
    ) -> Result<Self, NoMemory>
        requires form { HasForm (lists_of self.now) }
        requires other { HasForm (lists_of other.now) }
        requires ends { StandsForBoth pairs.now (last_bound (lists_of self.now)) (last_bound (lists_of other.now))
            length }
        ensures value { IfOk result (λ both. lists_of both
            ≡ unified C.hull C.hull C.full pairs.now length (lists_of self.now) (lists_of other.now)) }
        ensures form { IfOk result (λ both. HasForm (lists_of both)) }
        ensures ends { IfOk result (λ both. Has length (last_bound (lists_of both))) }
        ensures keeps { IfOk result (λ both. (number : ℕ → ℤ) (items : List ℤ)
            → Holds C.contains number items (lists_of self.now)
            → Holds C.contains (behind true number pairs.now) items (lists_of both)) }
        ensures keeps_other { IfOk result (λ both. (number : ℕ → ℤ) (items : List ℤ)
            → Holds C.contains number items (lists_of other.now)
            → Holds C.contains (behind false number pairs.now) items (lists_of both)) }
    {
        let sides = Sides {
            first: self,
            second: other,
            pairs,
            end: length,
            merge: Merge::Hull,
        };
        sides.unified(alloc)
    }

    /// The same, where a content is what this side's widened by the other's is.
    pub fn widen_under(
        &self,
        alloc: Global,
        other: &Self,
        pairs: &Pairs,
        length: Expr,
    ) -> Result<Self, NoMemory>
        requires form { HasForm (lists_of self.now) }
        requires other { HasForm (lists_of other.now) }
        requires ends { StandsForBoth pairs.now (last_bound (lists_of self.now)) (last_bound (lists_of other.now))
            length }
        ensures value { IfOk result (λ both. lists_of both
            ≡ unified C.hull C.widened C.full pairs.now length (lists_of self.now) (lists_of other.now)) }
        ensures form { IfOk result (λ both. HasForm (lists_of both)) }
        ensures ends { IfOk result (λ both. Has length (last_bound (lists_of both))) }
        ensures keeps { IfOk result (λ both. (number : ℕ → ℤ) (items : List ℤ)
            → Holds C.contains number items (lists_of self.now)
            → Holds C.contains (behind true number pairs.now) items (lists_of both)) }
        ensures keeps_other { IfOk result (λ both. (number : ℕ → ℤ) (items : List ℤ)
            → Holds C.contains number items (lists_of other.now)
            → Holds C.contains (behind false number pairs.now) items (lists_of both)) }
    {
        let sides = Sides {
            first: self,
            second: other,
            pairs,
            end: length,
            merge: Merge::Widening,
        };
        sides.unified(alloc)
    }
}
