//! Segments of an array.

ghost use Rattle.std.specs.Prelude.{◌≡◌, ◌<◌, ◌∷◌, [], ℕ, ℤ, pos, false, List, length, map, IfOk};
ghost use Rattle.array_segments.specs.Meaning.{Covers, Holds, worth};
ghost use Rattle.array_segments.specs.SegmentLists.{HasForm, whole};

use domain_api::{Expr, NoMemory, Values};
use std::alloc::Global;

/// An array's items, as far as they are known. The bounds go from 0 to the array's length and never fall, and the
/// expressions of one bound are all equal. Between each two neighbours lies a segment, whose items are in its content.
///
/// There are 1 to 12 segments, one content and one mark for each, one bound more, and 1 to 4 expressions at a bound.
/// The constant 0 is among those of the first bound.
#[derive(Drop)]
pub struct Segs<C> {
    /// The bounds, in order: at each place equal expressions.
    pub bounds: Vec<Vec<Expr>>,
    /// For each segment, a set that has its items.
    pub contents: Vec<C>,
    /// Tells whether the segment may be empty.
    pub marks: Vec<bool>,
}

/// One expression alone.
pub(crate) fn only(alloc: Global, expr: Expr) -> Result<Vec<Expr>, NoMemory>
    ensures { IfOk result (λ bound. bound.items ≡ expr ∷ []) }
{
    Vec::from_slice(alloc, &[expr])
}

impl<C: Values> Segs<C> {
    ghost use Rattle.array_segments.specs.Segments.{lists_of};

    /// One segment, from 0 to the end, whose items are in the value. The end is worth the array's length.
    pub fn whole(alloc: Global, end: Expr, value: C, may_be_empty: bool) -> Result<Self, NoMemory>
        ensures value { IfOk result (λ segs. lists_of segs ≡ whole end value may_be_empty) }
        ensures form { IfOk result (λ segs. HasForm (lists_of segs)) }
        ensures holds { IfOk result (λ segs. (number : ℕ → ℤ) (items : List ℤ) → number 0 ≡ pos 0
            → worth number end ≡ pos (length items) → (may_be_empty ≡ false → 0 < length items)
            → Covers C.contains items value (pos 0) (pos (length items))
            → Holds C.contains number items (lists_of segs)) }
    {
        let zero = only(alloc, Expr { sym: 0, k: 0 })?;
        let last = only(alloc, end)?;
        let mut bounds = Vec::with_capacity(alloc, 2)?;
        bounds.push(zero)?;
        bounds.push(last)?;
        let mut contents = Vec::with_capacity(alloc, 1)?;
        contents.push(value)?;
        let mut marks = Vec::with_capacity(alloc, 1)?;
        marks.push(may_be_empty)?;
        Ok(Segs {
            bounds,
            contents,
            marks,
        })
    }

    /// The same segments again.
    pub fn copy(&self, alloc: Global) -> Result<Self, NoMemory>
        ensures { IfOk result (λ again. lists_of again ≡ lists_of self.now) }
    {
        let bounds = copied(alloc, &self.bounds)?;
        let contents = Vec::from_slice(alloc, &self.contents)?;
        let marks = Vec::from_slice(alloc, &self.marks)?;
        Ok(Segs {
            bounds,
            contents,
            marks,
        })
    }
}

/// The same lists again.
#[tactic(auto, using(crate::proofs::PlaceSteps::copied_more))]
fn copied(alloc: Global, bounds: &[Vec<Expr>]) -> Result<Vec<Vec<Expr>>, NoMemory>
    ensures { IfOk result (λ again. map (λ bound. bound.items) again.items ≡ map (λ bound. bound.items) bounds.now) }
{
    let mut again = Vec::with_capacity(alloc, bounds.len())?;
    for bound in bounds {
        again.push(Vec::from_slice(alloc, bound)?)?;
    }
    Ok(again)
}
