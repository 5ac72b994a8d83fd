//! The test of the form.

ghost use Rattle.std.specs.Prelude.{◌≡◌, ◌↔◌, map, IsTrue};
ghost use Rattle.std.specs.List.{list_all};
ghost use Rattle.array_segments.specs.FormTest.{are_counted, begins_at_zero, has_few, is_formed};
ghost use Rattle.array_segments.specs.SegmentLists.{HasForm};
ghost use Rattle.array_segments.specs.Segments.{lists_of};

use crate::common_bounds::{EXPR_LIMIT, has};
use crate::limit::SEGMENT_LIMIT;
use crate::segments::Segs;
use domain_api::{Expr, Values};

/// Tells whether the bound has 1 to 4 expressions.
fn has_few(bound: &[Expr]) -> bool
    ensures { result ≡ has_few bound.now }
{
    1 <= bound.len() && bound.len() <= EXPR_LIMIT
}

/// Tells whether each bound has.
#[tactic(auto, using(crate::proofs::InclusionSteps::list_all_more))]
fn all_have_few(bounds: &[Vec<Expr>]) -> bool
    ensures { result ≡ list_all has_few (map (λ bound. bound.items) bounds.now) }
{
    for bound in bounds {
        if !has_few(bound) {
            return false;
        }
    }
    true
}

impl<C: Values> Segs<C> {
    /// Tells whether there are as many contents, marks and bounds as there have to be.
    fn are_counted(&self) -> bool
        ensures { result ≡ are_counted (lists_of self.now) }
    {
        let count = self.contents.len();
        (1 <= count && count <= SEGMENT_LIMIT)
            && (self.bounds.len() == count + 1 && self.marks.len() == count)
    }

    /// Tells whether 0 is among the first bound's.
    fn begins_at_zero(&self) -> bool
        ensures { result ≡ begins_at_zero (lists_of self.now) }
    {
        match self.bounds.first() {
            Some(first) => has(first, Expr { sym: 0, k: 0 }),
            None => false,
        }
    }

    /// Tells whether all of this is so.
    fn is_formed(&self) -> bool
        ensures { result ≡ is_formed (lists_of self.now) }
    {
        self.are_counted() && (all_have_few(&self.bounds) && self.begins_at_zero())
    }

    /// Tells whether these are segments, as every call but `whole` asks for: 1 to 12, with a content and a mark each
    /// and one bound more, 1 to 4 expressions at each bound, and 0 among those of the first.
    pub fn has_form(&self) -> bool
        ensures { IsTrue result ↔ HasForm (lists_of self.now) }
    {
        self.is_formed()
    }
}
