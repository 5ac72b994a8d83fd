//! Loads.

ghost use Rattle.std.specs.Prelude.{◌≡◌, map};
ghost use Rattle.std.specs.List.{AllByRecursion};
ghost use Rattle.array_segments.specs.SegmentLists.{HasForm};
ghost use Rattle.array_segments.specs.Segments.{lists_of};
ghost use Rattle.array_contents.specs.Storing.{loaded_at};

use crate::contents::Contents;
use array_segments::Segs;
use domain_api::{Expr, Order, Values};
use interval_domain::Range;

/// The hull of the ranges of the segments that may have the item of a reference at an index.
#[tactic(auto, using(crate::proofs::AtSteps::load_steps))]
fn loaded<O: Order>(segments: &[Segs<Range>], order: &O, r: u32, at: Expr) -> Range
    requires form { AllByRecursion HasForm (map lists_of segments.now) }
    ensures { result ≡ loaded_at (O.gap order.now) (map lists_of segments.now) r at }
{
    if r == 0 {
        return Range::constant(0);
    }
    let place = r as usize - 1;
    if place >= segments.len() {
        return Range::constant(0);
    }
    segments[place].load(order, at)
}

impl Contents {
    /// The hull of the ranges of the segments that may have the item of a reference at an index. It looks at each bound
    /// of the reference once, and takes no memory.
    pub fn load<O: Order>(&self, order: &O, r: u32, at: Expr) -> Range
        requires form { AllByRecursion HasForm self.now }
        ensures { result ≡ loaded_at (O.gap order.now) self.now r at }
    {
        loaded(&self.segments, order, r, at)
    }
}
