//! The limit on the number of segments.
//!
//! At most 12 segments, and four expressions in a bound (common_bounds.rt): where more are left, the lowest stay, but
//! 0 and the length take the place of the last. What lies between two common bounds on one side alone is marked as
//! perhaps empty.

ghost use Rattle.std.specs.Prelude.{◌≡◌, ◌≤◌, length};
ghost use Rattle.array_segments.specs.Counted.{IsCounted};
ghost use Rattle.array_segments.specs.SegmentLists.{HasForm};
ghost use Rattle.array_segments.specs.Segments.{lists_of};
ghost use Rattle.array_segments.specs.Storing.{limited, merged_first};

use crate::segments::Segs;
use domain_api::Values;

/// The most segments of one array.
pub(crate) const SEGMENT_LIMIT: usize = 12;

impl<C: Values> Segs<C> {
    /// Makes one segment of the first two.
    #[tactic(auto, using(crate::proofs::LimitSteps::second_removed, crate::proofs::LimitSteps::two_made_one))]
    fn merge_first(&mut self)
        requires counted { IsCounted (lists_of self.old) }
        requires two { 2 ≤ length self.old.contents.items }
        ensures { lists_of self.new ≡ merged_first C.hull (lists_of self.old) }
    {
        let _ = self.bounds.remove(1);
        let first = self.contents.remove(0);
        self.contents[0] = first.hull(&self.contents[0]);
        let mark = self.marks.remove(0);
        self.marks[0] = mark && self.marks[0];
    }

    /// Makes one segment of the first two for as long as there are more than the limit.
    #[tactic(auto, using(crate::proofs::LimitLaw::merged_counted))]
    pub(crate) fn keep_limit(&mut self)
        requires { IsCounted (lists_of self.old) }
        ensures { lists_of self.new ≡ limited C.hull (lists_of self.old) }
    {
        while self.contents.len() > SEGMENT_LIMIT {
            self.merge_first();
        }
    }
}
