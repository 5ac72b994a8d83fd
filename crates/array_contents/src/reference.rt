//! The segments of one reference among those of all.

ghost use Rattle.std.specs.Prelude.{◌≡◌, map, IfOk, MatchOption};
ghost use Rattle.array_segments.specs.Segments.{lists_of};
ghost use Rattle.array_contents.specs.Contents.{of_null, segments_at};

use crate::contents::Contents;
use array_segments::Segs;
use domain_api::{Expr, NoMemory, Values};
use interval_domain::Range;
use std::alloc::Global;

/// The segments of null.
pub(crate) fn null_segments(alloc: Global) -> Result<Segs<Range>, NoMemory>
    ensures { IfOk result (λ segs. lists_of segs ≡ of_null) }
{
    Segs::whole(alloc, Expr { sym: 0, k: 0 }, Range::constant(0), true)
}

/// The segments of a reference among those of all. None of null.
#[tactic(auto, using(crate::proofs::AtSteps::at_steps))]
fn found<'a>(segments: &'a [Segs<Range>], r: u32) -> Option<&'a Segs<Range>>
    ensures { MatchOption result (of_null ≡ segments_at (map lists_of segments.now) r)
        (λ one. lists_of one.now ≡ segments_at (map lists_of segments.now) r) }
{
    if r == 0 {
        return None;
    }
    let place = r as usize - 1;
    if place >= segments.len() {
        return None;
    }
    Some(&segments[place])
}

impl Contents {
    /// Those of a reference. None of null.
    pub(crate) fn at<'a>(&'a self, r: u32) -> Option<&'a Segs<Range>>
        ensures { MatchOption result (of_null ≡ segments_at self.now r)
            (λ one. lists_of one.now ≡ segments_at self.now r) }
    {
        found(&self.segments, r)
    }

    /// Those of a reference, where these are the ones of null.
    pub(crate) fn at_or<'a>(&'a self, null: &'a Segs<Range>, r: u32) -> &'a Segs<Range>
        requires { lists_of null.now ≡ of_null }
        ensures { lists_of result.now ≡ segments_at self.now r }
    {
        match self.at(r) {
            Some(one) => one,
            None => null,
        }
    }
}
