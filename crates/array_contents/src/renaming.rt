//! Contents in new names.

ghost use Rattle.std.specs.Prelude.{◌≡◌, ◌<◌, get_or, length, IfOk, None, Some};
ghost use Rattle.std.specs.List.{AllByRecursion, filter_map};
ghost use Rattle.symbolic_values.specs.Names.{renamed};
ghost use Rattle.interval_domain.specs.Joins.{hull};
ghost use Rattle.array_segments.specs.Renaming.{renamed_lists};
ghost use Rattle.array_segments.specs.SegmentLists.{HasForm, last_bound, zero_expr};
ghost use Rattle.array_segments.specs.Segments.{lists_of};
ghost use Rattle.array_contents.specs.Contents.{segments_at};
ghost use Rattle.array_contents.specs.Ends.{EachIsNamed};
ghost use Rattle.array_contents.specs.Merging.{renamed_each};

use crate::contents::Contents;
use crate::reference::null_segments;
use array_segments::Segs;
use domain_api::{Expr, NoMemory};
use interval_domain::Range;
use std::alloc::Global;
use symbolic_values::Key;

impl Contents {
    /// Those of a new reference, which was the reference r.
    #[tactic(auto, using(crate::proofs::AtSteps::form_of))]
    fn renamed_one(
        &self,
        alloc: Global,
        names: &[Option<Expr>],
        r: u32,
    ) -> Result<Segs<Range>, NoMemory>
        requires form { AllByRecursion HasForm self.now }
        requires zero { get_or names.now 0 None ≡ Some zero_expr }
        requires ends { 0 < length (filter_map (renamed names.now) (last_bound (segments_at self.now r))) }
        ensures { IfOk result (λ new. lists_of new ≡ renamed_lists hull (renamed names.now) (segments_at self.now r)) }
    {
        match self.at(r) {
            Some(one) => one.renamed(alloc, names),
            None => null_segments(alloc)?.renamed(alloc, names),
        }
    }

    /// Those of new references, each of which was the reference s of its key, in new names of symbols.
    ///
    /// Cost: a pass over the bounds of each.
    #[tactic(auto, using(crate::proofs::MergingSteps::renamed_steps))]
    pub fn renamed(
        &self,
        alloc: Global,
        names: &[Option<Expr>],
        keys: &[Key],
    ) -> Result<Contents, NoMemory>
        requires form { AllByRecursion HasForm self.now }
        requires zero { get_or names.now 0 None ≡ Some zero_expr }
        requires ends { EachIsNamed names.now self.now keys.now }
        ensures { IfOk result (λ new. new ≡ renamed_each names.now self.now keys.now) }
    {
        let mut segments = Vec::with_capacity(alloc, keys.len())?;
        for key in keys {
            segments.push(self.renamed_one(alloc, names, key.s)?)?;
        }
        Ok(Contents { segments })
    }
}
