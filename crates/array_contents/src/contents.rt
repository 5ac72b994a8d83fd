//! The segments of each reference.

ghost use Rattle.std.specs.Prelude.{◌≡◌, ◌++◌, ◌∷◌, [], map, IfOk, OnOk, OnErr};
ghost use Rattle.array_segments.specs.SegmentLists.{whole};
ghost use Rattle.array_segments.specs.Segments.{lists_of};

use array_segments::Segs;
use domain_api::{Expr, NoMemory};
use interval_domain::Range;
use std::alloc::Global;
use std::marker::Model;

/// What is known of the items of references, from reference 1 on. Reference 0 is null, which has no items.
#[derive(Drop)]
pub struct Contents {
    /// The segments of each reference, those of reference r at place r - 1.
    pub segments: Vec<Segs<Range>>,
}

impl Model for Contents {
    ghost use Rattle.std.specs.Prelude.{map};
    ghost use Rattle.array_segments.specs.Segments.{lists_of};
    ghost use Rattle.array_contents.specs.Contents as contents;

    ghost Value = { contents.Contents };

    ghost view = { λ c. map lists_of c.segments.items };
}

/// The same segments again.
#[tactic(auto, using(array_segments::proofs::PlaceSteps::copied_more))]
fn copied(alloc: Global, segments: &[Segs<Range>]) -> Result<Vec<Segs<Range>>, NoMemory>
    ensures { IfOk result (λ again. map lists_of again.items ≡ map lists_of segments.now) }
{
    let mut again = Vec::with_capacity(alloc, segments.len())?;
    for one in segments {
        again.push(one.copy(alloc)?)?;
    }
    Ok(again)
}

impl Contents {
    /// Those of no reference.
    pub fn new(alloc: Global) -> Contents
        ensures { result ≡ [] }
    {
        Contents {
            segments: Vec::new(alloc),
        }
    }

    /// The same again.
    ///
    /// # Errors
    ///
    /// Want of memory.
    pub fn copy(&self, alloc: Global) -> Result<Contents, NoMemory>
        ensures { IfOk result (λ again. again ≡ self.now) }
    {
        let segments = copied(alloc, &self.segments)?;
        Ok(Contents { segments })
    }

    /// Adds a reference: an array of this length, all of whose items are in the range. It may have none where it is
    /// said so.
    ///
    /// # Errors
    ///
    /// Want of memory leaves what was known.
    pub fn push(
        &mut self,
        alloc: Global,
        length: Expr,
        items: Range,
        may_be_empty: bool,
    ) -> Result<(), NoMemory>
        ensures ok { OnOk result (self.new ≡ self.old ++ whole length items may_be_empty ∷ []) }
        ensures err { OnErr result (self.new ≡ self.old) }
    {
        let one = Segs::whole(alloc, length, items, may_be_empty)?;
        self.segments.push(one)?;
        Ok(())
    }
}
