//! Stores.

ghost use Rattle.std.specs.Prelude.{◌≡◌, ◌<ℤ◌, ◌^◌, ◌-◌, map, pos, OnOk, OnErr};
ghost use Rattle.std.specs.List.{AllByRecursion};
ghost use Rattle.array_segments.specs.SegmentLists.{HasForm};
ghost use Rattle.array_segments.specs.Segments.{lists_of};
ghost use Rattle.array_contents.specs.Storing.{stored, strongly_at, weakly_each, weakly_one};

use crate::contents::Contents;
use array_segments::Segs;
use domain_api::{Expr, NoMemory, Order};
use interval_domain::Range;
use std::alloc::Global;

/// Stores a number of the range into an array that may be the one of these segments, if it is said so.
fn store_if<O: Order>(one: &mut Segs<Range>, order: &O, at: Expr, value: Range, may_be: bool)
    requires form { HasForm (lists_of one.old) }
    ensures value { lists_of one.new ≡ weakly_one (O.gap order.now) at value may_be (lists_of one.old) }
    ensures form { HasForm (lists_of one.new) }
{
    if may_be {
        one.weak_store(order, at, value);
    }
}

/// Stores it into an array that may be each of these.
fn store_each<O: Order>(
    segments: &mut [Segs<Range>],
    order: &O,
    at: Expr,
    value: Range,
    others: &[bool],
)
    requires form { AllByRecursion HasForm (map lists_of segments.old) }
    ensures value { map lists_of segments.new
        ≡ weakly_each (O.gap order.now) at value others.now (map lists_of segments.old) }
    ensures form { AllByRecursion HasForm (map lists_of segments.new) }
{
    let count = segments.len().min(others.len());
    for place in 0..count {
        store_if(&mut segments[place], order, at, value, others[place]);
    }
}

/// Stores it into the array that the reference is.
#[tactic(auto, using(crate::proofs::StoringSteps::store_steps))]
fn store_to<O: Order>(
    alloc: Global,
    segments: &mut [Segs<Range>],
    order: &O,
    r: u32,
    at: Expr,
    value: Range,
) -> Result<(), NoMemory>
    requires form { AllByRecursion HasForm (map lists_of segments.old) }
    requires next { at.k <ℤ pos (2 ^ 63 - 1) }
    ensures ok { OnOk result (map lists_of segments.new
        ≡ strongly_at (O.gap order.now) r at value (map lists_of segments.old)) }
    ensures form { OnOk result (AllByRecursion HasForm (map lists_of segments.new)) }
    ensures err { OnErr result (map lists_of segments.new ≡ map lists_of segments.old) }
{
    if r == 0 {
        return Ok(());
    }
    let place = r as usize - 1;
    if place >= segments.len() {
        return Ok(());
    }
    segments[place].strong_store(alloc, order, at, value)
}

impl Contents {
    /// Stores a number of the range into an array at an index: into the array that reference r is, which these of the
    /// others, from reference 1 on, may be too.
    ///
    /// Cost: a look at each bound of each of these references, by which it is strongly or weakly changed.
    ///
    /// # Errors
    ///
    /// Want of memory leaves what was known.
    pub fn store<O: Order>(
        &mut self,
        alloc: Global,
        order: &O,
        r: u32,
        at: Expr,
        value: Range,
        others: &[bool],
    ) -> Result<(), NoMemory>
        requires form { AllByRecursion HasForm self.old }
        requires next { at.k <ℤ pos (2 ^ 63 - 1) }
        ensures ok { OnOk result (self.new ≡ stored (O.gap order.now) r at value others.now self.old) }
        ensures err { OnErr result (self.new ≡ self.old) }
    {
        store_to(alloc, &mut self.segments, order, r, at, value)?;
        store_each(&mut self.segments, order, at, value, others);
        Ok(())
    }
}
