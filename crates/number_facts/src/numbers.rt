//! What is known of symbols.

ghost use Rattle.std.specs.Prelude.{◌≡◌, ◌≤◌, length, IfOk};
ghost use Rattle.number_facts.specs.Facts.{has, range_at};

use crate::definitions::Definitions;
use domain_api::{NoMemory, Values};
use interval_domain::Range;
use pentagon_domain::Bounds;
use std::alloc::Global;
use std::marker::Model;

/// What is known of the symbols of a state's numbers. The facts are public, and each call says what it does to them.
///
/// Symbol 0 is the number 0. The others have their numbers from 1 on, in order.
#[derive(Drop)]
pub struct Numbers {
    /// The range of each symbol, that of symbol s at place s - 1. All are ranges of int32.
    pub ranges: Vec<Range>,
    /// What some symbols are, one definition for each at most, rising by the symbol.
    pub definitions: Definitions,
    /// How symbols lie to each other.
    pub bounds: Bounds,
}

impl Model for Numbers {
    ghost use Rattle.number_facts.specs.Facts.{Facts};

    ghost Value = { Facts };

    ghost view = { λ n. record { ranges = n.ranges.items; definitions = n.definitions; bounds = n.bounds } };
}

/// For so many new symbols there is room in a copy of ranges.
const SPARE: usize = 8;

/// The same ranges again, with room for some more: what is copied is mostly about to gain symbols.
fn roomy(alloc: Global, ranges: &[Range]) -> Result<Vec<Range>, NoMemory>
    ensures { IfOk result (λ again. again.items ≡ ranges.now) }
{
    let mut again = Vec::with_capacity(alloc, ranges.len().saturating_add(SPARE))?;
    again.extend_from_slice(ranges)?;
    Ok(again)
}

impl Numbers {
    /// The same facts again. Costs one pass.
    pub fn copy(&self, alloc: Global) -> Result<Numbers, NoMemory>
        ensures { IfOk result (λ again. again ≡ self.now) }
    {
        Ok(Numbers {
            ranges: roomy(alloc, &self.ranges)?,
            definitions: self.definitions.copy(alloc)?,
            bounds: self.bounds.copy(alloc)?,
        })
    }

    /// Returns whether a symbol is there.
    pub(crate) fn has(&self, sym: u32) -> bool
        ensures { result ≡ has self.now sym }
    {
        sym as usize <= self.ranges.len()
    }

    /// The range that is stored of a symbol.
    #[tactic(auto, using(crate::proofs::Symbols::stored_at), unfolding(crate::specs::Facts::range_at))]
    pub(crate) fn range_at(&self, sym: u32) -> Range
        ensures { result ≡ range_at self.now sym }
    {
        if sym == 0 {
            return Range::constant(0);
        }
        match self.ranges.get(sym as usize - 1) {
            Some(range) => *range,
            None => Range::constant(0),
        }
    }
}
