//! What is held for units: a cache file's invariants, or a proof file's.

ghost use Rattle.std.specs.Prelude.{◌≡◌, [], ◌∷◌, option_map, IfOk, IfSome};
ghost use Rattle.invariant_codec.specs.Invariants.{IsInvariant};
ghost use Rattle.method_unit.specs.Units.{IsUnit};
ghost use Rattle.result_cache.specs.Entries.{invariant_of};
ghost use Rattle.unit_flow.specs.FlowOf.{flow_of};
ghost use Rattle.unit_form.specs.Spelling.{unit_bytes};
ghost use Rattle.unit_verdicts.specs.Asked.{Asks, asked_from};
ghost use Rattle.unit_verdicts.specs.CacheFile.{held_or_own};
ghost use Rattle.unit_verdicts.specs.Picks.{entries_in};
ghost use Rattle.unit_verdicts.specs.VerdictCache.{IsCached, IsHeldFor};

use crate::analysis::{CachedUnit, judge_cached, judge_proved};
use crate::proved_units::ProvedUnits;
use result_cache::Cache;
use std::alloc::{AllocError, Global};
use unit_flow::UnitFlow;
use widening_engine::Finder;

/// What is held for units.
#[derive(Drop)]
pub enum Source {
    /// The entries of a cache file. A unit that has none is judged under what a finder answers.
    Cache(Cache),
    /// The entries of a proof file. A unit that has none is judged under the states of no blocks.
    Proof(ProvedUnits),
}

impl Source {
    /// The bytes of the invariant that a cache file holds for the unit of these bytes. A proof file holds none.
    pub fn cached(&self, key: &[u8]) -> Option<&[u8]>
        ensures value { option_map (λ found. found.now) result ≡ invariant_of (entries_in self.now) key.now }
        ensures invariant { IfSome result (λ found. IsInvariant found.now) }
    {
        match self {
            Source::Cache(cache) => cache.get(key),
            Source::Proof(_) => None,
        }
    }

    /// The bytes of the invariant under which the unit of these bytes is judged: those that a cache file holds for it, or
    /// else its own.
    pub fn held_or_own<'a>(&'a self, key: &[u8], own: &'a [u8]) -> &'a [u8]
        ensures { result.now ≡ held_or_own (entries_in self.now) key.now own.now }
    {
        match self.cached(key) {
            Some(held) => held,
            None => own,
        }
    }

    /// Judges the unit of these bytes under what is held for it. Over a cache file that holds nothing for it the finder
    /// is asked, over a proof file never.
    pub fn judge<D: Finder>(
        &self,
        alloc: Global,
        code: &UnitFlow,
        key: &[u8],
        show: bool,
        keeps: bool,
        finder: &mut D,
    ) -> Result<CachedUnit, AllocError>
        requires held { IsHeldFor keeps self.now }
        requires unit { IsUnit code.now.unit }
        requires flow { code.now ≡ flow_of code.now.unit }
        requires key { key.now ≡ unit_bytes code.now.unit }
        ensures cached { IfOk result (IsCached show keeps self.now key.now) }
        ensures asked { Asks (asked_from self.now (key.now ∷ [])) result (D.asked finder.old) (D.asked finder.new) }
    {
        match self {
            Source::Cache(cache) => judge_cached(alloc, code, key, show, keeps, cache, finder),
            Source::Proof(proved) => judge_proved(alloc, code, key, show, proved),
        }
    }
}
