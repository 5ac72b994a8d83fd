//! The verdicts on the units that were judged in a call.
//!
//! A cache is judged like anything that is found: what it holds for a unit is looked up by the unit's whole bytes, and
//! then tested and judged as what a finder answers, so its file is no premise of the headline. What a finder would
//! answer is not asked for besides: a cache of other invariants gives other verdicts, never wrong ones.

ghost use Rattle.std.specs.Prelude.{◌≡◌, ◌++◌, Bool, true, false, [], ◌∷◌, is_some, IfOk, IfSome, OnOk};
ghost use Rattle.method_unit.specs.UnitFile.{unit_of};
ghost use Rattle.method_unit.specs.Units.{IsUnit};
ghost use Rattle.proof_files.specs.Held.{entries_told};
ghost use Rattle.proof_files.specs.Proofs.{AreEntries};
ghost use Rattle.result_cache.specs.Entries.{AreShort, is_among};
ghost use Rattle.result_cache.specs.Spelling.{IsCacheFile, kept};
ghost use Rattle.unit_flow.specs.Flow.{IsLawful};
ghost use Rattle.unit_flow.specs.FlowOf.{flow_of};
ghost use Rattle.unit_form.specs.Spelling.{unit_bytes};
ghost use Rattle.result_cache.specs.declared.cache_form.CacheForm.TheVariants.{Second};
ghost use Rattle.unit_verdicts.specs.Asked.{Asks, asked_from, unseen};
ghost use Rattle.unit_verdicts.specs.CacheFile.{AreHonest, IsHonestFile, cache_left, entries_used};
ghost use Rattle.unit_verdicts.specs.Picks.{entries_in, pick_from};
ghost use Rattle.unit_verdicts.specs.ProofLeft.{IsProofLeft, proof_left};
ghost use Rattle.unit_verdicts.specs.VerdictCache.{IsCached, manner_of, proof_units};
ghost use Rattle.unit_verdicts.specs.Verdicts.{AreVerdictsOf};
ghost use Rattle.unit_verdicts.specs.declared.source.Source.TheVariants.{Cache as OfCache};

use crate::analysis::{CachedUnit, JudgedUnit, PickedUnit, find_flow, invariant_in, readable};
use crate::proof_left::proof_text;
use crate::proved_units::ProvedUnits;
use crate::source::Source;
use crate::unit_verdicts::UnitVerdicts;
use abs_state::Invariant;
use indexmap::IndexMap;
use method_unit::unit_bytes;
use proof_files::ProofEntry;
use result_cache::{Cache, Entries, cache_bytes};
use stack_typer::TypedUnit;
use std::alloc::{AllocError, Global};
use std::marker::Model;
use unit_flow::UnitFlow;
use widening_engine::Finder;

/// The verdicts on each unit that was judged, by the bytes of its file, beside what is held of the cache file or proof
/// file that was read. Contracts see the entries of that, the bytes of the units in the order in which they came,
/// whether invariants are shown, and whether a file is to be left.
#[derive(Drop)]
pub struct VerdictCache {
    show: bool,
    keeps: bool,
    held: Source,
    judged: IndexMap<Vec<u8>, CachedUnit>,
}

impl Model for VerdictCache {
    ghost use Rattle.unit_verdicts.specs.VerdictCache.{AreCached, CachedUnits, units_in};

    ghost Value = { CachedUnits };

    ghost use Rattle.std.specs.Coded.{codes};
    ghost use Rattle.unit_verdicts.specs.contracts.source.Source as the_source;

    ghost coded = { Prim.hlevel (codes, the_source.the_row.coded) };

    ghost view = { λ cache. units_in cache.show cache.keeps cache.held cache.judged.entries };

    ghost invariant = { λ cache. AreCached cache.show cache.keeps cache.held cache.judged.entries };
}

impl VerdictCache {
    /// No unit, and no cache file. Invariants will be shown or not.
    pub fn none(alloc: Global, show: bool) -> VerdictCache
        ensures show { result.show ≡ show }
        ensures keeps { result.keeps ≡ false }
        ensures held { result.held ≡ OfCache [] }
        ensures keys { result.keys ≡ [] }
    {
        VerdictCache {
            show,
            keeps: false,
            held: Source::Cache(Cache::none(alloc)),
            judged: IndexMap::new(alloc),
        }
    }

    /// No unit yet, over what a cache file holds. Invariants will be kept where a file of them is to be left.
    pub fn over(alloc: Global, show: bool, keeps: bool, held: Cache) -> VerdictCache
        requires short { AreShort held }
        ensures show { result.show ≡ show }
        ensures keeps { result.keeps ≡ keeps }
        ensures held { result.held ≡ OfCache held }
        ensures keys { result.keys ≡ [] }
    {
        VerdictCache {
            show,
            keeps,
            held: Source::Cache(held),
            judged: IndexMap::new(alloc),
        }
    }

    /// No unit yet, over the entries of a proof file. No invariant will be shown or kept.
    ///
    /// # Errors
    ///
    /// Want of memory.
    ///
    /// Cost: linear in the bytes of the units. No state is copied.
    pub fn of_proof(alloc: Global, entries: Vec<ProofEntry>) -> Result<VerdictCache, AllocError>
        requires { AreEntries (entries_told entries.items) }
        ensures { IfOk result (λ cache. cache ≡ proof_units (entries_told entries.items)) }
    {
        let proved = ProvedUnits::of(alloc, entries)?;
        Ok(VerdictCache {
            show: false,
            keeps: false,
            held: Source::Proof(proved),
            judged: IndexMap::new(alloc),
        })
    }

    /// Returns whether invariants are shown.
    pub fn shows(&self) -> bool
        ensures { result ≡ self.now.show }
    {
        self.show
    }

    /// The verdicts on the unit of these bytes, if it was judged.
    fn get(&self, key: &[u8]) -> Option<&UnitVerdicts>
        ensures there { is_some result ≡ is_among self.now.keys key.now }
        ensures value { IfSome result (λ found. AreVerdictsOf (manner_of self.now) (unit_of key.now) found.now) }
    {
        match self.judged.get(key) {
            Some(unit) => Some(&unit.found),
            None => None,
        }
    }

    /// Notes what is kept of the unit of these bytes.
    fn note(&mut self, key: Vec<u8>, unit: CachedUnit) -> Result<(), AllocError>
        requires new { is_among self.old.keys key.items ≡ false }
        requires cached { IsCached self.old.show self.old.keeps self.old.held key.items unit }
        ensures keys { OnOk result (self.new.keys ≡ self.old.keys ++ key.items ∷ []) }
        ensures show { self.new.show ≡ self.old.show }
        ensures keeps { self.new.keeps ≡ self.old.keeps }
        ensures held { self.new.held ≡ self.old.held }
    {
        self.judged.insert(key, unit)?;
        Ok(())
    }

    /// Judges the unit of these bytes under what is held for it.
    fn judge_code<D: Finder>(
        &self,
        alloc: Global,
        code: &UnitFlow,
        key: &[u8],
        finder: &mut D,
    ) -> Result<CachedUnit, AllocError>
        requires unit { IsUnit code.now.unit }
        requires flow { code.now ≡ flow_of code.now.unit }
        requires key { key.now ≡ unit_bytes code.now.unit }
        ensures cached { IfOk result (IsCached self.now.show self.now.keeps self.now.held key.now) }
        ensures asked { Asks (asked_from self.now.held (key.now ∷ [])) result
            (D.asked finder.old) (D.asked finder.new) }
    {
        self.held
            .judge(alloc, code, key, self.show, self.keeps, finder)
    }

    /// Judges a unit of these bytes that was not judged before.
    fn judge_new<D: Finder>(
        &mut self,
        alloc: Global,
        unit: TypedUnit,
        key: Vec<u8>,
        finder: &mut D,
    ) -> Result<JudgedUnit, AllocError>
        requires unit { IsUnit unit }
        requires key { key.items ≡ unit_bytes unit }
        requires new { is_among self.old.keys key.items ≡ false }
        ensures unit { IfOk result (λ judged. judged.unit ≡ unit) }
        ensures value { IfOk result (λ judged. AreVerdictsOf (manner_of self.old) unit judged.found) }
        ensures keys { OnOk result (self.new.keys ≡ self.old.keys ++ key.items ∷ []) }
        ensures show { self.new.show ≡ self.old.show }
        ensures keeps { self.new.keeps ≡ self.old.keeps }
        ensures held { self.new.held ≡ self.old.held }
        ensures asked { Asks (asked_from self.old.held (key.items ∷ [])) result
            (D.asked finder.old) (D.asked finder.new) }
    {
        let code = find_flow(alloc, unit)?;
        let judged = self.judge_code(alloc, &code, &key, finder)?;
        let found = judged.found.copy(alloc)?;
        self.note(key, judged)?;
        Ok(JudgedUnit {
            unit: code.unit,
            found,
        })
    }

    /// Judges a unit: under what the cache file holds for it, or else under what the finder answers, and over a proof
    /// file under what that states of it, or else under the states of no blocks. The finder is asked only where no
    /// equal unit was judged before, and over a proof file never.
    ///
    /// Cost: the unit's bytes are kept, with its verdicts, with the text of its invariant where that is shown, and with
    /// the bytes of it where a file is to be left and the cache file that was read has none.
    pub fn judge<D: Finder>(
        &mut self,
        alloc: Global,
        unit: TypedUnit,
        finder: &mut D,
    ) -> Result<JudgedUnit, AllocError>
        requires { IsUnit unit }
        ensures unit { IfOk result (λ judged. judged.unit ≡ unit) }
        ensures value { IfOk result (λ judged. AreVerdictsOf (manner_of self.old) unit judged.found) }
        ensures keys { OnOk result (self.new.keys ≡ self.old.keys ++ unseen self.old.keys (unit_bytes unit ∷ [])) }
        ensures show { self.new.show ≡ self.old.show }
        ensures keeps { self.new.keeps ≡ self.old.keeps }
        ensures held { self.new.held ≡ self.old.held }
        ensures asked { Asks (asked_from self.old.held (unseen self.old.keys (unit_bytes unit ∷ []))) result
            (D.asked finder.old) (D.asked finder.new) }
    {
        let key = unit_bytes(alloc, unit.unit())?;
        if let Some(known) = self.get(&key) {
            let found = known.copy(alloc)?;
            return Ok(JudgedUnit {
                unit: unit.into_unit(),
                found,
            });
        }
        self.judge_new(alloc, unit, key, finder)
    }

    /// The invariant under which the unit of these bytes was judged, of which this is kept.
    fn invariant(
        &self,
        alloc: Global,
        key: &[u8],
        unit: &CachedUnit,
    ) -> Result<Invariant, AllocError>
        requires keeps { self.now.keeps ≡ true }
        requires cached { IsCached self.now.show self.now.keeps self.now.held key.now unit.now }
        ensures { IfOk result (λ invariant. invariant.states.items ≡ pick_from self.now.held (unit_of key.now)) }
    {
        let bytes = self.held.held_or_own(key, &unit.invariant);
        invariant_in(alloc, readable(bytes)?)
    }

    /// The same by the bytes alone, if the unit was judged.
    fn picked(&self, alloc: Global, key: &[u8]) -> Result<Option<Invariant>, AllocError>
        requires keeps { self.now.keeps ≡ true }
        ensures there { IfOk result (λ found. is_some found ≡ is_among self.now.keys key.now) }
        ensures value { IfOk result (λ found. IfSome found
            (λ invariant. invariant.states.items ≡ pick_from self.now.held (unit_of key.now))) }
    {
        let Some(unit) = self.judged.get(key) else {
            return Ok(None);
        };
        let invariant = self.invariant(alloc, key, unit)?;
        Ok(Some(invariant))
    }

    /// Judges a unit of these bytes that was not judged before, and answers the invariant under which it is judged.
    fn pick_new<D: Finder>(
        &mut self,
        alloc: Global,
        code: &UnitFlow,
        key: Vec<u8>,
        finder: &mut D,
    ) -> Result<Invariant, AllocError>
        requires unit { IsUnit code.now.unit }
        requires flow { code.now ≡ flow_of code.now.unit }
        requires key { key.items ≡ unit_bytes code.now.unit }
        requires keeps { self.old.keeps ≡ true }
        requires new { is_among self.old.keys key.items ≡ false }
        ensures value { IfOk result
            (λ invariant. invariant.states.items ≡ pick_from self.old.held (unit_of key.items)) }
        ensures keys { OnOk result (self.new.keys ≡ self.old.keys ++ key.items ∷ []) }
        ensures show { self.new.show ≡ self.old.show }
        ensures keeps { self.new.keeps ≡ self.old.keeps }
        ensures held { self.new.held ≡ self.old.held }
        ensures asked { Asks (asked_from self.old.held (key.items ∷ [])) result
            (D.asked finder.old) (D.asked finder.new) }
    {
        let judged = self.judge_code(alloc, code, &key, finder)?;
        let invariant = self.invariant(alloc, &key, &judged)?;
        self.note(key, judged)?;
        Ok(invariant)
    }

    /// The invariant under which a unit is judged. A unit that was not judged before is judged, so that the finder is
    /// asked for its invariant at most once in a call.
    ///
    /// # Errors
    ///
    /// Want of memory.
    ///
    /// Cost: what `judge` costs of a unit that was not judged before. The invariant is read of its bytes each time.
    pub fn pick<D: Finder>(
        &mut self,
        alloc: Global,
        unit: TypedUnit,
        finder: &mut D,
    ) -> Result<PickedUnit, AllocError>
        requires unit { IsUnit unit }
        requires keeps { self.old.keeps ≡ true }
        ensures code { IfOk result (λ picked. picked.code ≡ flow_of unit) }
        ensures unit { IfOk result (λ picked. picked.code.unit ≡ unit) }
        ensures lawful { IfOk result (λ picked. IsLawful picked.code) }
        ensures value { IfOk result (λ picked. picked.invariant.states.items ≡ pick_from self.old.held unit) }
        ensures keys { OnOk result (self.new.keys ≡ self.old.keys ++ unseen self.old.keys (unit_bytes unit ∷ [])) }
        ensures show { self.new.show ≡ self.old.show }
        ensures keeps { self.new.keeps ≡ self.old.keeps }
        ensures held { self.new.held ≡ self.old.held }
        ensures asked { Asks (asked_from self.old.held (unseen self.old.keys (unit_bytes unit ∷ []))) result
            (D.asked finder.old) (D.asked finder.new) }
    {
        let key = unit_bytes(alloc, unit.unit())?;
        let code = find_flow(alloc, unit)?;
        if let Some(invariant) = self.picked(alloc, &key)? {
            return Ok(PickedUnit { code, invariant });
        }
        let invariant = self.pick_new(alloc, &code, key, finder)?;
        Ok(PickedUnit { code, invariant })
    }

    /// The cache file to be left: the units that were judged, in the order in which they came, each with the invariant
    /// under which it was judged, up to the first with which the file would have more than 67,108,864 bytes.
    ///
    /// # Errors
    ///
    /// Want of memory.
    ///
    /// Cost: linear in the number of bytes. No invariant is copied but to the file.
    pub fn cache_left(&self, alloc: Global) -> Result<Vec<u8>, AllocError>
        requires { self.now.keeps ≡ true }
        ensures value { IfOk result (λ bytes. bytes.items ≡ cache_left (entries_in self.now.held) self.now.keys) }
        // It is a cache file, which can be read.
        ensures file { IfOk result
            (λ bytes. IsCacheFile Second (kept (entries_used (entries_in self.now.held) self.now.keys)) bytes.items) }
        // It is honest where the one that was read was.
        ensures honest { AreHonest (entries_in self.now.held) → IfOk result (λ bytes. IsHonestFile bytes.items) }
    {
        let _ = &self.judged;
        cache_bytes(alloc, self)
    }

    /// The proof file to be left: the units that were judged, in the order in which they came, each with the invariant
    /// under which it was judged, where that has its shape, up to the first with which the file would have more than
    /// 67,108,864 bytes.
    ///
    /// # Errors
    ///
    /// Want of memory.
    ///
    /// Cost: linear in the bytes of the units and of their invariants and in the file, and what the flow of each unit
    /// takes. Units and invariants are read again of their bytes, one after another.
    pub fn proof_left(&self, alloc: Global) -> Result<Vec<u8>, AllocError>
        requires { self.now.keeps ≡ true }
        ensures value { IfOk result (λ bytes. bytes.items ≡ proof_left self.now.held self.now.keys) }
        // It can be read, and the verdicts under it are those of this call.
        ensures left { IfOk result (λ _. IsProofLeft self.now.held self.now.keys) }
    {
        let _ = &self.judged;
        let text = proof_text(alloc, self)?;
        Ok(text.into_bytes())
    }
}

impl Entries for VerdictCache {
    ghost use Rattle.unit_verdicts.specs.VerdictCache.{entries_kept};

    ghost entries = { entries_kept };

    fn count(&self) -> usize {
        if self.keeps { self.judged.len() } else { 0 }
    }

    fn entry_at(&self, place: usize) -> Option<(&[u8], &[u8])> {
        if !self.keeps {
            return None;
        }
        let Some((key, unit)) = self.judged.get_index(place) else {
            return None;
        };
        let invariant = self.held.held_or_own(key, &unit.invariant);
        Some((key.as_slice(), invariant))
    }
}
