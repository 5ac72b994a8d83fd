//! Units, judged under what a finder answers or a file holds.

ghost use Rattle.std.specs.Prelude.{◌≡◌, ◌≤◌, false, true, [], ◌∷◌, length, IfOk};
ghost use Rattle.invariant_codec.specs.Invariants.{IsInvariant};
ghost use Rattle.invariant_codec.specs.Spellable.{AreSpellable};
ghost use Rattle.method_unit.specs.Units.{IsUnit};
ghost use Rattle.result_cache.specs.Entries.{AreShort};
ghost use Rattle.state_facts.specs.Sizes.{AreSmall};
ghost use Rattle.unit_flow.specs.Flow.{IsLawful};
ghost use Rattle.unit_flow.specs.FlowOf.{flow_of};
ghost use Rattle.unit_form.specs.Spelling.{unit_bytes};
ghost use Rattle.unit_verdicts.specs.Asked.{Asks, without_entry};
ghost use Rattle.unit_verdicts.specs.Picks.{limit_manner, states_in};
ghost use Rattle.unit_verdicts.specs.VerdictCache.{AreBytesOf, IsCached};
ghost use Rattle.unit_verdicts.specs.Verdicts.{AreVerdictsOf, AreVerdictsUnder};
ghost use Rattle.unit_verdicts.specs.declared.source.Source.TheVariants.{Cache as OfCache, Proof as OfProof};
ghost use Rattle.widening_engine.specs.Limits.{limit_of};

use crate::proved_units::ProvedUnits;
use crate::unit_verdicts::{UnitVerdicts, judge_under};
use abs_state::Invariant;
use cil_model::Unit;
use invariant_codec::{invariant_bytes, read_invariant};
use result_cache::Cache;
use stack_typer::TypedUnit;
use std::alloc::{AllocError, Global};
use unit_flow::UnitFlow;
use widening_engine::Finder;

/// The unit with its graph and its kinds.
pub fn find_flow(alloc: Global, unit: TypedUnit) -> Result<UnitFlow, AllocError>
    requires { IsUnit unit }
    ensures flow { IfOk result (λ code. code ≡ flow_of unit) }
    ensures unit { IfOk result (λ code. code.unit ≡ unit) }
{
    UnitFlow::of(alloc, unit)
}

/// The verdicts on a unit under the invariant that the finder answers, with the text of that where it is shown.
pub fn judge_flow<D: Finder>(
    alloc: Global,
    code: &UnitFlow,
    show: bool,
    finder: &mut D,
) -> Result<UnitVerdicts, AllocError>
    requires unit { IsUnit code.now.unit }
    requires flow { code.now ≡ flow_of code.now.unit }
    ensures value { IfOk result (AreVerdictsOf (limit_manner show) code.now.unit) }
    ensures asked { Asks (unit_bytes code.now.unit ∷ []) result (D.asked finder.old) (D.asked finder.new) }
{
    let invariant = finder.find(alloc, code)?;
    judge_under(alloc, code, &invariant, show)
}

/// A unit that was judged.
#[derive(Drop)]
pub struct JudgedUnit {
    /// The unit.
    pub unit: Unit,
    /// The verdicts on it.
    pub found: UnitVerdicts,
}

/// A unit with the invariant under which it is judged.
#[derive(Drop)]
pub struct PickedUnit {
    /// The unit with its graph and its kinds.
    pub code: UnitFlow,
    /// The invariant.
    pub invariant: Invariant,
}

/// What is kept of a unit that was judged.
#[derive(Drop)]
pub struct CachedUnit {
    /// The verdicts on it.
    pub found: UnitVerdicts,
    /// The bytes of what the finder answered, where these are to be kept, and else none.
    pub invariant: Vec<u8>,
}

/// The bytes of an invariant, where they are to be kept.
fn bytes_kept(alloc: Global, invariant: &Invariant, keeps: bool) -> Result<Vec<u8>, AllocError>
    requires small { AreSmall invariant.now.states.items }
    ensures { IfOk result (λ bytes. keeps ≡ true → AreBytesOf invariant.now.states.items bytes.items) }
{
    if keeps {
        invariant_bytes(alloc, invariant)
    } else {
        Ok(Vec::new(alloc))
    }
}

/// Judges a unit under the invariant that the finder answers, and keeps the bytes of that or not.
fn judge_found<D: Finder>(
    alloc: Global,
    code: &UnitFlow,
    show: bool,
    keeps: bool,
    finder: &mut D,
) -> Result<CachedUnit, AllocError>
    requires lawful { IsLawful code.now }
    ensures value { IfOk result (λ unit. AreVerdictsUnder show code.now (limit_of code.now) unit.found) }
    ensures invariant { IfOk result (λ unit. keeps ≡ true → AreBytesOf (limit_of code.now) unit.invariant.items) }
    ensures asked { Asks (unit_bytes code.now.unit ∷ []) result (D.asked finder.old) (D.asked finder.new) }
{
    let invariant = finder.find(alloc, code)?;
    let found = judge_under(alloc, code, &invariant, show)?;
    let bytes = bytes_kept(alloc, &invariant, keeps)?;
    Ok(CachedUnit {
        found,
        invariant: bytes,
    })
}

/// Judges a unit under an invariant that a file holds for it. Nothing is kept of that.
fn judge_stated(
    alloc: Global,
    code: &UnitFlow,
    show: bool,
    invariant: &Invariant,
) -> Result<CachedUnit, AllocError>
    requires { IsLawful code.now }
    ensures { IfOk result (λ unit. AreVerdictsUnder show code.now invariant.now.states.items unit.found) }
{
    Ok(CachedUnit {
        found: judge_under(alloc, code, invariant, show)?,
        invariant: Vec::new(alloc),
    })
}

/// The bytes, where a reader takes so many: it counts with 31 bits. More are want of memory.
pub fn readable(bytes: &[u8]) -> Result<&[u8], AllocError>
    ensures same { IfOk result (λ read. read.now ≡ bytes.now) }
    ensures short { IfOk result (λ read. length read.now ≤ 2147483647) }
{
    if bytes.len() <= 2_147_483_647 {
        Ok(bytes)
    } else {
        Err(AllocError)
    }
}

/// The invariant that these bytes spell.
pub fn invariant_in(alloc: Global, bytes: &[u8]) -> Result<Invariant, AllocError>
    requires short { length bytes.now ≤ 2147483647 }
    requires invariant { IsInvariant bytes.now }
    ensures value { IfOk result (λ invariant. invariant.states.items ≡ states_in bytes.now) }
    ensures spellable { IfOk result (λ invariant. AreSpellable invariant.states.items) }
{
    match read_invariant(alloc, bytes) {
        Ok(invariant) => Ok(invariant),
        // Memory ran out, since the bytes have no fault.
        Err(_) => Err(AllocError),
    }
}

/// Judges a unit under the invariant that a cache file holds for it.
fn judge_held(
    alloc: Global,
    code: &UnitFlow,
    show: bool,
    bytes: &[u8],
) -> Result<CachedUnit, AllocError>
    requires lawful { IsLawful code.now }
    requires short { length bytes.now ≤ 2147483647 }
    requires invariant { IsInvariant bytes.now }
    ensures { IfOk result (λ unit. AreVerdictsUnder show code.now (states_in bytes.now) unit.found) }
{
    let invariant = invariant_in(alloc, bytes)?;
    judge_stated(alloc, code, show, &invariant)
}

/// Judges the unit of these bytes under what a cache file holds for it, or else under what the finder answers.
pub fn judge_cached<D: Finder>(
    alloc: Global,
    code: &UnitFlow,
    key: &[u8],
    show: bool,
    keeps: bool,
    cache: &Cache,
    finder: &mut D,
) -> Result<CachedUnit, AllocError>
    requires short { AreShort cache.now }
    requires unit { IsUnit code.now.unit }
    requires flow { code.now ≡ flow_of code.now.unit }
    requires key { key.now ≡ unit_bytes code.now.unit }
    ensures cached { IfOk result (IsCached show keeps (OfCache cache.now) key.now) }
    ensures asked { Asks (without_entry cache.now (key.now ∷ [])) result (D.asked finder.old) (D.asked finder.new) }
{
    match cache.get(key) {
        Some(bytes) => judge_held(alloc, code, show, bytes),
        None => judge_found(alloc, code, show, keeps, finder),
    }
}

/// Judges the unit of these bytes under what a proof file states of it, or else under the states of no blocks. Nothing
/// is kept of it.
pub fn judge_proved(
    alloc: Global,
    code: &UnitFlow,
    key: &[u8],
    show: bool,
    proved: &ProvedUnits,
) -> Result<CachedUnit, AllocError>
    requires unit { IsUnit code.now.unit }
    requires flow { code.now ≡ flow_of code.now.unit }
    requires key { key.now ≡ unit_bytes code.now.unit }
    ensures { IfOk result (IsCached show false (OfProof proved.now) key.now) }
{
    match proved.get(key) {
        Some(invariant) => judge_stated(alloc, code, show, invariant),
        None => judge_stated(
            alloc,
            code,
            show,
            &Invariant {
                states: Vec::new(alloc),
            },
        ),
    }
}
