//! What finds the invariants of units.

ghost use Rattle.std.specs.Prelude.{◌≡◌, ℕ, List, [], ◌∷◌, ◌++◌, map, IfOk, OnOk, OnErr};
ghost use Rattle.state_facts.specs.Sizes.{AreSmall};
ghost use Rattle.unit_flow.specs.Flow.{IsLawful};
ghost use Rattle.unit_form.specs.Spelling.{unit_bytes};
ghost use Rattle.widening_engine.specs.Limits.{limit_of, unit_flow};
ghost use Rattle.widening_engine.specs.Rounds.{limit};
ghost use Rattle.widening_engine.specs.Work.{HasCountedAtMostBy, HasCountedBy, work};

use crate::keeping::kept_limit;
use abs_state::{AbsState, Invariant};
use domain_api::{NoMemory, Ticks};
use std::alloc::Global;
use transfer_rules::UnitState;
use unit_flow::UnitFlow;
use unit_form::unit_bytes;

/// What finds the invariants of units.
pub trait Finder {
    /// The bytes of the units that it was asked for, in order.
    ghost asked: { Self → List (List ℕ) };

    /// The states where the analysis of the unit settles, one for each block.
    ///
    /// `NoMemory` where memory runs out; the unit then does not count as asked for.
    fn find(&mut self, alloc: Global, code: &UnitFlow) -> Result<Invariant, NoMemory>
        requires lawful { IsLawful code.now }
        ensures value { IfOk result (λ found. found.states.items ≡ limit_of code.now) }
        ensures small { IfOk result (λ found. AreSmall found.states.items) }
        ensures asked { OnOk result (asked self.new ≡ asked self.old ++ unit_bytes code.now.unit ∷ []) }
        ensures kept { OnErr result (asked self.new ≡ asked self.old) };
}

/// The states of a unit where they settle.
fn settled_states(
    alloc: Global,
    code: &UnitFlow,
    every: bool,
    meter: &mut Ticks,
) -> Result<Vec<UnitState>, NoMemory>
    requires { IsLawful code.now }
    ensures value { IfOk result (λ states. states.items ≡ limit (unit_flow code.now)) }
    ensures work { HasCountedAtMostBy every (λ equal. work equal (unit_flow code.now)) meter.old.count meter.new.count }
    ensures ticked { OnOk result (HasCountedBy every (λ equal. work equal (unit_flow code.now)) meter.old.count meter.new.count) }
{
    kept_limit::<UnitState>(alloc, code, &code.graph, every, meter)
}

/// The states of blocks, without the kinds of the unit's code.
fn known(alloc: Global, states: Vec<UnitState>) -> Result<Vec<AbsState>, NoMemory>
    ensures { IfOk result (λ known. known.items ≡ map (λ a. a.state) states.items) }
{
    states.into_iter().map(|a| a.state).collect(alloc)
}

/// The states where the analysis of a unit settles, one for each block. The unit then counts as asked for. In each
/// round every edge is computed, or those whose source has changed.
pub(crate) fn find_invariant(
    alloc: Global,
    code: &UnitFlow,
    every: bool,
    asked: &mut Vec<Vec<u8>>,
    meter: &mut Ticks,
) -> Result<Invariant, NoMemory>
    requires lawful { IsLawful code.now }
    ensures value { IfOk result (λ found. found.states.items ≡ limit_of code.now) }
    ensures small { IfOk result (λ found. AreSmall found.states.items) }
    ensures asked { OnOk result (map (λ bytes. bytes.items) asked.new.items ≡ map (λ bytes. bytes.items) asked.old.items ++ unit_bytes code.now.unit ∷ []) }
    ensures kept { OnErr result (map (λ bytes. bytes.items) asked.new.items ≡ map (λ bytes. bytes.items) asked.old.items) }
    // In every answer.
    ensures work { HasCountedAtMostBy every (λ equal. work equal (unit_flow code.now)) meter.old.count meter.new.count }
    ensures ticked { OnOk result (HasCountedBy every (λ equal. work equal (unit_flow code.now)) meter.old.count meter.new.count) }
{
    let bytes = unit_bytes(alloc, &code.unit)?;
    let states = settled_states(alloc, code, every, meter)?;
    let states = known(alloc, states)?;
    asked.push(bytes)?;
    Ok(Invariant { states })
}
