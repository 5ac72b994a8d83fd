//! Whether states, one for each block, are an invariant.

ghost use Rattle.std.specs.Prelude.{◌≡◌, ◌<◌, ◌↔◌, length, IfOk, IsTrue};
ghost use Rattle.transfer_rules.specs.Inductive.{AllCarried, AllFit, AreBeforeLast, AreBegun, HasShape, HoldsInRuns, HoldsWhereItComes, IsBegun, IsCarried, IsInductive};
ghost use Rattle.unit_flow.specs.Flow.{IsLawful};

use crate::entry::entry_state;
use crate::forms::fits;
use crate::walks::{before_last, leave};
use abs_state::AbsState;
use domain_api::{Lattice, NoMemory};
use std::alloc::Global;
use unit_flow::UnitFlow;

/// Returns whether each state fits the block of its place.
#[tactic(auto, using(crate::proofs::Inducing::few_blocks))]
fn all_fit(code: &UnitFlow, states: &[AbsState]) -> bool
    requires lawful { IsLawful code.now }
    requires count { length states.now ≡ length code.now.graph.blocks }
    ensures { IsTrue result ↔ AllFit code.now states.now }
{
    for block in 0..states.len() {
        if !fits(code, block as u32, &states[block]) {
            return false;
        }
    }
    true
}

/// Returns whether there is a state for each block and each fits its block: nothing is reached, or it has one variable
/// for each argument at the entry, argument, local and value on the stack there, of a form that fits its kind. Where
/// typing does not come, nothing is reached. Takes no memory.
pub fn has_shape(code: &UnitFlow, states: &[AbsState]) -> bool
    requires lawful { IsLawful code.now }
    ensures exact { IsTrue result ↔ HasShape code.now states.now }
{
    states.len() == code.graph.blocks.as_slice().len() && all_fit(code, states)
}

/// Returns whether the state along an edge, from the one before the last instruction of its source, is included in that
/// of its target.
fn is_carried(
    alloc: Global,
    code: &UnitFlow,
    states: &[AbsState],
    befores: &[AbsState],
    edge: usize,
) -> Result<bool, NoMemory>
    requires lawful { IsLawful code.now }
    requires shape { HasShape code.now states.now }
    requires befores { AreBeforeLast code.now states.now befores.now }
    requires edge { edge < length code.now.graph.edges }
    ensures { IfOk result (λ yes. IsTrue yes ↔ IsCarried code.now states.now edge) }
{
    let way = code.graph.edges.as_slice()[edge];
    let before = befores[way.from as usize].copy(alloc)?;
    let behind = leave(alloc, before, code, edge)?;
    behind.leq(alloc, &states[way.to as usize])
}

/// Returns whether the state along each edge from that of its source is included in that of its target. `befores` has
/// for each block the state before its last instruction, from its state.
///
/// Cost: one rule and one normal form for each edge, up to the first that is not included.
pub fn all_carried(
    alloc: Global,
    code: &UnitFlow,
    states: &[AbsState],
    befores: &[AbsState],
) -> Result<bool, NoMemory>
    requires lawful { IsLawful code.now }
    requires shape { HasShape code.now states.now }
    requires befores { AreBeforeLast code.now states.now befores.now }
    ensures { IfOk result (λ yes. IsTrue yes ↔ AllCarried code.now states.now) }
{
    for edge in 0..code.graph.edges.as_slice().len() {
        if !is_carried(alloc, code, states, befores, edge)? {
            return Ok(false);
        }
    }
    Ok(true)
}

/// The state before the last instruction of each block, from its state.
#[tactic(auto, using(crate::proofs::Inducing::few_blocks))]
fn all_before_last(
    alloc: Global,
    code: &UnitFlow,
    states: &[AbsState],
) -> Result<Vec<AbsState>, NoMemory>
    requires lawful { IsLawful code.now }
    requires shape { HasShape code.now states.now }
    ensures { IfOk result (λ befores. AreBeforeLast code.now states.now befores.items) }
{
    let mut befores = Vec::with_capacity(alloc, states.len())?;
    for block in 0..states.len() {
        befores.push(before_last(alloc, &states[block], code, block as u32)?)?;
    }
    Ok(befores)
}

/// Returns whether the state where the unit begins is included in that of the first block.
fn is_begun(alloc: Global, code: &UnitFlow, states: &[AbsState]) -> Result<bool, NoMemory>
    requires lawful { IsLawful code.now }
    requires shape { HasShape code.now states.now }
    ensures { IfOk result (λ yes. IsTrue yes ↔ IsBegun code.now states.now) }
{
    let first = &states[0];
    let entry = entry_state(alloc, &code.unit)?;
    entry.leq(alloc, first)
}

/// Returns whether the states have the shape of the unit, and the state where it begins is included in that of the
/// first block.
pub fn are_begun(alloc: Global, code: &UnitFlow, states: &[AbsState]) -> Result<bool, NoMemory>
    requires lawful { IsLawful code.now }
    ensures { IfOk result (λ yes. IsTrue yes ↔ AreBegun code.now states.now) }
{
    if !has_shape(code, states) {
        return Ok(false);
    }
    is_begun(alloc, code, states)
}

/// Returns whether the states are an invariant of the unit.
fn is_inductive(alloc: Global, code: &UnitFlow, states: &[AbsState]) -> Result<bool, NoMemory>
    requires lawful { IsLawful code.now }
    ensures exact { IfOk result (λ yes. IsTrue yes ↔ IsInductive code.now states.now) }
{
    if !are_begun(alloc, code, states)? {
        return Ok(false);
    }
    let befores = all_before_last(alloc, code, states)?;
    all_carried(alloc, code, states, befores.as_slice())
}

/// Returns whether the states are an invariant of the unit: they have its shape, the state where it begins is included
/// in that of the first block, and the state along each edge in that of its target.
///
/// Cost: one walk through each block, and what `all_carried` costs.
pub fn inductive(alloc: Global, code: &UnitFlow, states: &[AbsState]) -> Result<bool, NoMemory>
    requires lawful { IsLawful code.now }
    ensures exact { IfOk result (λ yes. IsTrue yes ↔ IsInductive code.now states.now) }
    // The state of each block then holds of each point that comes there along edges.
    ensures sound { IfOk result (λ yes. IsTrue yes → HoldsWhereItComes code.now states.now) }
    // So it does of each point to which a run of the machine comes there.
    ensures runs { IfOk result (λ yes. IsTrue yes → HoldsInRuns code.now states.now) }
{
    let yes = is_inductive(alloc, code, states)?;
    Ok(yes)
}
