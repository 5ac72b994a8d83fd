//! The states at the returns of a unit.

ghost use Rattle.std.specs.Prelude.{◌≡◌, ◌<◌, ◌++◌, length, IfOk, OnOk};
ghost use Rattle.std.specs.List.{list_any};
ghost use Rattle.cil_model.specs.WellFormed.{IsWellFormed};
ghost use Rattle.invariant_checker.specs.Verdicts.{CanJudge};
ghost use Rattle.obligation_prover.specs.ClausesTested.{CanTest, tested_by};
ghost use Rattle.transfer_rules.specs.Flow.{Fits};
ghost use Rattle.transfer_rules.specs.Inductive.{HasShape};
ghost use Rattle.unit_flow.specs.Flow.{IsLawful};
ghost use Rattle.ensures_infer.specs.Returns as rule;

use abs_state::AbsState;
use cil_model::{Instr, Op, Unit};
use contract_calls::put_result;
use domain_api::NoMemory;
use std::alloc::Global;
use transfer_rules::post;
use unit_flow::UnitFlow;

/// Returns whether an operation returns.
fn is_return(op: &Op) -> bool
    ensures { result ≡ rule.is_return op.now }
{
    matches!(op, Op::Return)
}

/// Appends the state, where something is reached.
fn push_reached(found: &mut Vec<AbsState>, state: AbsState) -> Result<(), NoMemory>
    ensures { OnOk result (found.new.items ≡ found.old.items ++ rule.if_reached state) }
{
    if state.reached() {
        found.push(state)?;
    }
    Ok(())
}

/// Appends the state at an instruction, from the one before it, where it returns: the result was put into its place.
fn push_returned(
    alloc: Global,
    found: &mut Vec<AbsState>,
    state: &AbsState,
    unit: &Unit,
    op: &Op,
) -> Result<(), NoMemory>
    requires ready { CanTest unit.now (tested_by unit.now op.now) state.now }
    ensures { OnOk result (found.new.items ≡ found.old.items ++ rule.returned unit.now op.now state.now) }
{
    if !is_return(op) {
        return Ok(());
    }
    let before = state.copy(alloc)?;
    let returned = put_result(before, unit.result)?;
    push_reached(found, returned)
}

/// Appends the states at the returns among the instructions of a block, from the state before the first of them.
fn push_each(
    alloc: Global,
    found: &mut Vec<AbsState>,
    unit: &Unit,
    instrs: &[Instr],
    mut state: AbsState,
) -> Result<(), NoMemory>
    requires formed { IsWellFormed unit.now }
    requires ready { CanJudge unit.now instrs.now state }
    ensures { OnOk result (found.new.items ≡ found.old.items ++ rule.returns_from unit.now instrs.now state) }
{
    let [others @ .., last] = instrs else {
        return Ok(());
    };
    for instr in others {
        push_returned(alloc, found, &state, unit, &instr.op)?;
        state = post(alloc, state, unit, &instr.op)?;
    }
    push_returned(alloc, found, &state, unit, &last.op)
}

/// Returns whether one of the instructions returns.
fn has_return(instrs: &[Instr]) -> bool
    ensures { result ≡ list_any (λ i. rule.is_return i.op) instrs.now }
{
    instrs.iter().any(|instr| is_return(&instr.op))
}

/// Appends the states at the returns of a block, from its state. A block that does not return is not walked through.
fn push_block(
    alloc: Global,
    found: &mut Vec<AbsState>,
    code: &UnitFlow,
    block: u32,
    state: &AbsState,
) -> Result<(), NoMemory>
    requires lawful { IsLawful code.now }
    requires there { block < length code.now.graph.blocks }
    requires fits { Fits code.now block state.now }
    ensures { OnOk result (found.new.items ≡ found.old.items ++ rule.returns_of_block code.now state.now block) }
{
    let instrs = code.block(block);
    if !has_return(instrs) {
        return Ok(());
    }
    let before = state.copy(alloc)?;
    push_each(alloc, found, &code.unit, instrs, before)
}

/// The states at all returns that are reached, in the order of the code.
///
/// Cost: one walk through each block that returns, with a copy of its state and of that at its return.
pub(crate) fn returns_of(
    alloc: Global,
    code: &UnitFlow,
    states: &[AbsState],
) -> Result<Vec<AbsState>, NoMemory>
    requires lawful { IsLawful code.now }
    requires shape { HasShape code.now states.now }
    ensures { IfOk result (λ found. found.items ≡ rule.returns_of code.now states.now) }
{
    let mut found = Vec::new(alloc);
    for block in 0..states.len() {
        push_block(alloc, &mut found, code, block as u32, &states[block])?;
    }
    Ok(found)
}
