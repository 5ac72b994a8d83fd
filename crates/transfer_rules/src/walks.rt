//! Walks through blocks, and along edges.

ghost use Rattle.std.specs.Prelude.{◌≡◌, ◌+◌, ◌<◌, ◌≤◌, length, IfOk};
ghost use Rattle.std.specs.List.{AllByRecursion};
ghost use Rattle.cil_model.specs.Limits.{MAX_VARIABLES};
ghost use Rattle.transfer_rules.specs.Flow as rule;
ghost use Rattle.transfer_rules.specs.Flow.{AreReady, CanLeave, ComesThrough, Fits};
ghost use Rattle.unit_flow.specs.Flow.{IsLawful, edge_at};
ghost use Rattle.unit_flow.specs.Ways.{IsShortSwitch};

use crate::rules::{along, post};
use abs_state::AbsState;
use cil_model::{Instr, Unit};
use domain_api::NoMemory;
use std::alloc::Global;
use unit_flow::UnitFlow;

/// Takes a state through these instructions of a block, but the last.
fn walk(
    alloc: Global,
    mut state: AbsState,
    unit: &Unit,
    instrs: &[Instr],
) -> Result<AbsState, NoMemory>
    requires few { length unit.now.args + length unit.now.locals + unit.now.max_stack ≤ MAX_VARIABLES }
    requires ready { AreReady unit.now instrs.now state }
    ensures { IfOk result (λ before. before ≡ rule.up_to_last unit.now instrs.now state) }
{
    let [others @ .., _] = instrs else {
        return Ok(state);
    };
    for instr in others {
        state = post(alloc, state, unit, &instr.op)?;
    }
    Ok(state)
}

/// The state before the last instruction of a block, from the one at its start.
///
/// Cost: that of the rules of the instructions before the last.
pub(crate) fn before_last(
    alloc: Global,
    state: &AbsState,
    code: &UnitFlow,
    block: u32,
) -> Result<AbsState, NoMemory>
    requires lawful { IsLawful code.now }
    requires there { block < length code.now.graph.blocks }
    requires fits { Fits code.now block state.now }
    ensures { IfOk result (λ before. before ≡ rule.before_last state.now code.now block) }
{
    let begun = state.copy(alloc)?;
    walk(alloc, begun, &code.unit, code.block(block))
}

/// Takes the state before the last of these instructions along the way of this number on from it.
fn go_on_from_last(
    alloc: Global,
    state: AbsState,
    unit: &Unit,
    instrs: &[Instr],
    number: u32,
) -> Result<AbsState, NoMemory>
    requires few { length unit.now.args + length unit.now.locals + unit.now.max_stack ≤ MAX_VARIABLES }
    requires ready { CanLeave unit.now instrs.now state }
    requires short { AllByRecursion (λ i. IsShortSwitch i.op) instrs.now }
    ensures { IfOk result (λ behind. behind ≡ rule.from_last unit.now number instrs.now state) }
{
    let [.., last] = instrs else {
        return Ok(state);
    };
    along(alloc, state, unit, &last.op, number)
}

/// The state at the end of an edge in normal form, from the one before the last instruction of the block that it
/// leaves.
///
/// Cost: that of one rule, and of a normal form.
pub(crate) fn leave(
    alloc: Global,
    state: AbsState,
    code: &UnitFlow,
    edge: usize,
) -> Result<AbsState, NoMemory>
    requires lawful { IsLawful code.now }
    requires there { edge < length code.now.graph.edges }
    requires came { ComesThrough code.now (edge_at code.now edge).from state }
    ensures { IfOk result (λ behind. behind ≡ rule.leaving state code.now edge) }
{
    let edge = code.graph.edges.as_slice()[edge];
    let instrs = code.block(edge.from);
    let behind = go_on_from_last(alloc, state, &code.unit, instrs, edge.number)?;
    behind.norm(alloc)
}

/// The state at the end of an edge, from the one at its begin, in normal form.
///
/// Cost: that of the rules of the instructions of the block that the edge leaves.
pub(crate) fn along_edge(
    alloc: Global,
    state: &AbsState,
    code: &UnitFlow,
    edge: usize,
) -> Result<AbsState, NoMemory>
    requires lawful { IsLawful code.now }
    requires there { edge < length code.now.graph.edges }
    requires fits { Fits code.now (edge_at code.now edge).from state.now }
    ensures { IfOk result (λ behind. behind ≡ rule.along_edge state.now code.now edge) }
{
    let way = code.graph.edges.as_slice()[edge];
    let before = before_last(alloc, state, code, way.from)?;
    leave(alloc, before, code, edge)
}
