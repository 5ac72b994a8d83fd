//! The rules on states in the blocks of a unit and along its edges.

ghost use Rattle.std.specs.Prelude.{◌≡◌, ◌+◌, ◌<◌, ◌≤◌, length, IfSome, OnOk};
ghost use Rattle.cil_model.specs.Limits.{MAX_VARIABLES};
ghost use Rattle.invariant_checker.specs.Verdicts.{CanJudge};
ghost use Rattle.transfer_rules.specs.Inductive.{HasShape};
ghost use Rattle.unit_flow.specs.Flow.{IsLawful};

use abs_state::AbsState;
use cil_model::{Instr, Unit};
use domain_api::{FlowState, Ticks};
use rule_text::{Failure, asked};
use state_text::{state, state_text};
use std::alloc::Global;
use transfer_rules::{UnitState, has_shape, post};
use unit_flow::UnitFlow;

/// The number of a block, of an edge, or an IL offset.
pub fn read_number(word: &str) -> Result<u32, Failure> {
    word.parse::<u32>().ok().ok_or(Failure::Unread("a number"))
}

/// The state that was found is the one that is told.
fn check_state(alloc: Global, found: &AbsState, told: &str) -> Result<(), Failure> {
    if found.same(&state(alloc, told)?) {
        Ok(())
    } else {
        Err(Failure::Found(state_text(alloc, found)?))
    }
}

/// There is a state for each block of the unit, of its form.
fn fit_all(code: &UnitFlow, states: &[AbsState]) -> Result<(), Failure>
    requires lawful { IsLawful code.now }
    ensures { OnOk result (HasShape code.now states.now) }
{
    if has_shape(code, states) {
        Ok(())
    } else {
        Err(Failure::Unmet("there is a state for each block, and it fits"))
    }
}

/// `entry = STATE`: the state where the unit begins.
pub fn entry(alloc: Global, code: &UnitFlow, told: &str) -> Result<(), Failure>
    requires lawful { IsLawful code.now }
{
    let entry = UnitState::entry(alloc, code)?;
    check_state(alloc, &entry.state, told)
}

/// `unknown 2 = STATE`: the state of a block of which nothing is known.
pub fn unknown(alloc: Global, code: &UnitFlow, argument: &str) -> Result<(), Failure>
    requires lawful { IsLawful code.now }
{
    let (block, told) = asked(argument)?;
    let block = read_number(block)?;
    if block as usize >= code.graph.blocks.as_slice().len() {
        return Err(Failure::Unmet("the block is there"));
    }
    let unknown = UnitState::unknown(alloc, code, block)?;
    check_state(alloc, &unknown.state, told)
}

/// `edge 2 = STATE`: the state along an edge, from that of the block that it leaves.
pub fn edge(
    alloc: Global,
    code: &UnitFlow,
    states: &[AbsState],
    argument: &str,
) -> Result<(), Failure>
    requires lawful { IsLawful code.now }
{
    let (edge, told) = asked(argument)?;
    let edge = read_number(edge)?;
    let edges = code.graph.edges.as_slice();
    if edge as usize >= edges.len() {
        return Err(Failure::Unmet("the edge is there"));
    }
    fit_all(code, states)?;
    let from = edges[edge as usize].from;
    let before = UnitState {
        state: states[from as usize].copy(alloc)?,
    };
    let mut meter = Ticks { count: 0 };
    let behind = before.along_edge(alloc, code, edge, &mut meter)?;
    check_state(alloc, &behind.state, told)
}

/// Takes a state through these instructions up to the one at an IL offset, and behind it.
fn go_behind(
    alloc: Global,
    state: AbsState,
    unit: &Unit,
    instrs: &[Instr],
    at: u32,
) -> Result<AbsState, Failure>
    requires few { length unit.now.args + length unit.now.locals + unit.now.max_stack ≤ MAX_VARIABLES }
    requires ready { CanJudge unit.now instrs.now state }
{
    let [first, others @ ..] = instrs else {
        return Err(Failure::Unmet("the instruction is there"));
    };
    let behind = post(alloc, state, unit, &first.op)?;
    if first.at == at {
        return Ok(behind);
    }
    go_behind(alloc, behind, unit, others, at)
}

/// The last block that starts at an IL offset or before it.
fn block_at(starts: &[u32], at: u32) -> Option<usize>
    ensures { IfSome result (λ block. block < length starts.now) }
{
    starts.iter().rposition(|start| *start <= at)
}

/// `post 9 = STATE`: the state behind the instruction at an IL offset, in normal form, from that of its block.
pub fn behind(
    alloc: Global,
    code: &UnitFlow,
    states: &[AbsState],
    argument: &str,
) -> Result<(), Failure>
    requires lawful { IsLawful code.now }
{
    let (at, told) = asked(argument)?;
    let at = read_number(at)?;
    let Some(block) = block_at(code.graph.blocks.as_slice(), at) else {
        return Err(Failure::Unmet("the instruction is there"));
    };
    fit_all(code, states)?;
    let begun = states[block].copy(alloc)?;
    let behind = go_behind(alloc, begun, &code.unit, code.block(block as u32), at)?;
    check_state(alloc, &behind.norm(alloc)?, told)
}
