//! The state after an instruction, and along each way on from it.

ghost use Rattle.std.specs.Prelude.{◌≡◌, ◌+◌, ◌≤◌, length, IfOk};
ghost use Rattle.std.specs.Option.{ForSome};
ghost use Rattle.cil_model.specs.Limits.{MAX_VARIABLES};
ghost use Rattle.state_facts.specs.Forms.{HasForm};
ghost use Rattle.transfer_rules.specs.Owed.{CanDo};
ghost use Rattle.transfer_rules.specs.Post as rule;
ghost use Rattle.transfer_rules.specs.Steps.{HoldsAlong, HoldsBehind};
ghost use Rattle.unit_flow.specs.Ways.{IsShortSwitch};

use crate::acts::act;
use crate::choices::choose;
use abs_state::AbsState;
use cil_model::{Op, Unit};
use domain_api::NoMemory;
use obligation_prover::avoid_all;
use std::alloc::Global;

/// The state after an instruction.
#[tactic(auto, unfolding(crate::specs::Post::post), using(crate::proofs::GoingOn::going_on))]
fn go_on(alloc: Global, state: AbsState, unit: &Unit, op: &Op) -> Result<AbsState, NoMemory>
    requires few { length unit.now.args + length unit.now.locals + unit.now.max_stack ≤ MAX_VARIABLES }
    requires calls { CanDo unit.now op.now state }
    ensures value { IfOk result (λ after. after ≡ rule.post unit.now op.now state) }
    ensures form { ForSome state HasForm }
{
    if !state.reached() {
        return Ok(state);
    }
    let mut after = avoid_all(state, unit, op)?;
    act(alloc, &mut after, unit, op)?;
    Ok(after)
}

/// The state after an instruction: none of its faults came, and its operation did what it does. Of a branch nothing is
/// assumed. Behind a call of a method its Requires are true, and what came back is known by its Ensures. At a return
/// the result stays on top, in its place, and the Ensures of the unit are true.
///
/// The caller owes that the arguments of a call lie on top of the stack and are of their kinds, and so for what a
/// return reads (`CanDo`), as they are where the state fits the kinds there.
///
/// Cost: that of the operation's conditions and of its rule. The error is want of memory, and the state is let go then.
#[tactic(auto, using(crate::proofs::GoingOn::holding))]
pub fn post(alloc: Global, state: AbsState, unit: &Unit, op: &Op) -> Result<AbsState, NoMemory>
    requires few { length unit.now.args + length unit.now.locals + unit.now.max_stack ≤ MAX_VARIABLES }
    requires calls { CanDo unit.now op.now state }
    ensures value { IfOk result (λ after. after ≡ rule.post unit.now op.now state) }
    // It holds of each point to which the instruction leads from one of which the state held.
    ensures sound { IfOk result (λ after. HoldsBehind unit.now op.now state after) }
{
    go_on(alloc, state, unit, op)
}

/// The state along the way of this number on from an instruction.
#[tactic(auto, unfolding(crate::specs::Post::along), using(crate::proofs::GoingOn::going_on))]
fn go_along(
    alloc: Global,
    state: AbsState,
    unit: &Unit,
    op: &Op,
    way: u32,
) -> Result<AbsState, NoMemory>
    requires few { length unit.now.args + length unit.now.locals + unit.now.max_stack ≤ MAX_VARIABLES }
    requires calls { CanDo unit.now op.now state }
    requires short { IsShortSwitch op.now }
    ensures value { IfOk result (λ after. after ≡ rule.along unit.now op.now way state) }
    ensures form { ForSome state HasForm }
{
    if !state.reached() {
        return Ok(state);
    }
    let mut after = avoid_all(state, unit, op)?;
    choose(&mut after, op, way)?;
    act(alloc, &mut after, unit, op)?;
    Ok(after)
}

/// The state along the way of this number on from an instruction. The way of a branch to its target has the number 0
/// and the one after it the number 1, and the ways of a switch are numbered as its targets, before the one after it.
/// Each other instruction has one way.
///
/// The caller owes as for `post`.
///
/// Cost: as of `post`, and that of a comparison. The error is want of memory, and the state is let go then.
#[tactic(auto, using(crate::proofs::GoingOn::holding))]
pub fn along(
    alloc: Global,
    state: AbsState,
    unit: &Unit,
    op: &Op,
    way: u32,
) -> Result<AbsState, NoMemory>
    requires few { length unit.now.args + length unit.now.locals + unit.now.max_stack ≤ MAX_VARIABLES }
    requires calls { CanDo unit.now op.now state }
    requires short { IsShortSwitch op.now }
    ensures value { IfOk result (λ after. after ≡ rule.along unit.now op.now way state) }
    // It holds of each point to which the instruction leads on this way from one of which the state held.
    ensures sound { IfOk result (λ after. HoldsAlong unit.now op.now way state after) }
{
    go_along(alloc, state, unit, op, way)
}
