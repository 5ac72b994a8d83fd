//! What a state says where a fault did not come.

ghost use Rattle.std.specs.Prelude.{◌≡◌, IfOk};
ghost use Rattle.std.specs.Option.{ForSome};
ghost use Rattle.state_facts.specs.Forms.{HasForm};
ghost use Rattle.obligation_prover.specs.Avoiding as rule;
ghost use Rattle.obligation_prover.specs.Meaning.{AssumesNoFault};

use crate::operations::{assumed_operation, condition_of};
use abs_state::AbsState;
use cil_model::{FaultKind, Op, Unit};
use domain_api::NoMemory;

/// Assumes that the condition is met that the fault is the want of.
fn assume_met(state: AbsState, unit: &Unit, op: &Op, kind: FaultKind) -> Result<AbsState, NoMemory>
    ensures value { IfOk result (λ new. new ≡ rule.avoid unit.now op.now kind state) }
    ensures form { ForSome state HasForm }
{
    match condition_of(unit, op, kind, &state) {
        Some(condition) => state.assume_met(condition),
        None => Ok(state),
    }
}

/// The state that assumes that an instruction of the unit with this operation did not end in the fault. Where it cannot
/// be otherwise, nothing is reached.
///
/// Cost: that of one comparison or two. The error is want of memory, and the state is let go then.
pub fn avoid(state: AbsState, unit: &Unit, op: &Op, kind: FaultKind) -> Result<AbsState, NoMemory>
    ensures value { IfOk result (λ new. new ≡ rule.avoid unit.now op.now kind state) }
    // Where the instruction ends in no fault, the state holds as before.
    ensures sound { IfOk result (λ new. AssumesNoFault unit.now op.now state new) }
{
    assume_met(state, unit, op, kind)
}

/// Assumes that each condition is met that a state after an operation assumes.
fn assume_all_met(state: AbsState, op: &Op) -> Result<AbsState, NoMemory>
    ensures value { IfOk result (λ new. new ≡ rule.avoid_all op.now state) }
    ensures form { ForSome state HasForm }
{
    match assumed_operation(op, &state) {
        Some(operation) => Ok(state.judge(operation)?.state),
        None => Ok(state),
    }
}

/// The state that assumes that an instruction of the unit with this operation did not end in a fault, one after another
/// in the order in which the machine tests for them. Of a load or a store through an address it assumes that its item
/// is there.
///
/// Cost: that of each condition. The error is want of memory, and the state is let go then.
pub fn avoid_all(state: AbsState, unit: &Unit, op: &Op) -> Result<AbsState, NoMemory>
    ensures value { IfOk result (λ new. new ≡ rule.avoid_all op.now state) }
    // Where the instruction ends in no fault, the state holds as before.
    ensures sound { IfOk result (λ new. AssumesNoFault unit.now op.now state new) }
{
    assume_all_met(state, op)
}
