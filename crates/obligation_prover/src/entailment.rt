//! When a state rules a fault out.

ghost use Rattle.std.specs.Prelude.{◌≡◌, true};
ghost use Rattle.std.specs.Option.{ForSome};
ghost use Rattle.state_facts.specs.Forms.{HasForm};
ghost use Rattle.obligation_prover.specs.Entailed as rule;
ghost use Rattle.obligation_prover.specs.Meaning.{RulesOut};

use crate::operations::condition_of;
use abs_state::AbsState;
use cil_model::{FaultKind, Op, Unit};

/// Returns whether the condition is entailed that the fault is the want of.
fn is_ruled_out(state: &AbsState, unit: &Unit, op: &Op, kind: FaultKind) -> bool
    ensures value { result ≡ rule.rules_out unit.now op.now kind state.now }
    ensures form { ForSome state.now HasForm }
{
    match condition_of(unit, op, kind, state) {
        Some(condition) => state.entails(condition),
        None => !state.reached(),
    }
}

/// Returns whether a state rules out that an instruction of the unit with this operation ends in the fault. It is to
/// assume already that the faults that are tested before it did not come.
///
/// Cost: that of the condition. It takes no memory.
pub fn rules_out(state: &AbsState, unit: &Unit, op: &Op, kind: FaultKind) -> bool
    ensures value { result ≡ rule.rules_out unit.now op.now kind state.now }
    // The machine does not end in a fault that is ruled out.
    ensures sound { result ≡ true → RulesOut unit.now op.now kind state.now }
{
    is_ruled_out(state, unit, op, kind)
}
