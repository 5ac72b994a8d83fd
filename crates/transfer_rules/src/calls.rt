//! Calls of methods, and returns.

ghost use Rattle.std.specs.Prelude.{◌≡◌, OnOk, slice_get};
ghost use Rattle.std.specs.Option.{option_and_then, option_copied};
ghost use Rattle.cil_model.specs.WellFormed.{IsCallee};
ghost use Rattle.contract_calls.specs.CallForms.{CanCall};
ghost use Rattle.contract_calls.specs.CallStates.{called, given_back};
ghost use Rattle.transfer_rules.specs.Acts as rule;
ghost use Rattle.transfer_rules.specs.Owed.{CanCallIt, CanGiveBack};

use crate::operands::refuse;
use abs_state::AbsState;
use cil_model::{CalleeInfo, Unit};
use domain_api::NoMemory;
use std::alloc::Global;
use std::mem;

/// Makes a state that behind a call of the callee.
fn call_back(alloc: Global, state: &mut AbsState, callee: &CalleeInfo) -> Result<(), NoMemory>
    requires formed { IsCallee callee.now }
    requires ready { CanCall callee.now state.old }
    ensures { OnOk result (state.new ≡ called callee.now state.old) }
{
    let before = mem::replace(state, AbsState::nothing());
    *state = contract_calls::call(alloc, before, callee)?;
    Ok(())
}

/// The entry of the unit's callee of this number, if there is one.
fn callee_of(unit: &Unit, number: u32) -> Option<&CalleeInfo>
    ensures { option_copied result ≡ slice_get unit.now.callees number }
{
    unit.callees.as_slice().get(number as usize)
}

/// Calls the unit's callee of this number. Where there is none, nothing is reached behind the call.
#[tactic(auto, using(crate::proofs::Calling::calling))]
pub(crate) fn pass_callee(
    alloc: Global,
    state: &mut AbsState,
    unit: &Unit,
    number: u32,
) -> Result<(), NoMemory>
    requires ready { CanCallIt (slice_get unit.now.callees number) state.old }
    ensures { OnOk result (state.new ≡ option_and_then (rule.after_callee (slice_get unit.now.callees number)) state.old) }
{
    match callee_of(unit, number) {
        Some(callee) => call_back(alloc, state, callee),
        None => {
            refuse(state);
            Ok(())
        }
    }
}

/// Makes a state that of a return: the result is in its place, and each Ensures of the unit is true.
#[tactic(auto, using(crate::proofs::Calling::returning))]
pub(crate) fn pass_return(alloc: Global, state: &mut AbsState, unit: &Unit) -> Result<(), NoMemory>
    requires ready { CanGiveBack unit.now state.old }
    ensures { OnOk result (state.new ≡ given_back unit.now state.old) }
{
    let before = mem::replace(state, AbsState::nothing());
    *state = contract_calls::give_back(alloc, before, unit)?;
    Ok(())
}
