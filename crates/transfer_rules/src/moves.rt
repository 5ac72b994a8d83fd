//! Moves between variables and the stack, of a state that may be reached or not.

ghost use Rattle.std.specs.Prelude.{◌≡◌, OnOk};
ghost use Rattle.std.specs.Option.{ForSome, option_and_then};
ghost use Rattle.state_facts.specs.Forms.{HasVar};
ghost use Rattle.transfer_rules.specs.Acts as rule;

use crate::operands::{refuse, take};
use abs_state::{AbsState, Var};
use cil_model::Place;
use domain_api::NoMemory;

/// Copies a variable to the top.
#[tactic(auto, using(crate::proofs::Moving::moving))]
pub(crate) fn load(state: &mut AbsState, i: u32) -> Result<(), NoMemory>
    ensures { OnOk result (state.new ≡ option_and_then (rule.loaded i) state.old) }
{
    if u64::from(i) >= state.var_count() {
        refuse(state);
        return Ok(());
    }
    let value = state.var(i);
    state.push(value)
}

/// Copies the top.
#[tactic(auto, using(crate::proofs::Moving::moving))]
pub(crate) fn duplicate(state: &mut AbsState) -> Result<(), NoMemory>
    ensures { OnOk result (state.new ≡ option_and_then rule.duplicated state.old) }
{
    let Some(top) = state.from_top(0) else {
        refuse(state);
        return Ok(());
    };
    state.push(top)
}

/// Puts a value into a variable of this type.
#[tactic(auto, using(crate::proofs::Moving::moving))]
fn put_into(state: &mut AbsState, i: u32, place: Place, value: Var) -> Result<(), NoMemory>
    requires there { ForSome state.old (λ known. HasVar known value) }
    ensures { OnOk result (state.new ≡ option_and_then (rule.put_into i place value) state.old) }
{
    if u64::from(i) >= state.var_count() {
        refuse(state);
        return Ok(());
    }
    state.put(i, value, place)
}

/// Puts the top into a variable of this type.
#[tactic(auto, using(crate::proofs::Moving::moving))]
pub(crate) fn store(state: &mut AbsState, i: u32, place: Place) -> Result<(), NoMemory>
    ensures { OnOk result (state.new ≡ option_and_then (rule.stored i place) state.old) }
{
    let Some(top) = take(state)? else {
        refuse(state);
        return Ok(());
    };
    put_into(state, i, place, top)
}
