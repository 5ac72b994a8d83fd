//! The arguments of a call, and the result of a return.

ghost use Rattle.std.specs.Prelude.{◌≡◌, ◌*◌, ◌≤◌, IfOk, OnOk, length};
ghost use Rattle.std.specs.Option.{ForSome};
ghost use Rattle.cil_model.specs.Limits.{MAX_VARIABLES};
ghost use Rattle.clause_trees.specs.VariableKinds.{HasSameFormsIn};
ghost use Rattle.state_facts.specs.Forms.{HasForm};
ghost use Rattle.contract_calls.specs.Arguments as rule;
ghost use Rattle.contract_calls.specs.CallForms.{HasFew};
ghost use Rattle.contract_calls.specs.Meaning.{KeepsArgs, KeepsResult};

use abs_state::AbsState;
use cil_model::Place;
use domain_api::NoMemory;

/// The list index of the first of so many uppermost variables.
pub(crate) fn first_of(state: &AbsState, count: usize) -> u32
    requires few { HasFew state.now }
    ensures { result ≡ rule.first_of count state.now }
{
    let all = state.var_count() as usize;
    if count < all { (all - count) as u32 } else { 0 }
}

/// Puts what a variable has into a place of this type.
fn put_slot(state: &mut AbsState, i: u32, place: Place) -> Result<(), NoMemory>
    ensures { OnOk result (state.new ≡ rule.put_slot i place state.old) }
{
    match state.var_at(u64::from(i)) {
        Some(v) => state.put(i, v, place),
        None => Ok(()),
    }
}

/// Puts variables into places of these types, one after the other from a list index on.
fn put_from(state: &mut AbsState, first: u32, places: &[Place]) -> Result<(), NoMemory>
    requires few { first ≤ 2 * MAX_VARIABLES }
    requires few_places { length places.now ≤ MAX_VARIABLES }
    ensures { OnOk result (state.new ≡ rule.put_from first places.now state.old) }
{
    let mut i = first;
    for place in places {
        put_slot(state, i, *place)?;
        i += 1;
    }
    Ok(())
}

/// Puts the arguments of a call into the places of its parameters.
#[tactic(auto, unfolding(crate::specs::Arguments::put_args), using(crate::proofs::AtCalls::none_put))]
fn put_each(mut state: AbsState, places: &[Place]) -> Result<AbsState, NoMemory>
    requires few { HasFew state }
    requires few_places { length places.now ≤ MAX_VARIABLES }
    ensures ok { IfOk result (λ new. new ≡ rule.put_args places.now state) }
    ensures form { ForSome state HasForm }
{
    if !state.reached() {
        return Ok(state);
    }
    let first = first_of(&state, places.len());
    put_from(&mut state, first, places)?;
    Ok(state)
}

/// The state in which the arguments of a call are put into the places of its parameters, as the machine does. They lie
/// on top of the stack, the last one uppermost.
///
/// Here as below the error is want of memory, where the state is let go, and nothing is copied.
pub fn put_args(state: AbsState, places: &[Place]) -> Result<AbsState, NoMemory>
    requires few { HasFew state }
    requires few_places { length places.now ≤ MAX_VARIABLES }
    ensures value { IfOk result (λ new. new ≡ rule.put_args places.now state) }
    ensures keeps { IfOk result (λ new. KeepsArgs places.now state new) }
    // As many variables stay, of the same forms.
    ensures forms { IfOk result (λ new. ForSome state (λ known. HasSameFormsIn known new)) }
{
    put_each(state, places)
}

/// Puts the result of a return into its place.
#[tactic(auto, unfolding(crate::specs::Arguments::put_result))]
fn put_one(state: AbsState, place: Place) -> Result<AbsState, NoMemory>
    requires few { HasFew state }
    ensures ok { IfOk result (λ new. new ≡ rule.put_result place state) }
    ensures form { ForSome state HasForm }
{
    match place {
        Place::Void => put_each(state, &[]),
        _ => put_each(state, &[place]),
    }
}

/// The state in which what a return gives is put into the place of the result, as the machine does. It lies on top of
/// the stack, unless this is the place of no value.
pub fn put_result(state: AbsState, place: Place) -> Result<AbsState, NoMemory>
    requires few { HasFew state }
    ensures value { IfOk result (λ new. new ≡ rule.put_result place state) }
    ensures keeps { IfOk result (λ new. KeepsResult place state new) }
    // As many variables stay, of the same forms.
    ensures forms { IfOk result (λ new. ForSome state (λ known. HasSameFormsIn known new)) }
{
    put_one(state, place)
}
