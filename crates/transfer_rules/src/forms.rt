//! Whether the variables of states have the forms of kinds.
//!
//! What is not the form of an operand ends in a state that is never reached, and an obligation there is not entailed:
//! so definitions are total, and their code owes nothing but the state's form.

ghost use Rattle.std.specs.Prelude.{◌≡◌, ◌*◌, ◌+◌, ◌<◌, ◌≤◌, ◌↔◌, length, map, slice_get, IsSome, IsTrue};
ghost use Rattle.std.specs.Option.{ForSome};
ghost use Rattle.cil_model.specs.Limits.{MAX_VARIABLES};
ghost use Rattle.state_facts.specs.StateFacts.{variables_in};
ghost use Rattle.transfer_rules.specs.FitTests as test;
ghost use Rattle.transfer_rules.specs.Flow.{Fits};
ghost use Rattle.transfer_rules.specs.Forms as rule;
ghost use Rattle.unit_flow.specs.Flow.{IsLawful};

use abs_state::{AbsState, Var};
use cil_model::{Kind, Place, Unit};
use unit_flow::UnitFlow;

/// The kind of a variable of this type.
fn kind_in(place: Place) -> Kind
    ensures { result ≡ rule.kind_in place }
{
    match place {
        Place::Bools => Kind::Bools,
        Place::Ints => Kind::Ints,
        Place::Bool | Place::Int | Place::Void => Kind::Int,
    }
}

/// Returns whether a reference is null, or one to arrays of this type.
fn is_null_or(state: &AbsState, place: Place, r: u32) -> bool
    requires reached { IsSome state.now }
    ensures { ForSome state.now (λ known. result ≡ test.is_null_or place r known) }
{
    r == 0 || state.place(r) == place
}

/// Returns whether a reference is one to arrays of this type, which null is not.
fn is_one_of(state: &AbsState, place: Place, r: u32) -> bool
    requires reached { IsSome state.now }
    ensures { ForSome state.now (λ known. result ≡ test.is_one_of place r known) }
{
    r != 0 && state.place(r) == place
}

/// Returns whether what a variable has fits a kind.
fn fits_kind(state: &AbsState, kind: Kind, value: Var) -> bool
    requires reached { IsSome state.now }
    ensures { ForSome state.now (λ known. result ≡ test.fits_kind kind value known) }
{
    match (kind, value) {
        (Kind::Int | Kind::Native, Var::Number(_)) | (Kind::Text, Var::Text) => true,
        (Kind::Ints, Var::Reference(r)) => is_null_or(state, Place::Ints, r),
        (Kind::Bools, Var::Reference(r)) => is_null_or(state, Place::Bools, r),
        (Kind::NullRef, Var::Reference(r)) => r == 0,
        (Kind::AddrInts, Var::Address(r, _)) => is_one_of(state, Place::Ints, r),
        (Kind::AddrBools, Var::Address(r, _)) => is_one_of(state, Place::Bools, r),
        _ => false,
    }
}

/// Returns whether the variable of a list index is there and fits a kind.
fn fits_at(state: &AbsState, kind: Kind, i: usize) -> bool
    requires reached { IsSome state.now }
    ensures { result ≡ test.fits_there kind (slice_get (variables_in state.now) i) state.now }
{
    match state.var_at(i as u64) {
        Some(value) => fits_kind(state, kind, value),
        None => false,
    }
}

/// Returns whether the variables from this list index on fit the types.
fn fit_places(state: &AbsState, first: usize, places: &[Place]) -> bool
    requires reached { IsSome state.now }
    requires few { first ≤ 3 * MAX_VARIABLES }
    ensures { result ≡ test.fit_from state.now (map rule.kind_in places.now) first }
{
    for (i, place) in places.iter().enumerate() {
        if !fits_at(state, kind_in(*place), first + i) {
            return false;
        }
    }
    true
}

/// Returns whether the variables from this list index on fit the kinds.
fn fit_kinds(state: &AbsState, first: usize, kinds: &[Kind]) -> bool
    requires reached { IsSome state.now }
    requires few { first ≤ 3 * MAX_VARIABLES }
    ensures { result ≡ test.fit_from state.now kinds.now first }
{
    for (i, kind) in kinds.iter().enumerate() {
        if !fits_at(state, *kind, first + i) {
            return false;
        }
    }
    true
}

/// Returns whether the variables of a frame over a stack of these kinds, the bottom first, fit.
fn fit_frame(state: &AbsState, unit: &Unit, kinds: &[Kind]) -> bool
    requires reached { IsSome state.now }
    requires few { length unit.now.args + length unit.now.locals + unit.now.max_stack ≤ MAX_VARIABLES }
    ensures { result ≡ test.fit_frame unit.now kinds.now state.now }
{
    let args = unit.args.as_slice();
    let locals = unit.locals.as_slice();
    fit_places(state, 0, args)
        && fit_places(state, args.len(), args)
        && fit_places(state, args.len() + args.len(), locals)
        && fit_kinds(state, args.len() + args.len() + locals.len(), kinds)
}

/// Returns whether there is a variable for each of them, and they fit.
fn fit_stack(state: &AbsState, unit: &Unit, kinds: &[Kind]) -> bool
    requires reached { IsSome state.now }
    requires few { length unit.now.args + length unit.now.locals + unit.now.max_stack ≤ MAX_VARIABLES }
    ensures { result ≡ test.fit_stack unit.now kinds.now state.now }
{
    let args = unit.args.as_slice().len();
    let count = args + args + unit.locals.as_slice().len() + kinds.len();
    state.var_count() == count as u64 && fit_frame(state, unit, kinds)
}

/// Returns whether the state fits the start of a block.
pub(crate) fn fits(code: &UnitFlow, block: u32, state: &AbsState) -> bool
    requires lawful { IsLawful code.now }
    requires block { block < length code.now.graph.blocks }
    ensures { IsTrue result ↔ Fits code.now block state.now }
{
    if !state.reached() {
        return true;
    }
    match code.kinds_at(block) {
        None => false,
        Some(kinds) => fit_stack(state, &code.unit, kinds),
    }
}
