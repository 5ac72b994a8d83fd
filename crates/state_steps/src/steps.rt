//! The rules that change a state.

ghost use Rattle.std.specs.Prelude.{OnOk};
ghost use Rattle.std.specs.Option.{ForSome};
ghost use Rattle.state_facts.specs.Forms.{HasReference};
ghost use Rattle.state_obligations.specs.Conditions.{IsThere};

use abs_state::{AbsState, Var};
use cil_model::{BinOp, Place};
use domain_api::{Expr, Lattice};
use rule_text::{
    Failure, comparison, expr, may_operate, operator, place, reference, three_words, two_words,
};
use state_obligations::Condition;
use state_text::{
    are_alike, has_number, has_reference, has_value, has_variable, has_variables, is_array_place,
    is_comparison, state, value,
};
use std::alloc::Global;
use std::mem;

/// The operator of a word.
fn read_operator(word: &str) -> Result<BinOp, Failure> {
    operator(word).ok_or(Failure::Unread("an operator"))
}

/// The type of a word.
fn read_place(word: &str) -> Result<Place, Failure> {
    place(word).ok_or(Failure::Unread("a type"))
}

/// The number of a variable, or how many.
fn read_count(word: &str) -> Result<u32, Failure> {
    word.parse::<u32>()
        .ok()
        .ok_or(Failure::Unread("a number of variables"))
}

/// `push s1+3`: pushes a value.
pub fn push(alloc: Global, state: &mut AbsState, argument: &str) -> Result<(), Failure> {
    let v = value(argument)?;
    has_value(alloc, state, v)?;
    state.push(v)?;
    Ok(())
}

/// `put 0 s1 bool`: puts a value into a variable of a type.
pub fn put(alloc: Global, state: &mut AbsState, argument: &str) -> Result<(), Failure> {
    let (i, v, to) = three_words(argument)?;
    let (i, v, to) = (read_count(i)?, value(v)?, read_place(to)?);
    has_variable(alloc, state, i)?;
    has_value(alloc, state, v)?;
    state.put(i, v, to)?;
    Ok(())
}

/// `arith add s1 5`: pushes the result of an operator.
pub fn arith(alloc: Global, state: &mut AbsState, argument: &str) -> Result<(), Failure> {
    let (op, a, b) = three_words(argument)?;
    let (op, a, b) = (read_operator(op)?, expr(a)?, expr(b)?);
    has_number(alloc, state, a)?;
    has_number(alloc, state, b)?;
    may_operate(op, b)?;
    state.arith(op, a, b)?;
    Ok(())
}

/// `compare clt s1 5`: pushes the truth of a comparison.
pub fn compare(alloc: Global, state: &mut AbsState, argument: &str) -> Result<(), Failure> {
    let (op, v, w) = three_words(argument)?;
    let (op, v, w) = (read_operator(op)?, value(v)?, value(w)?);
    is_comparison(op)?;
    has_value(alloc, state, v)?;
    has_value(alloc, state, w)?;
    state.compare(op, v, w)?;
    Ok(())
}

/// `assume lt s1 5`: assumes that a comparison holds, or that it does not.
pub fn assume(
    alloc: Global,
    state: &mut AbsState,
    argument: &str,
    holds: bool,
) -> Result<(), Failure> {
    let (op, v, w) = three_words(argument)?;
    let op = comparison(op).ok_or(Failure::Unread("a comparison"))?;
    let (v, w) = (value(v)?, value(w)?);
    has_value(alloc, state, v)?;
    has_value(alloc, state, w)?;
    state.assume(op, v, w, holds)?;
    Ok(())
}

/// `load r1 s1`: pushes the item of an array at an index.
pub fn load(alloc: Global, state: &mut AbsState, argument: &str) -> Result<(), Failure> {
    let (r, at) = two_words(argument)?;
    let (r, at) = (reference(r)?, expr(at)?);
    has_reference(alloc, state, r)?;
    state.load(r, at)?;
    Ok(())
}

/// `store r1 s1 7`: stores a number into an array at an index.
pub fn store(alloc: Global, state: &mut AbsState, argument: &str) -> Result<(), Failure> {
    let (r, at, e) = three_words(argument)?;
    let (r, at, e) = (reference(r)?, expr(at)?, expr(e)?);
    has_reference(alloc, state, r)?;
    has_number(alloc, state, at)?;
    has_number(alloc, state, e)?;
    state.store(r, at, e)?;
    Ok(())
}

/// The reference and the index of the address that a variable has.
fn address_in(state: &AbsState, i: u32) -> Result<(u32, Expr), Failure> {
    match state.var_at(u64::from(i)) {
        Some(Var::Address(r, at)) => Ok((r, at)),
        Some(Var::Number(_) | Var::Reference(_) | Var::Text) | None => {
            Err(Failure::Unmet("the variable has an address"))
        }
    }
}

/// Assumes that a condition is met.
fn assume_met(state: &mut AbsState, condition: Condition) -> Result<(), Failure>
    requires there { ForSome state.old (λ known. IsThere known condition) }
{
    let before = mem::replace(state, AbsState::nothing());
    *state = before.assume_met(condition)?;
    Ok(())
}

/// Assumes that an item is there: the reference is not null, and the index is one of its indexes.
fn assume_item(alloc: Global, state: &mut AbsState, r: u32, at: Expr) -> Result<(), Failure>
    ensures { OnOk result (ForSome state.new (λ known. HasReference known r)) }
{
    has_reference(alloc, state, r)?;
    assume_met(state, Condition::NullUse(r))?;
    has_number(alloc, state, at)?;
    assume_met(state, Condition::Lower(at))?;
    has_value(alloc, state, Var::Address(r, at))?;
    assume_met(state, Condition::Upper(r, at))?;
    has_reference(alloc, state, r)
}

/// `load-at 1`: pushes the item whose address variable 1 has. That it is there is assumed.
pub fn load_at(alloc: Global, state: &mut AbsState, argument: &str) -> Result<(), Failure> {
    let (r, at) = address_in(state, read_count(argument)?)?;
    assume_item(alloc, state, r, at)?;
    state.load(r, at)?;
    Ok(())
}

/// `store-at 1 7`: stores a number into the item whose address variable 1 has. That it is there is assumed first.
pub fn store_at(alloc: Global, state: &mut AbsState, argument: &str) -> Result<(), Failure> {
    let (i, e) = two_words(argument)?;
    let ((r, at), e) = (address_in(state, read_count(i)?)?, expr(e)?);
    assume_item(alloc, state, r, at)?;
    has_number(alloc, state, at)?;
    has_number(alloc, state, e)?;
    state.store(r, at, e)?;
    Ok(())
}

/// `new-array int32[] s1`: pushes a new array of a type and a length.
pub fn new_array(alloc: Global, state: &mut AbsState, argument: &str) -> Result<(), Failure> {
    let (of, length) = two_words(argument)?;
    let (of, length) = (read_place(of)?, expr(length)?);
    is_array_place(of)?;
    has_number(alloc, state, length)?;
    state.new_array(of, length)?;
    Ok(())
}

/// `forget 1 2 int32`: pushes what a call gives to which two variables were passed, from variable 1 on.
pub fn forget(alloc: Global, state: &mut AbsState, argument: &str) -> Result<(), Failure> {
    let (first, count, of) = three_words(argument)?;
    let (first, count, of) = (read_count(first)?, read_count(count)?, read_place(of)?);
    has_variables(alloc, state, first, count)?;
    state.forget(first, count, of)?;
    Ok(())
}

/// `join STATE`: both states as one.
pub fn join(alloc: Global, before: &AbsState, argument: &str) -> Result<AbsState, Failure> {
    let other = state(alloc, argument)?;
    are_alike(before, &other)?;
    Ok(before.join(alloc, &other)?)
}

/// `widen STATE`: a state and its next one as one, with ends that settle.
pub fn widen(alloc: Global, before: &AbsState, argument: &str) -> Result<AbsState, Failure> {
    let other = state(alloc, argument)?;
    are_alike(before, &other)?;
    Ok(before.widen(alloc, &other)?)
}
