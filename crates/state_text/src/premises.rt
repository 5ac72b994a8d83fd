//! The tests of what a rule asks of its caller. An error is a premise that is not met.

ghost use Rattle.std.specs.Prelude.{◌≡◌, ◌<◌, ◌≤◌, ◌+◌, length, IfOk, OnOk, IsSome};
ghost use Rattle.std.specs.Option.{ForSome};
ghost use Rattle.cil_model.specs.Comparisons.{comparison_of};
ghost use Rattle.merged_states.specs.Alike.{AreLikeStates};
ghost use Rattle.number_facts.specs.Facts.{IsNamed};
ghost use Rattle.state_facts.specs.Forms.{HasNumber, HasReference, HasVar, IsArrayPlace};

use abs_state::{AbsState, Var};
use cil_model::{BinOp, Place};
use domain_api::{Expr, NoMemory};
use rule_text::Failure;
use std::alloc::Global;

/// How many variables there are, and how many symbols and references besides 0. None where nothing is reached.
#[derive(Clone, Copy)]
struct Sizes {
    variables: usize,
    symbols: usize,
    references: usize,
}

/// How much there is.
fn sizes_of(alloc: Global, state: &AbsState) -> Result<Sizes, NoMemory>
    ensures variables { IfOk result (λ sizes. ForSome state.now (λ known. sizes.variables ≡ length known.variables)) }
    ensures symbols { IfOk result (λ sizes. ForSome state.now (λ known. sizes.symbols ≡ length known.facts.ranges)) }
    ensures references { IfOk result (λ sizes. ForSome state.now (λ known. sizes.references ≡ length known.references)) }
{
    let parts = state.parts(alloc)?;
    Ok(Sizes {
        variables: parts.variables.len(),
        symbols: parts.ranges.len(),
        references: parts.references.len(),
    })
}

/// Something is reached.
pub fn reached(state: &AbsState) -> Result<(), Failure>
    ensures { OnOk result (IsSome state.now) }
{
    if state.reached() {
        Ok(())
    } else {
        Err(Failure::Unmet("something is reached"))
    }
}

/// The symbol of a number is there, where something is reached.
pub fn has_symbol(alloc: Global, state: &AbsState, e: Expr) -> Result<(), Failure>
    ensures { OnOk result (ForSome state.now (λ known. IsNamed known.facts e)) }
{
    let sizes = sizes_of(alloc, state)?;
    if !state.reached() || e.sym as usize <= sizes.symbols {
        Ok(())
    } else {
        Err(Failure::Unmet("the number's symbol is there"))
    }
}

/// It is, and its constant is one of -2^32 to 2^32.
pub fn has_number(alloc: Global, state: &AbsState, e: Expr) -> Result<(), Failure>
    ensures { OnOk result (ForSome state.now (λ known. HasNumber known e)) }
{
    has_symbol(alloc, state, e)?;
    if !state.reached() || (-4_294_967_296 <= e.k && e.k <= 4_294_967_296) {
        Ok(())
    } else {
        Err(Failure::Unmet("the number's constant has at most 33 bits"))
    }
}

/// The reference is there, where something is reached.
pub fn has_reference(alloc: Global, state: &AbsState, r: u32) -> Result<(), Failure>
    ensures { OnOk result (ForSome state.now (λ known. HasReference known r)) }
{
    let sizes = sizes_of(alloc, state)?;
    if !state.reached() || r as usize <= sizes.references {
        Ok(())
    } else {
        Err(Failure::Unmet("the reference is there"))
    }
}

/// What a variable may have is there, where something is reached.
pub fn has_value(alloc: Global, state: &AbsState, v: Var) -> Result<(), Failure>
    ensures { OnOk result (ForSome state.now (λ known. HasVar known v)) }
{
    match v {
        Var::Number(e) => has_number(alloc, state, e),
        Var::Reference(r) => has_reference(alloc, state, r),
        Var::Text => Ok(()),
        Var::Address(r, index) => {
            has_reference(alloc, state, r)?;
            has_number(alloc, state, index)
        }
    }
}

/// The variable is there, where something is reached.
pub fn has_variable(alloc: Global, state: &AbsState, i: u32) -> Result<(), Failure>
    ensures { OnOk result (ForSome state.now (λ known. i < length known.variables)) }
{
    let sizes = sizes_of(alloc, state)?;
    if !state.reached() || (i as usize) < sizes.variables {
        Ok(())
    } else {
        Err(Failure::Unmet("the variable is there"))
    }
}

/// So many variables from one on are there, where something is reached.
pub fn has_variables(alloc: Global, state: &AbsState, first: u32, count: u32) -> Result<(), Failure>
    ensures { OnOk result (ForSome state.now (λ known. first + count ≤ length known.variables)) }
{
    let sizes = sizes_of(alloc, state)?;
    if !state.reached() || u64::from(first) + u64::from(count) <= sizes.variables as u64 {
        Ok(())
    } else {
        Err(Failure::Unmet("the variables are there"))
    }
}

/// The type is one of arrays.
pub fn is_array_place(place: Place) -> Result<(), Failure>
    ensures { OnOk result (IsArrayPlace place) }
{
    match place {
        Place::Bools | Place::Ints => Ok(()),
        _ => Err(Failure::Unmet("the type is one of arrays")),
    }
}

/// The operator is a comparison.
pub fn is_comparison(op: BinOp) -> Result<(), Failure>
    ensures { OnOk result (IsSome (comparison_of op)) }
{
    match op {
        BinOp::Ceq | BinOp::Cgt | BinOp::CgtUn | BinOp::Clt | BinOp::CltUn => Ok(()),
        _ => Err(Failure::Unmet("the operator is a comparison")),
    }
}

/// Two states may be joined, widened and compared.
pub fn are_alike(a: &AbsState, b: &AbsState) -> Result<(), Failure>
    ensures { OnOk result (AreLikeStates a.now b.now) }
{
    if a.is_like(b) {
        Ok(())
    } else {
        Err(Failure::Unmet("both states have variables of the same kinds"))
    }
}
