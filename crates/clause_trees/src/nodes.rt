//! What the nodes of trees make of the values below them, which lie on the stack. Each answers whether its obligations
//! are entailed, each in the state that assumes those before it. The state then assumes them, and the node's value lies
//! on the stack in place of its operands.
//!
//! A tree pushes its value on the state's stack: all laws of variables speak of it, and no expression is kept beside a
//! state that changes.

ghost use Rattle.std.specs.Prelude.{◌≡◌, IfOk, IsSome, OnOk, Some, is_some};
ghost use Rattle.std.specs.Option.{ForSome};
ghost use Rattle.cil_model.specs.Comparisons.{comparison_of};
ghost use Rattle.frame_names.specs.declared.var.Var.TheVariants as vars;
ghost use Rattle.state_facts.specs.Forms.{HasNumber, HasReference, HasVar};
ghost use Rattle.state_facts.specs.Moves as moves;
ghost use Rattle.state_facts.specs.States as states;
ghost use Rattle.state_obligations.specs.Conditions.{AreThere, conditions_of};
ghost use Rattle.state_obligations.specs.Judged.{judged};
ghost use Rattle.clause_trees.specs.TreeValues as rule;
ghost use Rattle.number_spans.specs.Constants as numbers;
ghost use Rattle.number_spans.specs.Owed.{Divides, Shifts};

use crate::reader::Time;
use crate::stack::{refused, take, take_two};
use abs_state::{AbsState, Var};
use cil_model::{BinOp, Place, UnOp};
use domain_api::{Expr, NoMemory};
use number_spans::constant;
use state_obligations::Operation;
use std::mem;

/// A value that owes nothing.
pub(crate) fn given(state: &mut AbsState, value: Var) -> Result<bool, NoMemory>
    requires there { ForSome state.old (λ known. HasVar known value) }
    ensures { IfOk result (λ entailed. rule.Finds entailed state.new (rule.in_state (rule.given value) state.old)) }
{
    state.push(value)?;
    Ok(true)
}

/// What the variable of a list index has.
pub(crate) fn variable(state: &mut AbsState, index: u64) -> Result<bool, NoMemory>
    ensures { IfOk result (λ entailed.
        rule.Finds entailed state.new (rule.in_state (rule.variable (Some index)) state.old)) }
{
    match state.var_at(index) {
        Some(value) => given(state, value),
        None => Ok(refused(state)),
    }
}

/// What the variable of a list index has, if there is one.
pub(crate) fn variable_if(state: &mut AbsState, index: Option<u32>) -> Result<bool, NoMemory>
    ensures { IfOk result (λ entailed. rule.Finds entailed state.new (rule.in_state (rule.variable index) state.old)) }
{
    match index {
        Some(index) => variable(state, u64::from(index)),
        None => Ok(refused(state)),
    }
}

/// Returns whether each condition of an operation is entailed in the state that assumes those before it. The state then
/// assumes all.
fn judge(state: &mut AbsState, operation: Operation) -> Result<bool, NoMemory>
    requires there { ForSome state.old (λ known. AreThere known (conditions_of operation)) }
    ensures value { IfOk result (λ all. all ≡ (judged (conditions_of operation) state.old).entailed) }
    ensures state { OnOk result (state.new ≡ (judged (conditions_of operation) state.old).state) }
{
    let before = mem::replace(state, AbsState::nothing());
    let found = before.judge(operation)?;
    *state = found.state;
    Ok(found.entailed)
}

/// Pushes the length of a reference.
fn push_length(state: &mut AbsState, r: u32) -> Result<(), NoMemory>
    requires there { ForSome state.old (λ known. HasReference known r) }
    ensures { OnOk result (state.new ≡ rule.push_length r state.old) }
{
    if !state.reached() {
        return Ok(());
    }
    state.push(Var::Number(state.length(r)))
}

/// The length of a reference, which owes that it is not null.
#[tactic(auto, using(crate::proofs::Operands::operands))]
fn length_of(state: &mut AbsState, r: u32) -> Result<bool, NoMemory>
    requires there { ForSome state.old (λ known. HasReference known r) }
    ensures { IfOk result (λ entailed.
        rule.Finds entailed state.new (rule.in_state (rule.length_value (vars.Reference r)) state.old)) }
{
    if !state.reached() {
        return Ok(true);
    }
    let entailed = judge(state, Operation::Length(r))?;
    push_length(state, r)?;
    Ok(entailed)
}

/// The length of the value on top, where it is a reference.
pub(crate) fn length(state: &mut AbsState) -> Result<bool, NoMemory>
    ensures { IfOk result (λ entailed.
        rule.Finds entailed state.new (rule.in_state (rule.on_one rule.length_value) state.old)) }
{
    match take(state)? {
        Some(Var::Reference(r)) => length_of(state, r),
        Some(Var::Number(_) | Var::Text | Var::Address(..)) | None => Ok(refused(state)),
    }
}

/// The type of the items of an array of this type.
fn item_place(place: Place) -> Place
    ensures { result ≡ moves.item_place place }
{
    match place {
        Place::Bools => Place::Bool,
        _ => Place::Int,
    }
}

/// Pushes the item of a reference of this type at an index. Of the items at a method's entry nothing is known.
fn push_item(
    state: &mut AbsState,
    time: Time,
    place: Place,
    r: u32,
    i: Expr,
) -> Result<(), NoMemory>
    requires there { ForSome state.old (λ known. HasReference known r) }
    ensures { OnOk result (state.new ≡ rule.push_item time place r i state.old) }
{
    match time {
        Time::Now => state.load(r, i),
        Time::Entry => state.push_unknown(item_place(place)),
    }
}

/// The item of a reference at an index, which owes that the reference is not null and that the index is one of it.
#[tactic(auto, using(crate::proofs::Operands::operands))]
fn element_of(
    state: &mut AbsState,
    time: Time,
    place: Place,
    r: u32,
    i: Expr,
) -> Result<bool, NoMemory>
    requires reference { ForSome state.old (λ known. HasReference known r) }
    requires index { ForSome state.old (λ known. HasNumber known i) }
    ensures { IfOk result (λ entailed. rule.Finds entailed state.new
        (rule.in_state (rule.element_value time place (vars.Reference r) (vars.Number i)) state.old)) }
{
    if !state.reached() {
        return Ok(true);
    }
    let entailed = judge(state, Operation::Element(r, i))?;
    push_item(state, time, place, r, i)?;
    Ok(entailed)
}

/// The item of the lower value at the upper one, where these are a reference and a number.
pub(crate) fn element(state: &mut AbsState, time: Time, place: Place) -> Result<bool, NoMemory>
    ensures { IfOk result (λ entailed.
        rule.Finds entailed state.new (rule.in_state (rule.on_two (rule.element_value time place)) state.old)) }
{
    match take_two(state)? {
        (Some(Var::Reference(r)), Some(Var::Number(i))) => element_of(state, time, place, r, i),
        _ => Ok(refused(state)),
    }
}

/// Pushes the result of an operator whose conditions are assumed.
fn push_result(state: &mut AbsState, op: BinOp, a: Expr, b: Expr) -> Result<(), NoMemory>
    requires first { ForSome state.old (λ known. HasNumber known a) }
    requires second { ForSome state.old (λ known. HasNumber known b) }
    requires divisor { ForSome state.old (λ _. Divides op b) }
    requires amount { ForSome state.old (λ _. Shifts op b) }
    ensures { OnOk result (state.new ≡ states.arith op a b state.old) }
{
    if !state.reached() {
        return Ok(());
    }
    state.arith(op, a, b)
}

/// The result of an operator of two numbers, which owes that the operator does not fault.
#[tactic(auto, using(crate::proofs::Operands::operands))]
fn arithmetic(state: &mut AbsState, op: BinOp, a: Expr, b: Expr) -> Result<bool, NoMemory>
    requires first { ForSome state.old (λ known. HasNumber known a) }
    requires second { ForSome state.old (λ known. HasNumber known b) }
    ensures { IfOk result (λ entailed.
        rule.Finds entailed state.new (rule.in_state (rule.arithmetic op a b) state.old)) }
{
    if !state.reached() {
        return Ok(true);
    }
    let entailed = judge(state, Operation::Binary(op, a, b))?;
    push_result(state, op, a, b)?;
    Ok(entailed)
}

/// The truth of a comparison, which owes nothing.
fn comparison(state: &mut AbsState, op: BinOp, a: Var, b: Var) -> Result<bool, NoMemory>
    requires comparison { IsSome (comparison_of op) }
    requires first { ForSome state.old (λ known. HasVar known a) }
    requires second { ForSome state.old (λ known. HasVar known b) }
    ensures { IfOk result (λ entailed.
        rule.Finds entailed state.new (rule.in_state (rule.comparison op a b) state.old)) }
{
    state.compare(op, a, b)?;
    Ok(true)
}

/// Returns whether the operator is a comparison.
fn is_comparison(op: BinOp) -> bool
    ensures { result ≡ is_some (comparison_of op) }
{
    matches!(
        op,
        BinOp::Ceq | BinOp::Cgt | BinOp::CgtUn | BinOp::Clt | BinOp::CltUn
    )
}

/// What an operator gives of two numbers.
#[tactic(auto, using(crate::proofs::StackLemmas::two_numbers))]
fn binary_of_numbers(state: &mut AbsState, op: BinOp, a: Expr, b: Expr) -> Result<bool, NoMemory>
    requires first { ForSome state.old (λ known. HasNumber known a) }
    requires second { ForSome state.old (λ known. HasNumber known b) }
    ensures { IfOk result (λ entailed. rule.Finds entailed state.new
        (rule.in_state (rule.binary_value op (vars.Number a) (vars.Number b)) state.old)) }
{
    if is_comparison(op) {
        comparison(state, op, Var::Number(a), Var::Number(b))
    } else {
        arithmetic(state, op, a, b)
    }
}

/// What an operator gives of two references. They are compared alone.
#[tactic(auto, using(crate::proofs::StackLemmas::two_references))]
fn binary_of_references(state: &mut AbsState, op: BinOp, r: u32, q: u32) -> Result<bool, NoMemory>
    requires first { ForSome state.old (λ known. HasReference known r) }
    requires second { ForSome state.old (λ known. HasReference known q) }
    ensures { IfOk result (λ entailed. rule.Finds entailed state.new
        (rule.in_state (rule.binary_value op (vars.Reference r) (vars.Reference q)) state.old)) }
{
    if is_comparison(op) {
        comparison(state, op, Var::Reference(r), Var::Reference(q))
    } else {
        Ok(refused(state))
    }
}

/// What an operator gives of two values.
#[tactic(auto, using(crate::proofs::StackLemmas::mixed_refused))]
fn binary_of(state: &mut AbsState, op: BinOp, v: Var, w: Var) -> Result<bool, NoMemory>
    requires first { ForSome state.old (λ known. HasVar known v) }
    requires second { ForSome state.old (λ known. HasVar known w) }
    ensures { IfOk result (λ entailed.
        rule.Finds entailed state.new (rule.in_state (rule.binary_value op v w) state.old)) }
{
    match (v, w) {
        (Var::Number(a), Var::Number(b)) => binary_of_numbers(state, op, a, b),
        (Var::Reference(r), Var::Reference(q)) => binary_of_references(state, op, r, q),
        _ => Ok(refused(state)),
    }
}

/// What an operator gives of the two uppermost values.
pub(crate) fn binary(state: &mut AbsState, op: BinOp) -> Result<bool, NoMemory>
    ensures { IfOk result (λ entailed.
        rule.Finds entailed state.new (rule.in_state (rule.on_two (rule.binary_value op)) state.old)) }
{
    match take_two(state)? {
        (Some(v), Some(w)) => binary_of(state, op, v, w),
        _ => Ok(refused(state)),
    }
}

/// What an operator of one number is subtracted from: `neg` is 0 - e, and `not` is -1 - e.
fn minuend(op: UnOp) -> Expr
    ensures { result ≡ numbers.constant (rule.minuend op) }
{
    match op {
        UnOp::Neg => constant(0),
        UnOp::Not => constant(-1),
    }
}

/// What an operator gives of the value on top, where it is a number.
pub(crate) fn unary(state: &mut AbsState, op: UnOp) -> Result<bool, NoMemory>
    ensures { IfOk result (λ entailed.
        rule.Finds entailed state.new (rule.in_state (rule.on_one (rule.unary_value op)) state.old)) }
{
    match take(state)? {
        Some(Var::Number(e)) => arithmetic(state, BinOp::Sub, minuend(op), e),
        Some(Var::Reference(_) | Var::Text | Var::Address(..)) | None => Ok(refused(state)),
    }
}
