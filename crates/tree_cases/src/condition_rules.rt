//! The rules on the conditions of operations.

ghost use Rattle.std.specs.Prelude.{IfOk, IfSome, OnOk};
ghost use Rattle.std.specs.Option.{ForSome};
ghost use Rattle.state_obligations.specs.Conditions.{AreThere, IsThere, conditions_of};

use abs_state::AbsState;
use cil_model::FaultKind;
use rule_text::{Failure, asked, check, check_yes, expr, fault, operator, reference};
use state_obligations::{Condition, Operation};
use state_text::{has_number, has_reference};
use std::alloc::Global;
use std::mem;

/// The operation of a text: `length r1`, `element r1 s1`, `newarr s1`, `assert s1`, or an operator and two numbers.
fn named(text: &str) -> Result<Operation, Failure> {
    let mut words = text.split_whitespace();
    let (name, first, second) = (words.next(), words.next(), words.next());
    match (name, first, second) {
        (Some("length"), Some(r), None) => Ok(Operation::Length(reference(r)?)),
        (Some("element"), Some(r), Some(i)) => Ok(Operation::Element(reference(r)?, expr(i)?)),
        (Some("newarr"), Some(n), None) => Ok(Operation::NewArray(expr(n)?)),
        (Some("assert"), Some(e), None) => Ok(Operation::Assert(expr(e)?)),
        (Some(name), Some(a), Some(b)) => match operator(name) {
            Some(op) => Ok(Operation::Binary(op, expr(a)?, expr(b)?)),
            None => Err(Failure::Unread("an operation")),
        },
        _ => Err(Failure::Unread("an operation")),
    }
}

/// What an operation names is there, where something is reached.
#[tactic(auto, using(crate::proofs::Conditions::operations_there))]
fn are_there(alloc: Global, state: &AbsState, operation: Operation) -> Result<(), Failure>
    ensures { OnOk result (ForSome state.now (λ known. AreThere known (conditions_of operation))) }
{
    match operation {
        Operation::Length(r) => has_reference(alloc, state, r),
        Operation::Element(r, i) => {
            has_reference(alloc, state, r)?;
            has_number(alloc, state, i)
        }
        Operation::NewArray(e) | Operation::Assert(e) => has_number(alloc, state, e),
        Operation::Binary(_, a, b) => {
            has_number(alloc, state, a)?;
            has_number(alloc, state, b)
        }
    }
}

/// The operation of a text, of which what it names is there.
fn operation(alloc: Global, state: &AbsState, text: &str) -> Result<Operation, Failure>
    ensures { IfOk result (λ found. ForSome state.now (λ known. AreThere known (conditions_of found))) }
{
    let found = named(text)?;
    are_there(alloc, state, found)?;
    Ok(found)
}

/// The condition that an operation has for a fault, if it has one.
fn condition_of(
    alloc: Global,
    state: &AbsState,
    operation: Operation,
    kind: FaultKind,
) -> Result<Option<Condition>, Failure>
    ensures { IfOk result (λ found. IfSome found (λ it. ForSome state.now (λ known. IsThere known it))) }
{
    are_there(alloc, state, operation)?;
    match operation.condition(kind) {
        Some(condition) if condition.fault() == kind => Ok(Some(condition)),
        Some(_) => Err(Failure::Unread("the condition of its fault")),
        None => Ok(None),
    }
}

/// The faults that an operation may have, in the order in which they are told.
const FAULTS: [&str; 9] = [
    "null-use",
    "lower-bound",
    "upper-bound",
    "array-size",
    "shift-amount",
    "division-by-zero",
    "division-overflow",
    "overflow",
    "assert",
];

/// `owes element r1 s1 = null-use yes, lower-bound no`: the conditions that an operation has by themselves, and whether
/// the state entails each.
pub fn owes(alloc: Global, state: &AbsState, argument: &str) -> Result<(), Failure> {
    let (text, told) = asked(argument)?;
    let operation = operation(alloc, state, text)?;
    let mut found = String::new(alloc);
    for name in &FAULTS {
        let kind = fault(name).ok_or(Failure::Unread("a fault"))?;
        let Some(condition) = condition_of(alloc, state, operation, kind)? else {
            continue;
        };
        let is = if state.entails(condition) {
            "yes"
        } else {
            "no"
        };
        if !found.is_empty() {
            found.push_str(", ")?;
        }
        write!(found, "{name} {is}")?;
    }
    check(found, told)
}

/// `assume-no null-use element r1 s1`: assumes the condition that an operation has for a fault.
pub fn assume_no(alloc: Global, state: &mut AbsState, argument: &str) -> Result<(), Failure> {
    let Some((name, text)) = argument.split_once(' ') else {
        return Err(Failure::Unread("a fault and an operation"));
    };
    let operation = operation(alloc, state, text)?;
    let kind = fault(name).ok_or(Failure::Unread("a fault"))?;
    let Some(condition) = condition_of(alloc, state, operation, kind)? else {
        return Err(Failure::Unread("a fault of the operation"));
    };
    let before = mem::replace(state, AbsState::nothing());
    *state = before.assume_met(condition)?;
    Ok(())
}

/// `judged element r1 s1 = yes`: whether each condition of an operation is entailed in the state that assumes those
/// before it. The state then assumes all.
pub fn judged(alloc: Global, state: &mut AbsState, argument: &str) -> Result<(), Failure> {
    let (text, told) = asked(argument)?;
    let operation = operation(alloc, state, text)?;
    let before = mem::replace(state, AbsState::nothing());
    let judged = before.judge(operation)?;
    *state = judged.state;
    check_yes(alloc, judged.entailed, told)
}
