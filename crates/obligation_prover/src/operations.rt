//! What instructions do that may end in a fault.

ghost use Rattle.std.specs.Prelude.{◌≡◌, IfSome};
ghost use Rattle.std.specs.Option.{ForSome, option_and_then};
ghost use Rattle.state_facts.specs.Forms.{HasForm};
ghost use Rattle.state_obligations.specs.Conditions.{AreThere, IsThere, conditions_of};
ghost use Rattle.obligation_prover.specs.Entailed as entailed;
ghost use Rattle.obligation_prover.specs.Operations as rule;

use abs_state::{AbsState, Var};
use cil_model::{BinOp, FaultKind, Op, Unit, UnitCall, unit_call};
use state_obligations::{Condition, Operation};

/// The length of a reference.
fn length_of(array: Option<Var>) -> Option<Operation>
    ensures { result ≡ rule.length_of array }
{
    match array {
        Some(Var::Reference(r)) => Some(Operation::Length(r)),
        Some(Var::Number(_) | Var::Text | Var::Address(..)) | None => None,
    }
}

/// An item of a reference.
fn element_of(array: Option<Var>, index: Option<Var>) -> Option<Operation>
    ensures { result ≡ rule.element_of array index }
{
    match (array, index) {
        (Some(Var::Reference(r)), Some(Var::Number(i))) => Some(Operation::Element(r, i)),
        (Some(Var::Reference(_)), Some(Var::Reference(_) | Var::Text | Var::Address(..)) | None)
        | (Some(Var::Number(_) | Var::Text | Var::Address(..)) | None, _) => None,
    }
}

/// A new array of a length.
fn array_of(length: Option<Var>) -> Option<Operation>
    ensures { result ≡ rule.array_of length }
{
    match length {
        Some(Var::Number(n)) => Some(Operation::NewArray(n)),
        Some(Var::Reference(_) | Var::Text | Var::Address(..)) | None => None,
    }
}

/// An operator of two numbers.
fn binary_of(op: BinOp, first: Option<Var>, second: Option<Var>) -> Option<Operation>
    ensures { result ≡ rule.binary_of op first second }
{
    match (first, second) {
        (Some(Var::Number(a)), Some(Var::Number(b))) => Some(Operation::Binary(op, a, b)),
        (Some(Var::Number(_)), Some(Var::Reference(_) | Var::Text | Var::Address(..)) | None)
        | (Some(Var::Reference(_) | Var::Text | Var::Address(..)) | None, _) => None,
    }
}

/// The assertion of a number.
fn assertion_of(condition: Option<Var>) -> Option<Operation>
    ensures { result ≡ rule.assertion_of condition }
{
    match condition {
        Some(Var::Number(e)) => Some(Operation::Assert(e)),
        Some(Var::Reference(_) | Var::Text | Var::Address(..)) | None => None,
    }
}

/// The item of an address.
fn item_of(address: Option<Var>) -> Option<Operation>
    ensures { result ≡ rule.item_of address }
{
    match address {
        Some(Var::Address(r, i)) => Some(Operation::Element(r, i)),
        Some(Var::Number(_) | Var::Reference(_) | Var::Text) | None => None,
    }
}

/// What a call asserts.
fn call_operation(call: Option<UnitCall>, state: &AbsState) -> Option<Operation>
    ensures { result ≡ option_and_then (rule.call_operation call) state.now }
{
    match call {
        Some(UnitCall::Assert(message)) => assertion_of(state.from_top(usize::from(message))),
        Some(
            UnitCall::Requires(_)
            | UnitCall::Ensures(_)
            | UnitCall::Assume(_)
            | UnitCall::EndContractBlock
            | UnitCall::Result(_)
            | UnitCall::OldValue(_)
            | UnitCall::Callee(_),
        )
        | None => None,
    }
}

/// What an instruction with this operation does that may end in a fault, by its rule.
#[tactic(auto, unfolding(crate::specs::Operations::operation_of), using(crate::proofs::Reading::other_read))]
fn found_operation(op: &Op, state: &AbsState) -> Option<Operation>
    ensures { result ≡ option_and_then (rule.operation_of op.now) state.now }
{
    match op {
        Op::Length => length_of(state.from_top(0)),
        Op::LoadElem(_) => element_of(state.from_top(1), state.from_top(0)),
        Op::StoreElem(_) => element_of(state.from_top(2), state.from_top(1)),
        Op::LoadAddr(_) => element_of(state.from_top(1), state.from_top(0)),
        Op::NewArray(_) => array_of(state.from_top(0)),
        Op::Bin(op) => binary_of(*op, state.from_top(1), state.from_top(0)),
        Op::Call(number) => call_operation(unit_call(*number), state),
        Op::Nop
        | Op::LoadArg(_)
        | Op::StoreArg(_)
        | Op::LoadLocal(_)
        | Op::StoreLocal(_)
        | Op::Null
        | Op::Const(_)
        | Op::Dup
        | Op::Pop
        | Op::Return
        | Op::Branch(_, _)
        | Op::Switch(_)
        | Op::Neg
        | Op::Not
        | Op::ConvI4
        | Op::Text(_)
        | Op::LoadInd(_)
        | Op::StoreInd(_) => None,
    }
}

/// What an instruction with this operation does that may end in a fault, over its operands, which lie on the stack.
/// None where it does no such thing, where its operands are not there, and where nothing is reached.
pub(crate) fn operation_of(op: &Op, state: &AbsState) -> Option<Operation>
    ensures value { result ≡ option_and_then (rule.operation_of op.now) state.now }
    ensures there { IfSome result (λ operation. ForSome state.now (λ known. AreThere known (conditions_of operation))) }
    ensures form { ForSome state.now HasForm }
{
    if !state.reached() {
        return None;
    }
    found_operation(op, state)
}

/// What is assumed to have ended in no fault once an instruction with this operation went on, by its rule.
#[tactic(auto, using(crate::proofs::Reading::judged_read))]
fn found_assumption(op: &Op, state: &AbsState) -> Option<Operation>
    ensures { result ≡ option_and_then (rule.assumed_operation op.now) state.now }
{
    match op {
        Op::LoadInd(_) => item_of(state.from_top(0)),
        Op::StoreInd(_) => item_of(state.from_top(1)),
        Op::Nop
        | Op::LoadArg(_)
        | Op::StoreArg(_)
        | Op::LoadLocal(_)
        | Op::StoreLocal(_)
        | Op::Null
        | Op::Const(_)
        | Op::Dup
        | Op::Pop
        | Op::Call(_)
        | Op::Return
        | Op::Branch(_, _)
        | Op::Switch(_)
        | Op::Bin(_)
        | Op::Neg
        | Op::Not
        | Op::ConvI4
        | Op::Text(_)
        | Op::NewArray(_)
        | Op::Length
        | Op::LoadElem(_)
        | Op::StoreElem(_)
        | Op::LoadAddr(_) => found_operation(op, state),
    }
}

/// What is assumed to have ended in no fault once an instruction with this operation went on: what it is judged by, and
/// of a load or a store through an address that its item is there. None as above.
pub(crate) fn assumed_operation(op: &Op, state: &AbsState) -> Option<Operation>
    ensures value { result ≡ option_and_then (rule.assumed_operation op.now) state.now }
    ensures there { IfSome result (λ operation. ForSome state.now (λ known. AreThere known (conditions_of operation))) }
    ensures form { ForSome state.now HasForm }
{
    if !state.reached() {
        return None;
    }
    found_assumption(op, state)
}

/// The condition of an instruction of the unit that is of this fault, among those that it is judged by.
pub(crate) fn condition_of(
    _unit: &Unit,
    op: &Op,
    kind: FaultKind,
    state: &AbsState,
) -> Option<Condition>
    ensures value { result ≡ option_and_then (entailed.condition_of _unit.now op.now kind) state.now }
    ensures there { IfSome result (λ condition. ForSome state.now (λ known. IsThere known condition)) }
    ensures form { ForSome state.now HasForm }
{
    match operation_of(op, state) {
        Some(operation) => operation.condition(kind),
        None => None,
    }
}
