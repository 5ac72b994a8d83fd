//! What an instruction does to the frame that runs, where it neither calls a method nor returns.

ghost use Rattle.std.specs.Prelude.{◌≡◌, ℕ, false};
ghost use Rattle.std.specs.List.{AllByRecursion};
ghost use Rattle.cil_model.specs.declared.instruction.Op.TheVariants as ops;
ghost use Rattle.cil_eval.specs.Actions.{Does, IsTakenFrom, goes_on, stored_by, when};
ghost use Rattle.cil_eval.specs.Performs.{IsKept, Performs, Stays, push_of};
ghost use Rattle.cil_eval.specs.StackRows.{IsLength, contract_row};

use crate::action::Action;
use crate::frames::Frames;
use crate::{address_rows, array_rows, stack_rows};
use cil_model::{Op, Place, UnOp, Unit, UnitCall, Value, array_place, unit_call};
use clause_eval::{Memory, Pile, put};

/// Takes a value, and puts it into a variable of these places, where it has one of this number that takes the value.
fn store(
    n: u16,
    places: &[Place],
    memory: &Memory,
    stack: &mut Pile<Value>,
    variables: &mut Pile<Value>,
) -> bool
    ensures stored { when result (stack.new.top, variables.new.top) ≡ stored_by memory.now.heap places.now n variables.old.top stack.old.top }
    ensures taken { IsTakenFrom stack.old stack.new }
    ensures kept { IsKept variables.old variables.new }
{
    let (Some(place), Some(value)) = (places.get(usize::from(n)), stack.pop()) else {
        return false;
    };
    match put(memory, *place, value) {
        Some(value) => {
            variables.set(usize::from(n), value);
            true
        }
        None => false,
    }
}

/// A call of `Contract` that a body may have.
fn contract_call(call: Option<UnitCall>, stack: &mut Pile<Value>) -> Action
    ensures does { Does (contract_row call) result stack.old.top stack.new.top }
    ensures taken { IsTakenFrom stack.old stack.new }
{
    match call {
        Some(UnitCall::Assert(message)) => stack_rows::assert(message, stack),
        Some(UnitCall::Assume(message)) => stack_rows::assume(message, stack),
        Some(
            UnitCall::Requires(_)
            | UnitCall::Ensures(_)
            | UnitCall::EndContractBlock
            | UnitCall::Result(_)
            | UnitCall::OldValue(_)
            | UnitCall::Callee(_),
        )
        | None => Action::Stuck,
    }
}

/// A push of a variable, if it is there.
fn pushed(value: Option<Value>) -> Action
    ensures { result ≡ push_of value }
{
    match value {
        Some(value) => Action::Push(value),
        None => Action::Stuck,
    }
}

/// A store to an argument.
fn store_arg(n: u16, unit: &Unit, frames: &mut Frames, memory: &Memory) -> Action
    ensures performs { (cells : ℕ) → Performs cells unit.now (ops.StoreArg n) result frames.old frames.new memory.now.heap memory.now.heap }
    ensures stays { Stays frames.old frames.new }
{
    let args = &mut frames.args;
    if store(n, unit.args.as_slice(), memory, &mut frames.stack, args) {
        Action::Next
    } else {
        Action::Stuck
    }
}

/// A store to a local.
fn store_local(n: u16, unit: &Unit, frames: &mut Frames, memory: &Memory) -> Action
    ensures performs { (cells : ℕ) → Performs cells unit.now (ops.StoreLocal n) result frames.old frames.new memory.now.heap memory.now.heap }
    ensures stays { Stays frames.old frames.new }
{
    let locals = &mut frames.locals;
    if store(n, unit.locals.as_slice(), memory, &mut frames.stack, locals) {
        Action::Next
    } else {
        Action::Stuck
    }
}

/// Returns what an operation does that neither calls a method nor returns (ECMA-335 III.3 and III.4).
pub(crate) fn perform(op: &Op, unit: &Unit, frames: &mut Frames, memory: &mut Memory) -> Action
    ensures performs { AllByRecursion IsLength frames.old.stack.top → Performs memory.old.limit unit.now op.now result frames.old frames.new memory.old.heap memory.new.heap }
    ensures stays { Stays frames.old frames.new }
    ensures ended { goes_on result ≡ false → memory.new.heap ≡ memory.old.heap }
    ensures limit { memory.new.limit ≡ memory.old.limit }
{
    match op {
        Op::Nop => Action::Next,
        Op::LoadArg(n) => pushed(frames.args.get(usize::from(*n))),
        Op::StoreArg(n) => store_arg(*n, unit, frames, memory),
        Op::LoadLocal(n) => pushed(frames.locals.get(usize::from(*n))),
        Op::StoreLocal(n) => store_local(*n, unit, frames, memory),
        Op::Null => Action::Push(Value::Null),
        Op::Const(n) => Action::Push(Value::Int(*n)),
        Op::Text(_) => Action::Push(Value::Text),
        Op::Dup => stack_rows::duplicate(&mut frames.stack),
        Op::Pop => stack_rows::pop(&mut frames.stack),
        Op::Call(number) => contract_call(unit_call(*number), &mut frames.stack),
        Op::Return => Action::Stuck,
        Op::Branch(test, target) => stack_rows::branch(*test, *target, &mut frames.stack),
        Op::Switch(targets) => stack_rows::switch(targets.as_slice(), &mut frames.stack),
        Op::Bin(op) => stack_rows::binary(*op, &mut frames.stack),
        Op::Neg => stack_rows::unary(UnOp::Neg, &mut frames.stack),
        Op::Not => stack_rows::unary(UnOp::Not, &mut frames.stack),
        Op::ConvI4 => stack_rows::convert(&mut frames.stack),
        Op::NewArray(number) => {
            array_rows::new_array(array_place(*number), &mut frames.stack, memory)
        }
        Op::Length => array_rows::length(&mut frames.stack, memory),
        Op::LoadElem(place) => array_rows::load(*place, &mut frames.stack, memory),
        Op::StoreElem(place) => array_rows::store(*place, &mut frames.stack, memory),
        Op::LoadAddr(number) => {
            address_rows::address(array_place(*number), &mut frames.stack, memory)
        }
        Op::LoadInd(place) => address_rows::load(*place, &mut frames.stack, memory),
        Op::StoreInd(place) => address_rows::store(*place, &mut frames.stack, memory),
    }
}
