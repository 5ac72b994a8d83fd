//! How many values operations take from the stack (ECMA-335 III.1.5).

ghost use Rattle.std.specs.Prelude.{◌≡◌, slice_get};
ghost use Rattle.std.specs.Option.{option_copied};
ghost use Rattle.cil_model.specs.Kinds.{call_operands, operand_count, result_count, test_operands};

use crate::instruction::{Op, Test};
use crate::place::Place;
use crate::shape::Shape;
use crate::unit::CalleeInfo;
use crate::unit_numbers::{UnitCall, unit_call};

/// Returns how many values a result of this place is.
fn result_count(place: Place) -> usize
    ensures { result ≡ result_count place }
{
    match place {
        Place::Void => 0,
        Place::Bool | Place::Int | Place::Bools | Place::Ints => 1,
    }
}

/// The entry of a callee, if the shape has one.
pub fn callee(shape: &Shape, number: u32) -> Option<&CalleeInfo>
    ensures { option_copied result ≡ slice_get shape.now.callees number }
{
    shape.callees.as_slice().get(number as usize)
}

fn call_operands(shape: &Shape, call: Option<UnitCall>) -> usize
    ensures { result ≡ call_operands shape.now call }
{
    match call {
        Some(
            UnitCall::Requires(message)
            | UnitCall::Ensures(message)
            | UnitCall::Assert(message)
            | UnitCall::Assume(message),
        ) => 1 + usize::from(message),
        Some(UnitCall::OldValue(_)) => 1,
        Some(UnitCall::Callee(number)) => match callee(shape, number) {
            Some(info) => info.args.as_slice().len(),
            None => 0,
        },
        Some(UnitCall::EndContractBlock | UnitCall::Result(_)) | None => 0,
    }
}

fn test_operands(test: Test) -> usize
    ensures { result ≡ test_operands test }
{
    match test {
        Test::Always => 0,
        Test::Cmp(_) => 2,
        Test::True | Test::False => 1,
    }
}

/// Returns how many values the operation takes.
pub fn operand_count(shape: &Shape, op: &Op) -> usize
    ensures { result ≡ operand_count shape.now op.now }
{
    match op {
        Op::Call(number) => call_operands(shape, unit_call(*number)),
        Op::Return => result_count(shape.result),
        Op::Branch(test, _) => test_operands(*test),
        Op::StoreElem(_) => 3,
        Op::Bin(_) | Op::LoadElem(_) | Op::LoadAddr(_) | Op::StoreInd(_) => 2,
        Op::StoreArg(_)
        | Op::StoreLocal(_)
        | Op::Dup
        | Op::Pop
        | Op::Switch(_)
        | Op::Neg
        | Op::Not
        | Op::ConvI4
        | Op::NewArray(_)
        | Op::Length
        | Op::LoadInd(_) => 1,
        Op::Nop | Op::LoadArg(_) | Op::LoadLocal(_) | Op::Null | Op::Const(_) | Op::Text(_) => 0,
    }
}
