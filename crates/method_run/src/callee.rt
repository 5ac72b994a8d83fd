//! The methods that instructions call.

ghost use Rattle.std.specs.Prelude.{◌≡◌, slice_get};
ghost use Rattle.std.specs.Option.{option_copied, option_and_then};
ghost use Rattle.cil_eval.specs.Flows.{AreRunnable};
ghost use Rattle.cil_model.specs.Offsets.{RiseFrom};
ghost use Rattle.cil_model.specs.Runs.{instr_at};
ghost use Rattle.cil_model.specs.WellFormed.{called_by};
ghost use Rattle.method_run.specs.FaultTexts.{callee_at, called_at};

use cil_model::{CalleeInfo, Instr, Op, Unit, UnitCall, World, index_of, unit_call};

/// The instruction at an offset. It is found by halving.
fn instr_at(instrs: &[Instr], at: u32) -> Option<&Instr>
    requires { RiseFrom 0 instrs.now }
    ensures { option_copied result ≡ instr_at instrs.now at }
{
    match index_of(instrs, at) {
        Some(index) => instrs.get(index),
        None => None,
    }
}

/// The number of the callee that an operation calls.
fn called_by(op: &Op) -> Option<u32>
    ensures { result ≡ called_by op.now }
{
    match op {
        Op::Call(number) => match unit_call(*number) {
            Some(UnitCall::Callee(callee)) => Some(callee),
            Some(
                UnitCall::Requires(_)
                | UnitCall::Ensures(_)
                | UnitCall::Assert(_)
                | UnitCall::Assume(_)
                | UnitCall::EndContractBlock
                | UnitCall::Result(_)
                | UnitCall::OldValue(_),
            )
            | None => None,
        },
        Op::Nop
        | Op::LoadArg(_)
        | Op::StoreArg(_)
        | Op::LoadLocal(_)
        | Op::StoreLocal(_)
        | Op::Null
        | Op::Const(_)
        | Op::Dup
        | Op::Pop
        | Op::Return
        | Op::Branch(..)
        | Op::Switch(_)
        | Op::Bin(_)
        | Op::Neg
        | Op::Not
        | Op::ConvI4
        | Op::Text(_)
        | Op::NewArray(_)
        | Op::Length
        | Op::LoadElem(_)
        | Op::StoreElem(_)
        | Op::LoadAddr(_)
        | Op::LoadInd(_)
        | Op::StoreInd(_) => None,
    }
}

/// The method that the instruction at an offset of a unit calls.
fn callee_at(unit: &Unit, at: u32) -> Option<&CalleeInfo>
    requires { RiseFrom 0 unit.now.instrs }
    ensures { option_copied result ≡ callee_at unit.now at }
{
    let instr = instr_at(unit.instrs.as_slice(), at)?;
    let number = called_by(&instr.op)?;
    unit.callees.as_slice().get(number as usize)
}

/// The method that is called at an offset in the code of the method of an index.
pub(crate) fn called_at(world: &World, index: u32, at: u32) -> Option<&CalleeInfo>
    requires { AreRunnable world.now }
    ensures { option_copied result ≡ called_at world.now index at }
{
    let unit = world.units.as_slice().get(index as usize)?;
    callee_at(unit, at)
}
