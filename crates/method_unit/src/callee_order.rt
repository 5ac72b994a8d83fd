//! The order of a unit's callees: that of their first use.

ghost use Rattle.std.specs.Prelude.{◌≡◌, ◌+◌, ◌<◌, ◌≤◌, ◌^◌, ℕ, ⊤, List, slice_get, option_map, IfSome};
ghost use Rattle.cc_base.specs.Tests.{first_of, Judges};
ghost use Rattle.cil_model.specs.UnitCalls.{callee_of};
ghost use Rattle.cil_model.specs.WellFormed.{called_by};
ghost use Rattle.method_unit.specs.CalledInOrder.{next_behind};
ghost use Rattle.method_unit.specs.UnitFile.{order_tests};
ghost use Rattle.unit_form.specs.declared.unit_fault.UnitFault.TheVariants.{Form};

use cil_model::{Instr, Op, UnitCall, unit_call};
use unit_form::UnitFault;

/// The number of the callee that a call names.
fn callee_of(call: Option<UnitCall>) -> Option<u32>
    ensures { result ≡ callee_of call }
{
    match call {
        Some(UnitCall::Callee(callee)) => Some(callee),
        Some(
            UnitCall::Requires(_)
            | UnitCall::Ensures(_)
            | UnitCall::Assert(_)
            | UnitCall::Assume(_)
            | UnitCall::EndContractBlock
            | UnitCall::Result(_)
            | UnitCall::OldValue(_),
        )
        | None => None,
    }
}

/// The number of the callee that an operation calls.
fn called_by(op: &Op) -> Option<u32>
    ensures { result ≡ called_by op.now }
{
    match op {
        Op::Call(number) => callee_of(unit_call(*number)),
        Op::Nop
        | Op::LoadArg(_)
        | Op::StoreArg(_)
        | Op::LoadLocal(_)
        | Op::StoreLocal(_)
        | Op::Null
        | Op::Const(_)
        | Op::Dup
        | Op::Pop
        | Op::Return
        | Op::Branch(_, _)
        | Op::Switch(_)
        | Op::Bin(_)
        | Op::Neg
        | Op::Not
        | Op::ConvI4
        | Op::Text(_)
        | Op::NewArray(_)
        | Op::Length
        | Op::LoadElem(_)
        | Op::StoreElem(_)
        | Op::LoadAddr(_)
        | Op::LoadInd(_)
        | Op::StoreInd(_) => None,
    }
}

/// Returns how many callees are called in order after an operation, where so many are before it. There is none after a
/// call of
/// another than the next one.
fn next_behind(next: usize, op: &Op) -> Option<usize>
    requires { next + 1 < 2 ^ 64 }
    ensures count { result ≡ next_behind next (called_by op.now) }
    ensures one_more { IfSome result (λ behind. behind ≤ next + 1) }
{
    match called_by(op) {
        None => Some(next),
        Some(callee) if (callee as usize) < next => Some(next),
        Some(callee) if callee as usize == next => Some(next + 1),
        Some(_) => None,
    }
}

/// Returns how many callees are called, each after those before it, up to the first call of another.
#[tactic(auto, using(crate::proofs::CalleeOrder::in_order))]
fn called_in_order(instrs: &[Instr]) -> usize
    ensures { (offsets : List ℕ) → first_of (order_tests instrs.now offsets) ≡ option_map Form (slice_get offsets result) }
{
    let mut next = 0;
    for instr in instrs {
        match next_behind(next, &instr.op) {
            Some(behind) => next = behind,
            None => return next,
        }
    }
    next
}

/// Tests that the callees, which begin at these offsets of the file, are called, and first in this order.
pub fn check_order(instrs: &[Instr], offsets: &[u32]) -> Result<(), UnitFault>
    ensures { Judges result (first_of (order_tests instrs.now offsets.now)) (λ _. ⊤) }
{
    match offsets.get(called_in_order(instrs)) {
        Some(offset) => Err(UnitFault::Form(*offset)),
        None => Ok(()),
    }
}
