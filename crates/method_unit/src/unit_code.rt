//! The code of a unit file: its instructions, and the numbers that stand in them.

ghost use Rattle.std.specs.Prelude.{◌≡◌, ◌+◌, ◌<◌, ◌≤◌, ◌^◌, ⊤, length, All, IfOk};
ghost use Rattle.cc_base.specs.Tests.{first_of, Judges, JudgesOrNoMemory};
ghost use Rattle.il_decoder.specs.Decoding.{instructions_of};
ghost use Rattle.method_unit.specs.Units.{AreDecodedOf};
ghost use Rattle.method_unit.specs.UnitFile.{count_test, decoding_test, names_something, number_test, number_tests};

use cc_base::Refusal;
use cil_model::{Instr, MAX_INSTRUCTIONS, Op, UnitCall, array_place, unit_call};
use il_decoder::decode;
use std::alloc::Global;
use unit_form::{UnitFault, UnitRefusal};

/// The instructions of the code, which begins at the offset `base` of the file.
#[tactic(auto, using(il_decoder::proofs::FaultPlaces::code_fault_place, crate::proofs::Places::decoded_of), unfolding(crate::specs::UnitFile::decoding_test))]
pub fn decode_code(alloc: Global, code: &[u8], base: u32) -> Result<Vec<Instr>, UnitRefusal>
    requires short { length code.now ≤ 65536 }
    requires small { base + 65536 < 2 ^ 32 }
    ensures judged { JudgesOrNoMemory result (decoding_test base code.now) (λ instrs. instrs.items ≡ instructions_of code.now) }
    ensures found { IfOk result (λ instrs. AreDecodedOf base code.now instrs.items) }
{
    match decode(alloc, code) {
        Ok(instrs) => Ok(instrs),
        Err(Refusal::Bad(fault)) => Err(Refusal::Bad(UnitFault::Form(base + fault.at()))),
        Err(Refusal::NoMemory) => Err(Refusal::NoMemory),
    }
}

/// Tests that there are not too many instructions.
#[tactic(auto, unfolding(crate::specs::UnitFile::count_test))]
pub fn check_count(instrs: &[Instr], base: u32) -> Result<(), UnitFault>
    requires inside { All (λ i. base + i.at < 2 ^ 32) instrs.now }
    ensures { Judges result (count_test base instrs.now) (λ _. ⊤) }
{
    match instrs.get(MAX_INSTRUCTIONS) {
        Some(instr) => Err(UnitFault::Form(base + instr.at)),
        None => Ok(()),
    }
}

/// Returns whether the operand of a call, of a new array, of an item's address or of a text is a number of a unit with
/// so many callees.
pub fn names_something(callees: usize, op: &Op) -> bool
    ensures { result ≡ names_something callees op.now }
{
    match op {
        Op::Call(number) => match unit_call(*number) {
            Some(UnitCall::Callee(callee)) => (callee as usize) < callees,
            Some(
                UnitCall::Requires(_)
                | UnitCall::Ensures(_)
                | UnitCall::Assert(_)
                | UnitCall::Assume(_)
                | UnitCall::EndContractBlock
                | UnitCall::Result(_)
                | UnitCall::OldValue(_),
            ) => true,
            None => false,
        },
        Op::NewArray(number) | Op::LoadAddr(number) => array_place(*number).is_some(),
        Op::Text(number) => *number == 0,
        Op::Nop
        | Op::LoadArg(_)
        | Op::StoreArg(_)
        | Op::LoadLocal(_)
        | Op::StoreLocal(_)
        | Op::Null
        | Op::Const(_)
        | Op::Dup
        | Op::Pop
        | Op::Return
        | Op::Branch(_, _)
        | Op::Switch(_)
        | Op::Bin(_)
        | Op::Neg
        | Op::Not
        | Op::ConvI4
        | Op::Length
        | Op::LoadElem(_)
        | Op::StoreElem(_)
        | Op::LoadInd(_)
        | Op::StoreInd(_) => true,
    }
}

/// Tests the number of one instruction.
fn check_number(instr: &Instr, base: u32, callees: usize) -> Result<(), UnitFault>
    requires { base + instr.now.at < 2 ^ 32 }
    ensures { Judges result (number_test base callees instr.now) (λ _. ⊤) }
{
    if names_something(callees, &instr.op) {
        Ok(())
    } else {
        Err(UnitFault::Form(base + instr.at))
    }
}

/// Tests that the numbers in the code of a unit with so many callees name something.
#[tactic(auto, unfolding(cc_base::specs::Tests::first_of, crate::specs::UnitFile::number_tests))]
pub fn check_numbers(instrs: &[Instr], base: u32, callees: usize) -> Result<(), UnitFault>
    requires inside { All (λ i. base + i.at < 2 ^ 32) instrs.now }
    ensures { Judges result (first_of (number_tests base callees instrs.now)) (λ _. ⊤) }
{
    for instr in instrs {
        check_number(instr, base, callees)?;
    }
    Ok(())
}
