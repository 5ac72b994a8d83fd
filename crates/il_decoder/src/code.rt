//! The instructions of a method's code, one after another.

ghost use Rattle.std.specs.Prelude.{◌≡◌, ⊤, length, IfOk, List};
ghost use Rattle.std.specs.List.{list_all};
ghost use Rattle.std.specs.List.Sorted.{IsNonDecreasingBy};
ghost use Rattle.cc_base.specs.Slices.{IsShort};
ghost use Rattle.cc_base.specs.Tests.{first_of, GivesOnly, Judges, JudgesOrNoMemory};
ghost use Rattle.cil_model.specs.Blocks.{branch_targets};
ghost use Rattle.cil_model.specs.Code.{begins_at, CodeOf};
ghost use Rattle.cil_model.specs.declared.instruction.Instr.{Instr};
ghost use Rattle.il_decoder.specs.Decoding.{decoding_tests, target_tests, code_tests, instructions_of};

use crate::fault::{IlFault, IlRefusal};
use crate::instruction::decode_one;
use cil_model::{Instr, Op};
use std::alloc::Global;

/// The instructions that the code spells, one after another up to its end.
#[tactic(auto, using(crate::proofs::Reading::one_by_one))]
fn read_instructions(alloc: Global, code: &[u8]) -> Result<Vec<Instr>, IlRefusal>
    requires { IsShort code.now }
    ensures judged { JudgesOrNoMemory result (first_of (decoding_tests code.now))
        (λ instrs. instrs.items ≡ instructions_of code.now) }
    ensures rise { IfOk result (λ instrs. IsNonDecreasingBy (λ i. i.at) instrs.items) }
{
    let mut instrs = Vec::new(alloc);
    let mut at = 0;
    while (at as usize) < code.len() {
        let instr = decode_one(alloc, code, at)?;
        at += instr.size;
        instrs.push(instr)?;
    }
    Ok(instrs)
}

/// Returns whether an instruction begins at this IL offset.
fn begins_at(instrs: &[Instr], at: u32) -> bool
    requires { IsNonDecreasingBy (λ i. i.at) instrs.now }
    ensures { result ≡ begins_at instrs.now at }
{
    instrs.binary_search_by_key(&at, |i| i.at).is_ok()
}

/// Returns whether an instruction begins at each of these IL offsets.
fn begin_at_all(instrs: &[Instr], targets: &[u32]) -> bool
    requires { IsNonDecreasingBy (λ i. i.at) instrs.now }
    ensures { result ≡ list_all (begins_at instrs.now) targets.now }
{
    targets.iter().all(|target| begins_at(instrs, *target))
}

/// Returns whether the operation branches to starts of these instructions alone.
fn meets_starts(instrs: &[Instr], op: &Op) -> bool
    requires { IsNonDecreasingBy (λ i. i.at) instrs.now }
    ensures { result ≡ list_all (begins_at instrs.now) (branch_targets op.now) }
{
    match op {
        Op::Branch(_, target) => begins_at(instrs, *target),
        Op::Switch(targets) => begin_at_all(instrs, targets.as_slice()),
        _ => true,
    }
}

/// Tests that each branch meets the start of an instruction.
#[tactic(auto, using(crate::proofs::Starts::target_by_target))]
fn check_targets(instrs: &[Instr]) -> Result<(), IlFault>
    requires { IsNonDecreasingBy (λ i. i.at) instrs.now }
    ensures { Judges result (first_of (target_tests instrs.now)) (λ _. ⊤) }
{
    for i in instrs {
        if !meets_starts(instrs, &i.op) {
            return Err(IlFault::Target(i.at));
        }
    }
    Ok(())
}

/// The instructions of a method's code, or the first fault of it.
#[tactic(auto, using(cc_base::proofs::TestLemmas::carried, cc_base::proofs::TestLemmas::appended), unfolding(crate::specs::Decoding::code_tests))]
fn read_code(alloc: Global, code: &[u8]) -> Result<Vec<Instr>, IlRefusal>
    requires { IsShort code.now }
    ensures { JudgesOrNoMemory result (first_of (code_tests code.now))
        (λ instrs. instrs.items ≡ instructions_of code.now) }
{
    let instrs = read_instructions(alloc, code)?;
    check_targets(instrs.as_slice())?;
    Ok(instrs)
}

/// The instructions of a method's code, one after another, where each branch meets the start of one
/// (ECMA-335 III.1.7.2).
///
/// The first instruction that the code ends inside is `Short`, the first bytes that begin none are `Opcode`,
/// whichever stands first; and where there is neither, the first branch to no start is `Target`.
pub fn decode(alloc: Global, code: &[u8]) -> Result<Vec<Instr>, IlRefusal>
    requires is_short { IsShort code.now }
    // The first fault is named.
    ensures judged { JudgesOrNoMemory result (first_of (code_tests code.now))
        (λ instrs. instrs.items ≡ instructions_of code.now) }
    // The code is that of the instructions that are found.
    ensures found { IfOk result (λ instrs. CodeOf instrs.items code.now) }
    // Instructions whose code this is are found.
    ensures only { (instrs : List Instr) → CodeOf instrs code.now → GivesOnly result (λ found. found.items ≡ instrs) }
{
    read_code(alloc, code)
}
