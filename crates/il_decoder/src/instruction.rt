//! One instruction of a method's code (ECMA-335 III.1.2).

ghost use Rattle.std.specs.Prelude.{◌≡◌, ◌↔◌, ◌⊎◌, ◌+◌, ◌*◌, ◌^◌, ◌<◌, ◌≤◌, length, map, IfOk, IfErr, Ok, Err};
ghost use Rattle.cc_base.specs.Slices.{IsShort};
ghost use Rattle.cc_base.specs.declared.refusal.Refusal.TheVariants.{Bad, NoMemory};
ghost use Rattle.cil_model.specs.Opcodes.{target};
ghost use Rattle.cil_model.specs.declared.instruction.Instr.{Instr};
ghost use Rattle.il_decoder.specs.declared.fault.IlFault.TheVariants.{Short, Opcode};
ghost use Rattle.il_decoder.specs.Decodes.{StandsIn, EndsInside, BeginsNone, opcode_at, Reaches, IsSwitch, Gives};
ghost use Rattle.il_decoder.specs.Decoding.{decoded, operation, offsets_in, placed, switch, switch_of};

use crate::fault::{IlFault, IlRefusal};
use crate::opcodes::{one_byte, two_byte};
use crate::operands::u32_operand;
use cc_base::{Refusal, u32_at};
use cil_model::{Instr, List, Op};
use std::alloc::{AllocError, Global};

/// The IL offsets that these offsets, four bytes each, name from the next instruction.
#[tactic(auto, using(crate::proofs::Offsets::target_by_target))]
fn read_targets(
    alloc: Global,
    next: u32,
    count: u32,
    offsets: &[u8],
) -> Result<Vec<u32>, AllocError>
    requires { 4 * count ≤ length offsets.now }
    ensures { IfOk result (λ targets. targets.items ≡ map (target next) (offsets_in count offsets.now)) }
{
    let count = count as usize;
    let mut targets = Vec::with_capacity(alloc, count)?;
    for index in 0..count {
        targets.push(next.wrapping_add(u32_at(offsets, 4 * index)))?;
    }
    Ok(targets)
}

/// A switch of so many targets. Memory is asked for once all of them are found.
#[tactic(auto, using(crate::proofs::Carried::carried), unfolding(crate::specs::Decoding::switch_of))]
fn switch_of(alloc: Global, at: u32, count: u32, offsets: &[u8]) -> Result<Instr, IlRefusal>
    requires { at + length offsets.now < 2 ^ 31 }
    ensures { Gives result (placed at (switch_of at count offsets.now)) }
{
    if offsets.len() < 4 * count as usize {
        return Err(Refusal::Bad(IlFault::Short(at)));
    }
    let size = 5 + 4 * count;
    let targets = read_targets(alloc, at + size, count, offsets)?;
    let op = Op::Switch(List::from_vec(targets));
    Ok(Instr { at, size, op })
}

/// Returns what stands after the opcode of a switch (III.3.66).
#[tactic(auto, using(crate::proofs::Carried::carried), unfolding(crate::specs::Decoding::switch))]
fn switch(alloc: Global, at: u32, rest: &[u8]) -> Result<Instr, IlRefusal>
    requires { at + length rest.now < 2 ^ 31 }
    ensures { Gives result (placed at (switch at rest.now)) }
{
    let count = u32_operand(at, rest)?;
    switch_of(alloc, at, count, &rest[4..])
}

/// The instruction that the bytes at its IL offset begin with.
#[tactic(auto, using(crate::proofs::Carried::carried), unfolding(crate::specs::Decoding::operation))]
fn instruction(alloc: Global, at: u32, bytes: &[u8]) -> Result<Instr, IlRefusal>
    requires { at + length bytes.now < 2 ^ 31 }
    ensures { Gives result (placed at (operation at bytes.now)) }
{
    let Some((first, rest)) = bytes.split_first() else {
        return Err(Refusal::Bad(IlFault::Short(at)));
    };
    let (op, size) = match *first {
        0xfe => two_byte(at, rest)?,
        0x45 => return switch(alloc, at, rest),
        opcode => one_byte(at, opcode, rest)?,
    };
    Ok(Instr { at, size, op })
}

/// The instruction at an IL offset of the code, or the fault there.
#[tactic(auto, using(crate::proofs::Carried::carried), unfolding(crate::specs::Decoding::decoded, crate::specs::Decoding::operation))]
fn decode_at(alloc: Global, code: &[u8], at: u32) -> Result<Instr, IlRefusal>
    requires { IsShort code.now }
    ensures { Gives result (decoded code.now at) }
{
    match code.get(at as usize..) {
        Some(bytes) => instruction(alloc, at, bytes),
        None => Err(Refusal::Bad(IlFault::Short(at))),
    }
}

/// The instruction at an IL offset of the code.
///
/// Code that ends inside it is `Short`, and bytes that begin no instruction are `Opcode`. A switch alone
/// takes memory.
#[tactic(auto, using(crate::proofs::Decoded::decoding))]
pub fn decode_one(alloc: Global, code: &[u8], at: u32) -> Result<Instr, IlRefusal>
    requires is_short { IsShort code.now }
    // What is found stands there.
    ensures found { IfOk result (λ i. (i.at ≡ at) × StandsIn i code.now) }
    ensures reach { IfOk result (λ i. Reaches i code.now) }
    // What stands there is found, unless it is a switch and memory runs out.
    ensures only { (i : Instr) → i.at ≡ at → StandsIn i code.now →
        (result ≡ Ok i) ⊎ ((result ≡ Err NoMemory) × IsSwitch i.op) }
    ensures short { (result ≡ Err (Bad (Short at))) ↔ EndsInside code.now at }
    ensures opcode { (result ≡ Err (Bad (Opcode at (opcode_at code.now at)))) ↔ BeginsNone code.now at }
    ensures memory { result ≡ Err NoMemory → (i : Instr) × (i.at ≡ at) × StandsIn i code.now × IsSwitch i.op }
    // There is no other refusal.
    ensures refused { IfErr result (λ refusal. (refusal ≡ Bad (Short at))
        ⊎ ((refusal ≡ Bad (Opcode at (opcode_at code.now at))) ⊎ (refusal ≡ NoMemory))) }
    ensures exact { Gives result (decoded code.now at) }
{
    decode_at(alloc, code, at)
}
