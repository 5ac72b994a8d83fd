//! The bytes of an instruction.
//!
//! The table of opcodes is the definition of how instructions are spelled. A switch is spelled apart, since its operand
//! has no fixed width. A branch counts its target modulo 2^32, so that every operand has a target; all instructions are
//! tested before the first target.

ghost use Rattle.std.specs.Prelude.{◌≡◌, ℕ, ◌+◌, ◌%◌, ◌^◌, ◌≤◌, List, ◌++◌, ◌∷◌, [], OnOk, OnErr, length};
ghost use Rattle.std.specs.List.{flat_map};
ghost use Rattle.byteorder.specs.Endian.{little_bytes};
ghost use Rattle.cil_model.specs.Spells.{Spells};
ghost use Rattle.il_decoder.specs.Spelling.{operator_opcode, comparison_number, branch_number, numbered_bytes, variable_bytes, constant_bytes, distance, branch_bytes, distance_bytes, switch_bytes, spelled, IsOnlySpelling};

use cc_base::NoMemory;
use cil_model::{BinOp, CmpOp, Instr, Op, Place, Test};
use std::alloc::Global;

/// The opcode of an operator, which is all of its spelling.
fn operator_opcode(operator: BinOp) -> &'static [u8]
    ensures { result.now ≡ operator_opcode operator }
{
    match operator {
        BinOp::Add => &[0x58],
        BinOp::Sub => &[0x59],
        BinOp::Mul => &[0x5a],
        BinOp::Div => &[0x5b],
        BinOp::DivUn => &[0x5c],
        BinOp::Rem => &[0x5d],
        BinOp::RemUn => &[0x5e],
        BinOp::And => &[0x5f],
        BinOp::Or => &[0x60],
        BinOp::Xor => &[0x61],
        BinOp::Shl => &[0x62],
        BinOp::Shr => &[0x63],
        BinOp::ShrUn => &[0x64],
        BinOp::AddOvf => &[0xd6],
        BinOp::MulOvf => &[0xd8],
        BinOp::SubOvf => &[0xda],
        BinOp::Ceq => &[0xfe, 0x01],
        BinOp::Cgt => &[0xfe, 0x02],
        BinOp::CgtUn => &[0xfe, 0x03],
        BinOp::Clt => &[0xfe, 0x04],
        BinOp::CltUn => &[0xfe, 0x05],
    }
}

/// The place of a comparing branch among the branches of its form.
fn comparison_number(comparison: CmpOp) -> u8
    ensures number { result ≡ comparison_number comparison }
    ensures few { result ≤ 12 }
{
    match comparison {
        CmpOp::Eq => 3,
        CmpOp::Ge => 4,
        CmpOp::Gt => 5,
        CmpOp::Le => 6,
        CmpOp::Lt => 7,
        CmpOp::NeUn => 8,
        CmpOp::GeUn => 9,
        CmpOp::GtUn => 10,
        CmpOp::LeUn => 11,
        CmpOp::LtUn => 12,
    }
}

/// The place of a branch among the branches of its form.
fn branch_number(test: Test) -> u8
    ensures number { result ≡ branch_number test }
    ensures few { result ≤ 12 }
{
    match test {
        Test::Always => 0,
        Test::False => 1,
        Test::True => 2,
        Test::Cmp(comparison) => comparison_number(comparison),
    }
}

/// Appends an opcode of one byte.
fn put_opcode(out: &mut Vec<u8>, opcode: u8) -> Result<(), NoMemory>
    ensures { OnOk result (out.new.items ≡ out.old.items ++ opcode ∷ []) }
{
    out.push(opcode)?;
    Ok(())
}

/// Appends an opcode and an operand of four bytes.
fn put_word(out: &mut Vec<u8>, opcode: u8, operand: u32) -> Result<(), NoMemory>
    ensures { OnOk result (out.new.items ≡ out.old.items ++ opcode ∷ little_bytes 4 operand) }
{
    out.push(opcode)?;
    out.extend_from_slice(&operand.to_le_bytes())
}

/// Appends an instruction on an argument or a local whose number is its operand.
#[tactic(auto, unfolding(crate::specs::Spelling::numbered_bytes))]
fn put_numbered(out: &mut Vec<u8>, short: u8, long: u8, size: u32, n: u16) -> Result<(), NoMemory>
    ensures { OnOk result (out.new.items ≡ out.old.items ++ numbered_bytes short long size n) }
{
    if size == 2 {
        out.push(short)?;
        return out.extend_from_slice(&n.to_le_bytes()[..1]);
    }
    out.extend_from_slice(&[0xfe, long])?;
    out.extend_from_slice(&n.to_le_bytes())
}

/// Appends an instruction on an argument or a local, of which the first four have opcodes of their own.
#[tactic(auto, unfolding(crate::specs::Spelling::variable_bytes))]
fn put_variable(
    out: &mut Vec<u8>,
    first: u8,
    short: u8,
    long: u8,
    size: u32,
    n: u16,
) -> Result<(), NoMemory>
    ensures { OnOk result (out.new.items ≡ out.old.items ++ variable_bytes first short long size n) }
{
    if size == 1 {
        let opcode = u32::from(first) + u32::from(n);
        return out.extend_from_slice(&opcode.to_le_bytes()[..1]);
    }
    put_numbered(out, short, long, size, n)
}

/// Appends a constant.
#[tactic(auto, unfolding(crate::specs::Spelling::constant_bytes))]
fn put_constant(out: &mut Vec<u8>, size: u32, n: i32) -> Result<(), NoMemory>
    ensures { OnOk result (out.new.items ≡ out.old.items ++ constant_bytes size n) }
{
    let bits = u64::from(n.cast_unsigned());
    match size {
        1 => out.extend_from_slice(&(0x16 + bits).to_le_bytes()[..1]),
        2 => {
            out.push(0x1f)?;
            out.extend_from_slice(&bits.to_le_bytes()[..1])
        }
        _ => {
            out.push(0x20)?;
            out.extend_from_slice(&bits.to_le_bytes()[..4])
        }
    }
}

/// Returns how far a target lies from the next instruction, in 32 bits.
fn distance(next: u32, target: u32) -> u32
    ensures { result ≡ distance next target }
{
    target.wrapping_sub(next)
}

/// Appends a branch.
#[tactic(auto, unfolding(crate::specs::Spelling::branch_bytes))]
fn put_branch(
    out: &mut Vec<u8>,
    next: u32,
    size: u32,
    test: Test,
    target: u32,
) -> Result<(), NoMemory>
    ensures { OnOk result (out.new.items ≡ out.old.items ++ branch_bytes next size test target) }
{
    let distance = distance(next, target);
    if size == 2 {
        out.push(0x2b + branch_number(test))?;
        return out.extend_from_slice(&distance.to_le_bytes()[..1]);
    }
    out.push(0x38 + branch_number(test))?;
    out.extend_from_slice(&distance.to_le_bytes())
}

/// Appends how far targets lie from the next instruction.
#[tactic(auto, unfolding(crate::specs::Spelling::distance_bytes))]
fn put_distances(out: &mut Vec<u8>, next: u32, targets: &[u32]) -> Result<(), NoMemory>
    ensures { OnOk result (out.new.items ≡ out.old.items ++ flat_map (distance_bytes next) targets.now) }
{
    for target in targets {
        out.extend_from_slice(&distance(next, *target).to_le_bytes())?;
    }
    Ok(())
}

/// Appends a switch.
#[tactic(auto, unfolding(crate::specs::Spelling::switch_bytes))]
fn put_switch(out: &mut Vec<u8>, next: u32, targets: &[u32]) -> Result<(), NoMemory>
    ensures { OnOk result (out.new.items ≡ out.old.items ++ switch_bytes next targets.now) }
{
    out.push(0x45)?;
    out.extend_from_slice(&targets.len().to_le_bytes()[..4])?;
    put_distances(out, next, targets)
}

/// Appends the bytes of an instruction. Want of memory may leave the prefix of them.
fn put_spelling(out: &mut Vec<u8>, instr: &Instr) -> Result<(), NoMemory>
    ensures { OnOk result (out.new.items ≡ out.old.items ++ spelled instr.now) }
{
    let size = instr.size;
    let next = instr.at.wrapping_add(size);
    match &instr.op {
        Op::Nop => put_opcode(out, 0x00),
        Op::LoadArg(n) => put_variable(out, 0x02, 0x0e, 0x09, size, *n),
        Op::StoreArg(n) => put_numbered(out, 0x10, 0x0b, size, *n),
        Op::LoadLocal(n) => put_variable(out, 0x06, 0x11, 0x0c, size, *n),
        Op::StoreLocal(n) => put_variable(out, 0x0a, 0x13, 0x0e, size, *n),
        Op::Null => put_opcode(out, 0x14),
        Op::Const(n) => put_constant(out, size, *n),
        Op::Dup => put_opcode(out, 0x25),
        Op::Pop => put_opcode(out, 0x26),
        Op::Call(token) => put_word(out, 0x28, *token),
        Op::Return => put_opcode(out, 0x2a),
        Op::Branch(test, target) => put_branch(out, next, size, *test, *target),
        Op::Switch(targets) => put_switch(out, next, targets.as_slice()),
        Op::Bin(operator) => out.extend_from_slice(operator_opcode(*operator)),
        Op::Neg => put_opcode(out, 0x65),
        Op::Not => put_opcode(out, 0x66),
        Op::ConvI4 => put_opcode(out, 0x69),
        Op::Text(token) => put_word(out, 0x72, *token),
        Op::NewArray(token) => put_word(out, 0x8d, *token),
        Op::Length => put_opcode(out, 0x8e),
        Op::LoadElem(Place::Bools) => put_opcode(out, 0x91),
        Op::LoadElem(_) => put_opcode(out, 0x94),
        Op::StoreElem(Place::Bools) => put_opcode(out, 0x9c),
        Op::StoreElem(_) => put_opcode(out, 0x9e),
        Op::LoadAddr(token) => put_word(out, 0x8f, *token),
        Op::LoadInd(Place::Bools) => put_opcode(out, 0x47),
        Op::LoadInd(_) => put_opcode(out, 0x4a),
        Op::StoreInd(Place::Bools) => put_opcode(out, 0x52),
        Op::StoreInd(_) => put_opcode(out, 0x54),
    }
}

/// Appends the bytes that spell an instruction, in the form of its size. Some bytes have to spell it.
/// Where memory runs out, nothing is appended.
#[tactic(auto, using(crate::proofs::SpellingLemmas::spelling))]
pub fn spell(alloc: Global, instr: &Instr, out: &mut Vec<u8>) -> Result<(), NoMemory>
    requires spelled { (bytes : List ℕ) × Spells instr.now bytes }
    ensures ok { OnOk result (out.new.items ≡ out.old.items ++ spelled instr.now) }
    ensures err { OnErr result (out.new.items ≡ out.old.items) }
    ensures spelling { IsOnlySpelling instr.now (spelled instr.now) }
{
    let mut bytes = Vec::new(alloc);
    put_spelling(&mut bytes, instr)?;
    out.extend_from_slice(&bytes)
}
