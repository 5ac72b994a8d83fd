//! Opcodes by groups, in their order (ECMA-335 III).

ghost use Rattle.std.specs.Prelude.{◌≡◌, ◌+◌, ◌^◌, ◌<◌, ◌≤◌, Some, None};
ghost use Rattle.cil_model.specs.Opcodes.{address_form, variable_form, constant_form, test_of, branch_form, operator_of, object_form, short_form};
ghost use Rattle.il_decoder.specs.Decoding.{by_form, two_byte};

use crate::fault::IlFault;
use crate::operands::{
    far_target, i8_operand, i32_operand, near_target, u8_operand, u16_operand, u32_operand,
};
use cil_model::{BinOp, CmpOp, Op, Place, Test};

/// An operation and the size of its spelling in bytes.
pub(crate) type Operation = (Op, u32);

/// nop, the arguments, the locals and the null reference.
#[tactic(auto, unfolding(cil_model::specs::Opcodes::variable_form))]
fn variable(at: u32, opcode: u8, rest: &[u8]) -> Result<Operation, IlFault>
    ensures { result ≡ by_form at 1 opcode (variable_form opcode) rest.now }
{
    match opcode {
        0x00 => Ok((Op::Nop, 1)),
        0x02..=0x05 => Ok((Op::LoadArg(u16::from(opcode - 0x02)), 1)),
        0x06..=0x09 => Ok((Op::LoadLocal(u16::from(opcode - 0x06)), 1)),
        0x0a..=0x0d => Ok((Op::StoreLocal(u16::from(opcode - 0x0a)), 1)),
        0x0e => Ok((Op::LoadArg(u16::from(u8_operand(at, rest)?)), 2)),
        0x10 => Ok((Op::StoreArg(u16::from(u8_operand(at, rest)?)), 2)),
        0x11 => Ok((Op::LoadLocal(u16::from(u8_operand(at, rest)?)), 2)),
        0x13 => Ok((Op::StoreLocal(u16::from(u8_operand(at, rest)?)), 2)),
        0x14 => Ok((Op::Null, 1)),
        _ => Err(IlFault::Opcode(at, u16::from(opcode))),
    }
}

/// Constants, what changes the stack alone, calls and returns.
#[tactic(auto, unfolding(cil_model::specs::Opcodes::constant_form))]
fn constant(at: u32, opcode: u8, rest: &[u8]) -> Result<Operation, IlFault>
    ensures { result ≡ by_form at 1 opcode (constant_form opcode) rest.now }
{
    match opcode {
        0x15..=0x1e => Ok((Op::Const(i32::from(opcode) - 0x16), 1)),
        0x1f => Ok((Op::Const(i32::from(i8_operand(at, rest)?)), 2)),
        0x20 => Ok((Op::Const(i32_operand(at, rest)?), 5)),
        0x25 => Ok((Op::Dup, 1)),
        0x26 => Ok((Op::Pop, 1)),
        0x28 => Ok((Op::Call(u32_operand(at, rest)?), 5)),
        0x2a => Ok((Op::Return, 1)),
        _ => Err(IlFault::Opcode(at, u16::from(opcode))),
    }
}

/// The test of a branch, by its place among the thirteen branches.
#[tactic(auto, unfolding(cil_model::specs::Opcodes::test_of))]
fn test_of(place: u8) -> Option<Test>
    ensures { result ≡ test_of place }
{
    match place {
        0 => Some(Test::Always),
        1 => Some(Test::False),
        2 => Some(Test::True),
        3 => Some(Test::Cmp(CmpOp::Eq)),
        4 => Some(Test::Cmp(CmpOp::Ge)),
        5 => Some(Test::Cmp(CmpOp::Gt)),
        6 => Some(Test::Cmp(CmpOp::Le)),
        7 => Some(Test::Cmp(CmpOp::Lt)),
        8 => Some(Test::Cmp(CmpOp::NeUn)),
        9 => Some(Test::Cmp(CmpOp::GeUn)),
        10 => Some(Test::Cmp(CmpOp::GtUn)),
        11 => Some(Test::Cmp(CmpOp::LeUn)),
        12 => Some(Test::Cmp(CmpOp::LtUn)),
        _ => None,
    }
}

/// Branches, with a near target or a far one.
#[tactic(auto, unfolding(cil_model::specs::Opcodes::branch_form))]
fn branch(at: u32, opcode: u8, rest: &[u8]) -> Result<Operation, IlFault>
    requires small { at < 2 ^ 31 }
    requires group { 0x2b ≤ opcode }
    ensures { result ≡ by_form at 1 opcode (branch_form opcode) rest.now }
{
    let is_near = opcode <= 0x37;
    let first = if is_near { 0x2b } else { 0x38 };
    let Some(test) = test_of(opcode - first) else {
        return Err(IlFault::Opcode(at, u16::from(opcode)));
    };
    if is_near {
        Ok((Op::Branch(test, near_target(at, rest)?), 2))
    } else {
        Ok((Op::Branch(test, far_target(at, rest)?), 5))
    }
}

/// The operators of two numbers.
#[tactic(auto, unfolding(cil_model::specs::Opcodes::operator_of))]
fn operator_of(opcode: u8) -> Option<BinOp>
    ensures { result ≡ operator_of opcode }
{
    match opcode {
        0x58 => Some(BinOp::Add),
        0x59 => Some(BinOp::Sub),
        0x5a => Some(BinOp::Mul),
        0x5b => Some(BinOp::Div),
        0x5c => Some(BinOp::DivUn),
        0x5d => Some(BinOp::Rem),
        0x5e => Some(BinOp::RemUn),
        0x5f => Some(BinOp::And),
        0x60 => Some(BinOp::Or),
        0x61 => Some(BinOp::Xor),
        0x62 => Some(BinOp::Shl),
        0x63 => Some(BinOp::Shr),
        0x64 => Some(BinOp::ShrUn),
        0xd6 => Some(BinOp::AddOvf),
        0xd8 => Some(BinOp::MulOvf),
        0xda => Some(BinOp::SubOvf),
        _ => None,
    }
}

/// Loads and stores through addresses of items, none of which has an operand.
#[tactic(auto, unfolding(cil_model::specs::Opcodes::address_form))]
fn through_address(at: u32, opcode: u8, rest: &[u8]) -> Result<Operation, IlFault>
    ensures { result ≡ by_form at 1 opcode (address_form opcode) rest.now }
{
    match opcode {
        0x47 => Ok((Op::LoadInd(Place::Bools), 1)),
        0x4a => Ok((Op::LoadInd(Place::Ints), 1)),
        0x52 => Ok((Op::StoreInd(Place::Bools), 1)),
        0x54 => Ok((Op::StoreInd(Place::Ints), 1)),
        _ => Err(IlFault::Opcode(at, u16::from(opcode))),
    }
}

/// The operators of one number, strings and arrays.
#[tactic(auto, unfolding(cil_model::specs::Opcodes::object_form))]
fn object(at: u32, opcode: u8, rest: &[u8]) -> Result<Operation, IlFault>
    ensures { result ≡ by_form at 1 opcode (object_form opcode) rest.now }
{
    match opcode {
        0x65 => Ok((Op::Neg, 1)),
        0x66 => Ok((Op::Not, 1)),
        0x69 => Ok((Op::ConvI4, 1)),
        0x72 => Ok((Op::Text(u32_operand(at, rest)?), 5)),
        0x8d => Ok((Op::NewArray(u32_operand(at, rest)?), 5)),
        0x8e => Ok((Op::Length, 1)),
        0x8f => Ok((Op::LoadAddr(u32_operand(at, rest)?), 5)),
        0x91 => Ok((Op::LoadElem(Place::Bools), 1)),
        0x94 => Ok((Op::LoadElem(Place::Ints), 1)),
        0x9c => Ok((Op::StoreElem(Place::Bools), 1)),
        0x9e => Ok((Op::StoreElem(Place::Ints), 1)),
        _ => Err(IlFault::Opcode(at, u16::from(opcode))),
    }
}

/// Returns what begins with this byte and is no switch.
#[tactic(auto, unfolding(cil_model::specs::Opcodes::short_form))]
pub(crate) fn one_byte(at: u32, opcode: u8, rest: &[u8]) -> Result<Operation, IlFault>
    requires { at < 2 ^ 31 }
    ensures { result ≡ by_form at 1 opcode (short_form opcode) rest.now }
{
    match opcode {
        0x00..=0x14 => variable(at, opcode, rest),
        0x15..=0x2a => constant(at, opcode, rest),
        0x2b..=0x44 => branch(at, opcode, rest),
        0x45..=0x54 => through_address(at, opcode, rest),
        0x65..=0x9e => object(at, opcode, rest),
        _ => match operator_of(opcode) {
            Some(operator) => Ok((Op::Bin(operator), 1)),
            None => Err(IlFault::Opcode(at, u16::from(opcode))),
        },
    }
}

/// Returns what FE begins, with the bytes after it.
#[tactic(auto, unfolding(crate::specs::Decoding::two_byte, cil_model::specs::Opcodes::long_form))]
pub(crate) fn two_byte(at: u32, bytes: &[u8]) -> Result<Operation, IlFault>
    ensures { result ≡ two_byte at bytes.now }
{
    let Some((second, rest)) = bytes.split_first() else {
        return Err(IlFault::Short(at));
    };
    match *second {
        0x01 => Ok((Op::Bin(BinOp::Ceq), 2)),
        0x02 => Ok((Op::Bin(BinOp::Cgt), 2)),
        0x03 => Ok((Op::Bin(BinOp::CgtUn), 2)),
        0x04 => Ok((Op::Bin(BinOp::Clt), 2)),
        0x05 => Ok((Op::Bin(BinOp::CltUn), 2)),
        0x09 => Ok((Op::LoadArg(u16_operand(at, rest)?), 4)),
        0x0b => Ok((Op::StoreArg(u16_operand(at, rest)?), 4)),
        0x0c => Ok((Op::LoadLocal(u16_operand(at, rest)?), 4)),
        0x0e => Ok((Op::StoreLocal(u16_operand(at, rest)?), 4)),
        opcode => Err(IlFault::Opcode(at, 0xfe00 + u16::from(opcode))),
    }
}
