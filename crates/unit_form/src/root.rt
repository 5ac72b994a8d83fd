//! The roots of trees: a node without the trees below it.

ghost use Rattle.std.specs.Prelude.{◌≡◌, ◌≤◌};
ghost use Rattle.unit_form.specs.Roots.{told};
ghost use Rattle.unit_form.specs.TreeFields.{arity, bare_root, bitwise_of_byte, comparison_of_byte, operand_size, operator_of_byte, unary_of_byte};

use cil_model::{BinOp, Place, UnOp};

/// The root of a tree in a unit file.
#[derive(Clone, Copy, Debug, PartialEq, Eq)]
pub enum Root {
    Const(i32),
    Arg(u16),
    Null,
    Result,
    Len,
    Elem(Place),
    Bin(BinOp),
    Un(UnOp),
    Old,
    Cond,
}

impl Root {
    /// Returns how many trees stand below it.
    pub fn arity(self) -> usize
        ensures arity { result ≡ arity (told self) }
        ensures few { result ≤ 3 }
    {
        match self {
            Root::Const(_) | Root::Arg(_) | Root::Null | Root::Result => 0,
            Root::Len | Root::Un(_) | Root::Old => 1,
            Root::Elem(_) | Root::Bin(_) => 2,
            Root::Cond => 3,
        }
    }
}

/// The comparison of a byte.
fn comparison_of_byte(byte: u8) -> Option<BinOp>
    ensures { result ≡ comparison_of_byte byte }
{
    match byte {
        0xc1 => Some(BinOp::Ceq),
        0xc2 => Some(BinOp::Cgt),
        0xc3 => Some(BinOp::CgtUn),
        0xc4 => Some(BinOp::Clt),
        0xc5 => Some(BinOp::CltUn),
        _ => None,
    }
}

/// The operator on bits or the comparison of a byte.
fn bitwise_of_byte(byte: u8) -> Option<BinOp>
    ensures { result ≡ bitwise_of_byte byte }
{
    match byte {
        0x5f => Some(BinOp::And),
        0x60 => Some(BinOp::Or),
        0x61 => Some(BinOp::Xor),
        0x62 => Some(BinOp::Shl),
        0x63 => Some(BinOp::Shr),
        0x64 => Some(BinOp::ShrUn),
        _ => comparison_of_byte(byte),
    }
}

/// The operator of a byte: its opcode (ECMA-335 III.3), or C0 and the second byte of a comparison's opcode.
pub fn operator_of_byte(byte: u8) -> Option<BinOp>
    ensures { result ≡ operator_of_byte byte }
{
    match byte {
        0x58 => Some(BinOp::Add),
        0x59 => Some(BinOp::Sub),
        0x5a => Some(BinOp::Mul),
        0x5b => Some(BinOp::Div),
        0x5c => Some(BinOp::DivUn),
        0x5d => Some(BinOp::Rem),
        0x5e => Some(BinOp::RemUn),
        0xd6 => Some(BinOp::AddOvf),
        0xd8 => Some(BinOp::MulOvf),
        0xda => Some(BinOp::SubOvf),
        _ => bitwise_of_byte(byte),
    }
}

/// The operator of one number of a byte, by its opcode.
pub fn unary_of_byte(byte: u8) -> Option<UnOp>
    ensures { result ≡ unary_of_byte byte }
{
    match byte {
        0x65 => Some(UnOp::Neg),
        0x66 => Some(UnOp::Not),
        _ => None,
    }
}
