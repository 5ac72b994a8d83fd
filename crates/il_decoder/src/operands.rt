//! Operands after an opcode (ECMA-335 III.1.2).

ghost use Rattle.std.specs.Prelude.{◌≡◌, ◌+◌, ◌^◌, ◌<◌, length, nat_le};
ghost use Rattle.std.specs.Int.{w8, w32, cast_signed, cast_unsigned};
ghost use Rattle.byteorder.specs.Endian.{little_number};
ghost use Rattle.cc_base.specs.Tests.{must, Judges};
ghost use Rattle.cil_model.specs.Opcodes.{target};
ghost use Rattle.il_decoder.specs.declared.fault.IlFault.TheVariants.{Short};

use crate::fault::IlFault;
use byteorder::{ByteOrder, LittleEndian};

/// An operand of one byte.
pub(crate) fn u8_operand(at: u32, rest: &[u8]) -> Result<u8, IlFault>
    ensures { Judges result (must (nat_le 1 (length rest.now)) (Short at)) (λ n. n ≡ little_number 1 rest.now) }
{
    match rest {
        [] => Err(IlFault::Short(at)),
        [byte, ..] => Ok(*byte),
    }
}

/// An operand of one byte that has a sign.
pub(crate) fn i8_operand(at: u32, rest: &[u8]) -> Result<i8, IlFault>
    ensures { Judges result (must (nat_le 1 (length rest.now)) (Short at))
        (λ n. n ≡ cast_signed w8 (little_number 1 rest.now)) }
{
    Ok(u8_operand(at, rest)?.cast_signed())
}

/// An operand of two bytes.
pub(crate) fn u16_operand(at: u32, rest: &[u8]) -> Result<u16, IlFault>
    ensures { Judges result (must (nat_le 2 (length rest.now)) (Short at)) (λ n. n ≡ little_number 2 rest.now) }
{
    if rest.len() < 2 {
        return Err(IlFault::Short(at));
    }
    Ok(LittleEndian::read_u16(rest))
}

/// An operand of four bytes.
pub(crate) fn u32_operand(at: u32, rest: &[u8]) -> Result<u32, IlFault>
    ensures { Judges result (must (nat_le 4 (length rest.now)) (Short at)) (λ n. n ≡ little_number 4 rest.now) }
{
    if rest.len() < 4 {
        return Err(IlFault::Short(at));
    }
    Ok(LittleEndian::read_u32(rest))
}

/// An operand of four bytes that has a sign.
pub(crate) fn i32_operand(at: u32, rest: &[u8]) -> Result<i32, IlFault>
    ensures { Judges result (must (nat_le 4 (length rest.now)) (Short at))
        (λ n. n ≡ cast_signed w32 (little_number 4 rest.now)) }
{
    Ok(u32_operand(at, rest)?.cast_signed())
}

/// The IL offset that a branch of two bytes goes to (III.3.15).
pub(crate) fn near_target(at: u32, rest: &[u8]) -> Result<u32, IlFault>
    requires { at < 2 ^ 31 }
    ensures { Judges result (must (nat_le 1 (length rest.now)) (Short at))
        (λ t. t ≡ target (at + 2) (cast_unsigned w32 (cast_signed w8 (little_number 1 rest.now)))) }
{
    let next = at + 2;
    Ok(next.wrapping_add_signed(i32::from(i8_operand(at, rest)?)))
}

/// The IL offset that a branch of five bytes goes to.
pub(crate) fn far_target(at: u32, rest: &[u8]) -> Result<u32, IlFault>
    requires { at < 2 ^ 31 }
    ensures { Judges result (must (nat_le 4 (length rest.now)) (Short at))
        (λ t. t ≡ target (at + 5) (little_number 4 rest.now)) }
{
    let next = at + 5;
    Ok(next.wrapping_add(u32_operand(at, rest)?))
}
