//! What the operators give of int32 numbers, and when they fault (ECMA-335 III.3).

ghost use Rattle.std.specs.Prelude.{◌≡◌, ◌^◌, ◌*ℤ◌, ◌≤ℤ◌, unsigned_abs, pos};
ghost use Rattle.cc_base.specs.Wrap.{wrap32};
ghost use Rattle.cil_model.specs.Arithmetic as arithmetic;
ghost use Rattle.clause_eval.specs.Sizes.{IsFactor};
ghost use Rattle.cil_model.specs.declared.instruction.BinOp.TheVariants as operators;

use cc_base::wrap32;
use cil_model::{BinOp, FaultKind, UnOp};

/// The number, or the overflow where it is no int32.
fn exact(n: i64) -> Result<i32, FaultKind>
    ensures { result ≡ arithmetic.exact n }
{
    if i64::from(i32::MIN) <= n && n <= i64::from(i32::MAX) {
        Ok(n as i32)
    } else {
        Err(FaultKind::Overflow)
    }
}

/// The truncated quotient.
fn quotient(a: i32, b: i32) -> Result<i32, FaultKind>
    ensures { result ≡ arithmetic.operated operators.Div a b }
{
    if b == 0 {
        return Err(FaultKind::DivZero);
    }
    if a == i32::MIN && b == -1 {
        return Err(FaultKind::DivOverflow);
    }
    Ok(a / b)
}

/// The remainder, with the sign of the dividend.
fn remainder(a: i32, b: i32) -> Result<i32, FaultKind>
    ensures { result ≡ arithmetic.operated operators.Rem a b }
{
    if b == 0 {
        return Err(FaultKind::DivZero);
    }
    if a == i32::MIN && b == -1 {
        return Err(FaultKind::DivOverflow);
    }
    Ok(a % b)
}

/// The quotient of numbers without a sign.
fn unsigned_quotient(a: i32, b: i32) -> Result<i32, FaultKind>
    ensures { result ≡ arithmetic.operated operators.DivUn a b }
{
    if b == 0 {
        return Err(FaultKind::DivZero);
    }
    Ok((a.cast_unsigned() / b.cast_unsigned()).cast_signed())
}

/// The remainder of numbers without a sign.
fn unsigned_remainder(a: i32, b: i32) -> Result<i32, FaultKind>
    ensures { result ≡ arithmetic.operated operators.RemUn a b }
{
    if b == 0 {
        return Err(FaultKind::DivZero);
    }
    Ok((a.cast_unsigned() % b.cast_unsigned()).cast_signed())
}

/// A power of 2.
#[tactic(auto, using(crate::proofs::Products::power_upto))]
fn power(n: i32) -> i64
    requires least { pos 0 ≤ℤ n }
    requires greatest { n ≤ℤ pos 31 }
    ensures value { result ≡ pos (2 ^ unsigned_abs n) }
    ensures bound { IsFactor result }
{
    1i64 << n as u32
}

/// The number with 64 bits.
fn widened(n: i32) -> i64
    ensures value { result ≡ n }
    ensures bound { IsFactor result }
{
    i64::from(n)
}

/// The exact product.
#[tactic(auto, using(crate::proofs::Products::product_fits))]
fn product(a: i64, b: i64) -> i64
    requires first { IsFactor a }
    requires second { IsFactor b }
    ensures { result ≡ a *ℤ b }
{
    a * b
}

/// A shift to the left by an amount that is within the width, wrapped.
fn shifted_by(a: i32, n: i32) -> i32
    requires least { pos 0 ≤ℤ n }
    requires greatest { n ≤ℤ pos 31 }
    ensures { result ≡ wrap32 (a *ℤ pos (2 ^ unsigned_abs n)) }
{
    wrap32(product(widened(a), power(n)))
}

/// A shift to the left.
fn shifted_left(a: i32, n: i32) -> Result<i32, FaultKind>
    ensures { result ≡ arithmetic.operated operators.Shl a n }
{
    if n < 0 || 32 <= n {
        return Err(FaultKind::Shift);
    }
    Ok(shifted_by(a, n))
}

/// A shift to the right, which copies the sign.
fn shifted_right(a: i32, n: i32) -> Result<i32, FaultKind>
    ensures { result ≡ arithmetic.operated operators.Shr a n }
{
    if n < 0 || 32 <= n {
        return Err(FaultKind::Shift);
    }
    Ok(a >> n as u32)
}

/// A shift to the right of a number without a sign.
fn shifted_right_unsigned(a: i32, n: i32) -> Result<i32, FaultKind>
    ensures { result ≡ arithmetic.operated operators.ShrUn a n }
{
    if n < 0 || 32 <= n {
        return Err(FaultKind::Shift);
    }
    Ok((a.cast_unsigned() >> n as u32).cast_signed())
}

/// Returns what an operator gives of two int32, or the fault.
pub fn operated(op: BinOp, a: i32, b: i32) -> Result<i32, FaultKind>
    ensures { result ≡ arithmetic.operated op a b }
{
    match op {
        BinOp::Add => Ok(wrap32(i64::from(a) + i64::from(b))),
        BinOp::Sub => Ok(wrap32(i64::from(a) - i64::from(b))),
        BinOp::Mul => Ok(wrap32(product(widened(a), widened(b)))),
        BinOp::Div => quotient(a, b),
        BinOp::DivUn => unsigned_quotient(a, b),
        BinOp::Rem => remainder(a, b),
        BinOp::RemUn => unsigned_remainder(a, b),
        BinOp::And => Ok(a & b),
        BinOp::Or => Ok(a | b),
        BinOp::Xor => Ok(a ^ b),
        BinOp::Shl => shifted_left(a, b),
        BinOp::Shr => shifted_right(a, b),
        BinOp::ShrUn => shifted_right_unsigned(a, b),
        BinOp::AddOvf => exact(i64::from(a) + i64::from(b)),
        BinOp::SubOvf => exact(i64::from(a) - i64::from(b)),
        BinOp::MulOvf => exact(product(widened(a), widened(b))),
        BinOp::Ceq => Ok(i32::from(a == b)),
        BinOp::Cgt => Ok(i32::from(b < a)),
        BinOp::CgtUn => Ok(i32::from(b.cast_unsigned() < a.cast_unsigned())),
        BinOp::Clt => Ok(i32::from(a < b)),
        BinOp::CltUn => Ok(i32::from(a.cast_unsigned() < b.cast_unsigned())),
    }
}

/// Returns what an operator gives of one int32.
pub fn operated_one(op: UnOp, a: i32) -> i32
    ensures { result ≡ arithmetic.operated_one op a }
{
    match op {
        UnOp::Neg => wrap32(-i64::from(a)),
        UnOp::Not => !a,
    }
}
