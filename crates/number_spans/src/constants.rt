//! Constants, and what operators give of them (ECMA-335 III.3).

ghost use Rattle.std.specs.Prelude.{◌≡◌, ◌≢◌, ◌<◌, ◌^◌, ◌-ℤ◌, ◌*ℤ◌, ◌≤ℤ◌, int_div, int_rem, unsigned_abs, pos, FitsSigned};
ghost use Rattle.std.specs.Int.{w32};
ghost use Rattle.std.specs.Result.{result_ok};
ghost use Rattle.cc_base.specs.Wrap.{wrap32};
ghost use Rattle.cil_model.specs.Arithmetic as arithmetic;
ghost use Rattle.cil_model.specs.declared.instruction.BinOp.TheVariants as operators;
ghost use Rattle.number_spans.specs.Constants.{exact_of, is_constant, of_constants};

use crate::exact::{power, times};
use crate::span::{is_int32, wrap};
use cil_model::BinOp;
use domain_api::Expr;

/// The number of 32 bits without its sign.
pub fn unsigned(n: i64) -> u32
    requires { FitsSigned w32 n }
    ensures { result ≡ arithmetic.unsigned n }
{
    (n as i32).cast_unsigned()
}

/// The number, where it is an int32.
fn exact(n: i128) -> Option<i32>
    ensures { result ≡ result_ok (arithmetic.exact n) }
{
    if is_int32(n) { Some(n as i32) } else { None }
}

/// The truncated quotient.
fn truncated(a: i64, b: i64) -> i128
    requires { b ≢ pos 0 }
    ensures { result ≡ int_div a b }
{
    i128::from(a) / i128::from(b)
}

/// What is left of a truncated division.
fn rest(a: i64, b: i64) -> i128
    requires { b ≢ pos 0 }
    ensures { result ≡ int_rem a b }
{
    i128::from(a) % i128::from(b)
}

/// The difference of two numbers of 64 bits.
fn difference(a: i64, b: i64) -> i128
    ensures { result ≡ a -ℤ b }
{
    i128::from(a) - i128::from(b)
}

/// The truncated quotient, wrapped.
fn quotient(a: i64, b: i64) -> Option<i32>
    ensures { result ≡ result_ok (exact_of operators.Div a b) }
{
    if b == 0 || (a == -2_147_483_648 && b == -1) {
        return None;
    }
    Some(wrap(truncated(a, b)))
}

/// The remainder, with the sign of the dividend, wrapped.
fn remainder(a: i64, b: i64) -> Option<i32>
    ensures { result ≡ result_ok (exact_of operators.Rem a b) }
{
    if b == 0 || (a == -2_147_483_648 && b == -1) {
        return None;
    }
    Some(wrap(rest(a, b)))
}

/// The quotient of numbers without a sign.
fn unsigned_quotient(a: i32, b: i32) -> Option<i32>
    ensures { result ≡ result_ok (arithmetic.operated operators.DivUn a b) }
{
    if b == 0 {
        return None;
    }
    Some((a.cast_unsigned() / b.cast_unsigned()).cast_signed())
}

/// The remainder of numbers without a sign.
fn unsigned_remainder(a: i32, b: i32) -> Option<i32>
    ensures { result ≡ result_ok (arithmetic.operated operators.RemUn a b) }
{
    if b == 0 {
        return None;
    }
    Some((a.cast_unsigned() % b.cast_unsigned()).cast_signed())
}

/// A power of 2.
fn power_of(n: i64) -> i64
    requires least { pos 0 ≤ℤ n }
    requires greatest { n ≤ℤ pos 31 }
    ensures value { result ≡ pos (2 ^ unsigned_abs n) }
    ensures bound { (pos 1 ≤ℤ result) × (result ≤ℤ pos 2147483648) }
{
    power(n)
}

/// A number times a power of 2.
fn scaled(a: i64, power: i64) -> i128
    requires { (pos 1 ≤ℤ power) × (power ≤ℤ pos 2147483648) }
    ensures value { result ≡ a *ℤ power }
{
    times(i128::from(a), i128::from(power))
}

/// A number shifted to the left, wrapped.
fn shifted_by(a: i64, n: i64) -> i32
    requires least { pos 0 ≤ℤ n }
    requires greatest { n ≤ℤ pos 31 }
    ensures { result ≡ wrap32 (a *ℤ pos (2 ^ unsigned_abs n)) }
{
    wrap(scaled(a, power_of(n)))
}

/// A shift to the left, wrapped.
fn shifted_left(a: i64, n: i64) -> Option<i32>
    ensures { result ≡ result_ok (arithmetic.operated operators.Shl a n) }
{
    if n < 0 || 32 <= n {
        return None;
    }
    Some(shifted_by(a, n))
}

/// A shift to the right, which copies the sign, wrapped.
fn shifted_right(a: i64, n: i64) -> Option<i32>
    ensures { result ≡ result_ok (exact_of operators.Shr a n) }
{
    if n < 0 || 32 <= n {
        return None;
    }
    Some(wrap(i128::from(a >> n as u32)))
}

/// A shift to the right of a number without a sign.
fn shifted_right_unsigned(a: i32, n: i64) -> Option<i32>
    ensures { result ≡ result_ok (arithmetic.operated operators.ShrUn a n) }
{
    if n < 0 || 32 <= n {
        return None;
    }
    Some((a.cast_unsigned() >> n as u32).cast_signed())
}

/// The product of two numbers of 64 bits.
fn product(a: i64, b: i64) -> i128
    ensures { result ≡ a *ℤ b }
{
    times(i128::from(a), i128::from(b))
}

/// The last 32 bits of a number.
fn bits(n: i64) -> i32
    ensures { result ≡ wrap32 n }
{
    wrap(i128::from(n))
}

/// Returns what an operator gives of two integers, modulo 2^32. None exactly where it faults.
fn operated(op: BinOp, a: i64, b: i64) -> Option<i32>
    ensures { result ≡ result_ok (exact_of op a b) }
{
    match op {
        BinOp::Add => Some(wrap(i128::from(a) + i128::from(b))),
        BinOp::Sub => Some(wrap(difference(a, b))),
        BinOp::Mul => Some(wrap(product(a, b))),
        BinOp::Div => quotient(a, b),
        BinOp::DivUn => unsigned_quotient(bits(a), bits(b)),
        BinOp::Rem => remainder(a, b),
        BinOp::RemUn => unsigned_remainder(bits(a), bits(b)),
        BinOp::And => Some(bits(a) & bits(b)),
        BinOp::Or => Some(bits(a) | bits(b)),
        BinOp::Xor => Some(bits(a) ^ bits(b)),
        BinOp::Shl => shifted_left(a, b),
        BinOp::Shr => shifted_right(a, b),
        BinOp::ShrUn => shifted_right_unsigned(bits(a), b),
        BinOp::AddOvf => exact(i128::from(a) + i128::from(b)),
        BinOp::SubOvf => exact(difference(a, b)),
        BinOp::MulOvf => exact(product(a, b)),
        BinOp::Ceq => Some(i32::from(a == b)),
        BinOp::Cgt => Some(i32::from(b < a)),
        BinOp::CgtUn => Some(i32::from(bits(b).cast_unsigned() < bits(a).cast_unsigned())),
        BinOp::Clt => Some(i32::from(a < b)),
        BinOp::CltUn => Some(i32::from(bits(a).cast_unsigned() < bits(b).cast_unsigned())),
    }
}

/// The constant of an expression that has no symbol.
pub fn constant(k: i64) -> Expr
    ensures { result ≡ record { sym = 0; k = k } }
{
    Expr { sym: 0, k }
}

/// Returns whether the expression is a constant.
pub fn is_constant(e: Expr) -> bool
    ensures { result ≡ is_constant e }
{
    e.sym == 0
}

/// Returns what an operator gives of two constants, where it does not fault: modulo 2^32, since they need be no int32.
pub fn of_constants(op: BinOp, a: Expr, b: Expr) -> Option<i32>
    ensures { result ≡ of_constants op a b }
{
    if is_constant(a) && is_constant(b) {
        operated(op, a.k, b.k)
    } else {
        None
    }
}
