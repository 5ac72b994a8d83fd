//! Comparisons of values, and what is taken for true (ECMA-335 III.1.5, III.3.17 and III.3.18).

ghost use Rattle.std.specs.Prelude.{◌≡◌};
ghost use Rattle.cil_model.specs.Arithmetic as arithmetic;
ghost use Rattle.cil_model.specs.Comparisons as comparisons;

use cil_model::{BinOp, CmpOp, Value};

/// 2^32, the number of numbers of 32 bits.
const COUNT: u64 = 4_294_967_296;

/// The number of 32 bits without its sign.
fn unsigned(n: i64) -> u64
    ensures { result ≡ arithmetic.unsigned n }
{
    if n < 0 {
        COUNT.saturating_sub(n.unsigned_abs())
    } else {
        n as u64
    }
}

/// Returns whether a comparison holds of two numbers. Those without a sign take both as unsigned.
fn compares(op: CmpOp, a: i64, b: i64) -> bool
    ensures { result ≡ arithmetic.compares op a b }
{
    match op {
        CmpOp::Eq => a == b,
        CmpOp::Ge => b <= a,
        CmpOp::Gt => b < a,
        CmpOp::Le => a <= b,
        CmpOp::Lt => a < b,
        CmpOp::NeUn => a != b,
        CmpOp::GeUn => unsigned(b) <= unsigned(a),
        CmpOp::GtUn => unsigned(b) < unsigned(a),
        CmpOp::LeUn => unsigned(a) <= unsigned(b),
        CmpOp::LtUn => unsigned(a) < unsigned(b),
    }
}

/// The number of a value: an int32, or an array's length, which counts as that int32.
pub fn number_of(value: Value) -> Option<i64>
    ensures { result ≡ comparisons.number_of value }
{
    match value {
        Value::Int(n) => Some(i64::from(n)),
        Value::Native(n) => Some(i64::from(n)),
        _ => None,
    }
}

/// The reference of a value: none is null.
fn reference_of(value: Value) -> Option<Option<u32>>
    ensures { result ≡ comparisons.reference_of value }
{
    match value {
        Value::Null => Some(None),
        Value::Array(array) => Some(Some(array)),
        _ => None,
    }
}

fn is_same_reference(a: Option<u32>, b: Option<u32>) -> bool
    ensures { result ≡ comparisons.same_reference a b }
{
    match (a, b) {
        (None, None) => true,
        (Some(a), Some(b)) => a == b,
        _ => false,
    }
}

/// Two references are compared for equality alone.
fn compares_references(op: CmpOp, a: Option<u32>, b: Option<u32>) -> Option<bool>
    ensures { result ≡ comparisons.compares_references op a b }
{
    match op {
        CmpOp::Eq => Some(is_same_reference(a, b)),
        CmpOp::NeUn => Some(!is_same_reference(a, b)),
        _ => None,
    }
}

/// A comparison of two values, where they may be compared.
pub fn compares_values(op: CmpOp, a: Value, b: Value) -> Option<bool>
    ensures { result ≡ comparisons.compares_values op a b }
{
    match (number_of(a), number_of(b)) {
        (Some(a), Some(b)) => Some(compares(op, a, b)),
        _ => match (reference_of(a), reference_of(b)) {
            (Some(a), Some(b)) => compares_references(op, a, b),
            _ => None,
        },
    }
}

/// The same, where the outcome is pushed: here an array is above null.
fn pushed_comparison(op: CmpOp, a: Value, b: Value) -> Option<bool>
    ensures { result ≡ comparisons.pushed_comparison op a b }
{
    match (op, a, b) {
        (CmpOp::GtUn, Value::Array(_), Value::Null) => Some(true),
        (CmpOp::GtUn, Value::Null, Value::Null) => Some(false),
        _ => compares_values(op, a, b),
    }
}

/// The number that a comparison pushes.
pub fn comparison_value(op: CmpOp, a: Value, b: Value) -> Option<Value>
    ensures { result ≡ comparisons.comparison_value op a b }
{
    match pushed_comparison(op, a, b) {
        Some(holds) => Some(Value::Int(i32::from(holds))),
        None => None,
    }
}

/// The comparison that an operator is.
pub fn comparison_of(op: BinOp) -> Option<CmpOp>
    ensures { result ≡ comparisons.comparison_of op }
{
    match op {
        BinOp::Ceq => Some(CmpOp::Eq),
        BinOp::Cgt => Some(CmpOp::Gt),
        BinOp::CgtUn => Some(CmpOp::GtUn),
        BinOp::Clt => Some(CmpOp::Lt),
        BinOp::CltUn => Some(CmpOp::LtUn),
        _ => None,
    }
}

/// Returns whether a value is taken for true: a number other than 0, and a reference other than null.
pub fn is_true(value: Value) -> Option<bool>
    ensures { result ≡ comparisons.is_true value }
{
    match value {
        Value::Int(n) => Some(n != 0),
        Value::Native(n) => Some(n != 0),
        Value::Null => Some(false),
        Value::Array(_) => Some(true),
        Value::Addr(..) | Value::Text => None,
    }
}
