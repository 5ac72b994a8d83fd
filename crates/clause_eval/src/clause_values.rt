//! What the nodes of clauses give of the values below them.

ghost use Rattle.std.specs.Prelude.{◌≡◌};
ghost use Rattle.std.specs.Option.{option_and_then};
ghost use Rattle.cil_model.specs.Clauses as clauses;
ghost use Rattle.cil_model.specs.Comparisons as comparisons;
ghost use Rattle.clause_eval.specs.Sources.{HasShort, heap_in};

use crate::arithmetic::{operated, operated_one};
use crate::arrays::{Arrays, item_in, length as length_of};
use crate::comparisons::{comparison_of, comparison_value, is_true};
use cil_model::{BinOp, Place, UnOp, Value};

fn arithmetic_value(op: BinOp, a: Value, b: Value) -> Option<Value>
    ensures { result ≡ clauses.arithmetic_value op a b }
{
    match (a, b) {
        (Value::Int(a), Value::Int(b)) => match operated(op, a, b) {
            Ok(n) => Some(Value::Int(n)),
            Err(_) => None,
        },
        _ => None,
    }
}

/// Returns what an operator gives of two values, where it does not fault.
fn binary_value(op: BinOp, a: Value, b: Value) -> Option<Value>
    ensures { result ≡ clauses.binary_value op a b }
{
    match comparison_of(op) {
        Some(comparison) => comparison_value(comparison, a, b),
        None => arithmetic_value(op, a, b),
    }
}

/// The same of two values that may be missing.
pub(crate) fn binary(op: BinOp, a: Option<Value>, b: Option<Value>) -> Option<Value>
    ensures { result ≡ clauses.both a b (clauses.binary_value op) }
{
    match (a, b) {
        (Some(a), Some(b)) => binary_value(op, a, b),
        _ => None,
    }
}

/// Returns what an operator gives of one value.
pub(crate) fn unary(op: UnOp, a: Option<Value>) -> Option<Value>
    ensures { result ≡ option_and_then (clauses.unary_value op) a }
{
    match a {
        Some(Value::Int(a)) => Some(Value::Int(operated_one(op, a))),
        _ => None,
    }
}

#[tactic(auto, using(crate::proofs::GivenLemmas::length_value_is))]
fn length_value(arrays: &Arrays<'_>, value: Value) -> Option<Value>
    requires { HasShort arrays.now }
    ensures { result ≡ clauses.length_value (heap_in arrays.now) value }
{
    match value {
        Value::Array(index) => match length_of(arrays, index) {
            Some(len) => Some(Value::Int(len)),
            None => None,
        },
        _ => None,
    }
}

/// The length of an array.
pub(crate) fn length(arrays: &Arrays<'_>, value: Option<Value>) -> Option<Value>
    requires { HasShort arrays.now }
    ensures { result ≡ option_and_then (clauses.length_value (heap_in arrays.now)) value }
{
    match value {
        Some(value) => length_value(arrays, value),
        None => None,
    }
}

#[tactic(auto, using(crate::proofs::GivenLemmas::element_value_is, crate::proofs::GivenLemmas::no_element))]
fn element_value(arrays: &Arrays<'_>, place: Place, array: Value, index: Value) -> Option<Value>
    ensures { result ≡ clauses.element_value (heap_in arrays.now) place array index }
{
    let (Value::Array(array), Value::Int(index)) = (array, index) else {
        return None;
    };
    if index < 0 {
        return None;
    }
    match item_in(arrays, place, array, index.unsigned_abs()) {
        Some(item) => Some(Value::Int(item)),
        None => None,
    }
}

/// The item at an index of an array of this type.
pub(crate) fn element(
    arrays: &Arrays<'_>,
    place: Place,
    array: Option<Value>,
    index: Option<Value>,
) -> Option<Value>
    ensures { result ≡ clauses.both array index (clauses.element_value (heap_in arrays.now) place) }
{
    match (array, index) {
        (Some(array), Some(index)) => element_value(arrays, place, array, index),
        _ => None,
    }
}

/// One of two values, by a third one.
pub(crate) fn chosen(test: Option<Value>, a: Option<Value>, b: Option<Value>) -> Option<Value>
    ensures { result ≡ clauses.chosen (option_and_then comparisons.is_true test) a b }
{
    match is_true(test?) {
        Some(true) => a,
        Some(false) => b,
        None => None,
    }
}
