//! Values, and the places that hold them (ECMA-335 I.12.3.2).

ghost use Rattle.std.specs.Prelude.{◌≡◌};
ghost use Rattle.cil_model.specs.Values as values;
ghost use Rattle.clause_eval.specs.Variables.{IsArrays};

use crate::memory::Memory;
use cil_model::{Place, Value};

/// Returns whether there is an array of this type at an index.
fn has_array(memory: &Memory, place: Place, index: u32) -> bool
    ensures { result ≡ values.has_array memory.now.heap place index }
{
    match memory.array(index) {
        Some(array) => array.place == place,
        None => false,
    }
}

/// A reference as it is put into a place of arrays.
fn put_reference(memory: &Memory, place: Place, value: Value) -> Option<Value>
    requires { IsArrays place }
    ensures { result ≡ values.put memory.now.heap place value }
{
    match value {
        Value::Null => Some(value),
        Value::Array(index) if has_array(memory, place, index) => Some(value),
        _ => None,
    }
}

/// A value as it is put into a place: a bool place keeps its low eight bits. None where the value has not the form of
/// the place.
pub fn put(memory: &Memory, place: Place, value: Value) -> Option<Value>
    ensures { result ≡ values.put memory.now.heap place value }
{
    match place {
        Place::Void => None,
        Place::Bool => match value {
            Value::Int(n) => Some(Value::Int(n.rem_euclid(256))),
            _ => None,
        },
        Place::Int => match value {
            Value::Int(_) => Some(value),
            _ => None,
        },
        Place::Bools | Place::Ints => put_reference(memory, place, value),
    }
}

/// Returns what a local holds before it is stored to.
pub fn zero_of(place: Place) -> Value
    ensures { result ≡ values.zero_of place }
{
    match place {
        Place::Bools | Place::Ints => Value::Null,
        _ => Value::Int(0),
    }
}
