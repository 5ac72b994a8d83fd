//! Values that methods return, as text.

ghost use Rattle.std.specs.Prelude.{◌≡◌, ◌++◌, IfOk, OnOk};
ghost use Rattle.method_run.specs.ValueTexts.{returned_text, value_text};

use cil_eval::Machine;
use cil_model::{Place, Value};
use run_arguments::{append_item, append_items};
use std::alloc::{AllocError, Global};

/// Appends a value of this type, with the items of arrays of the machine.
fn put_value(
    alloc: Global,
    line: &mut Vec<u8>,
    place: Place,
    machine: &Machine<'_>,
    value: Value,
) -> Result<(), AllocError>
    ensures { OnOk result (line.new.items ≡ line.old.items ++ value_text place machine.now.store.heap value) }
{
    match value {
        Value::Int(n) => append_item(alloc, line, place, n),
        Value::Null => line.extend_from_slice(b"null"),
        Value::Array(index) => match machine.elements(index) {
            Some(items) => append_items(alloc, line, place, items),
            None => Ok(()),
        },
        Value::Native(_) | Value::Addr(..) | Value::Text => Ok(()),
    }
}

/// Tells what a method returned, whose result has this type, with the items of arrays of the machine.
pub(crate) fn returned_text(
    alloc: Global,
    place: Place,
    machine: &Machine<'_>,
    returned: Option<Value>,
) -> Result<Vec<u8>, AllocError>
    ensures { IfOk result (λ text. text.items ≡ returned_text place machine.now.store.heap returned) }
{
    let Some(value) = returned else {
        return Vec::from_slice(alloc, b"returned");
    };
    let mut text = Vec::from_slice(alloc, b"returned ")?;
    put_value(alloc, &mut text, place, machine, value)?;
    Ok(text)
}
