//! The printed types of a method's parameters.

ghost use Rattle.std.specs.Prelude.{◌≡◌, ◌++◌, OnOk, OnErr};
ghost use Rattle.std.specs.List.{flat_map};
ghost use Rattle.cil_model.specs.Places.{next_parameter, parameters_text};

use crate::place::Place;
use std::alloc::{AllocError, Global};

/// Appends the types of parameters, with commas between. Where memory runs out, nothing is appended.
pub fn append_parameters(
    alloc: Global,
    line: &mut Vec<u8>,
    places: &[Place],
) -> Result<(), AllocError>
    ensures ok { OnOk result (line.new.items ≡ line.old.items ++ parameters_text places.now) }
    ensures err { OnErr result (line.new.items ≡ line.old.items) }
{
    let mut text = Vec::new(alloc);
    put_parameters(&mut text, places)?;
    line.extend_from_slice(&text)
}

/// Appends the types of parameters, with commas between. An error may leave some of them.
fn put_parameters(text: &mut Vec<u8>, places: &[Place]) -> Result<(), AllocError>
    ensures ok { OnOk result (text.new.items ≡ text.old.items ++ parameters_text places.now) }
{
    match places {
        [] => Ok(()),
        [first, rest @ ..] => {
            text.extend_from_slice(first.text())?;
            put_next_parameters(text, rest)
        }
    }
}

/// Appends the types of parameters, each after a comma. An error may leave some of them.
fn put_next_parameters(text: &mut Vec<u8>, places: &[Place]) -> Result<(), AllocError>
    ensures ok { OnOk result (text.new.items ≡ text.old.items ++ flat_map next_parameter places.now) }
{
    for place in places {
        text.push(b',')?;
        text.extend_from_slice(place.text())?;
    }
    Ok(())
}
