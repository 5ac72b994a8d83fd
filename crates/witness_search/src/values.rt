//! The values that parameters are tried with.

ghost use Rattle.std.specs.Prelude.{◌≡◌, ◌++◌, ◌≤◌, IfOk, OnOk, length, map};
ghost use Rattle.cil_model.specs.Limits.{MAX_VARIABLES};
ghost use Rattle.cil_model.specs.declared.arg.Arg.TheVariants as args;
ghost use Rattle.witness_search.specs.Choices.{same_as, values_of};

use cil_model::{Arg, List, Place};
use std::alloc::{AllocError, Global};

/// The numbers that an int32 is tried with.
const INTS: [i32; 9] = [0, 1, -1, 2, 3, -2, 10, i32::MAX, i32::MIN];

/// The arrays that an array of int32 is tried with.
const INT_ARRAYS: [&[i32]; 4] = [&[], &[0], &[1, 2], &[3, 1, 2]];

/// The arrays that an array of bool is tried with.
const BOOL_ARRAYS: [&[bool]; 3] = [&[], &[false], &[true, false]];

/// Appends an argument for each number.
fn put_ints(values: &mut Vec<Arg>, numbers: &[i32]) -> Result<(), AllocError>
    ensures { OnOk result (values.new.items ≡ values.old.items ++ map args.Int numbers.now) }
{
    for number in numbers {
        values.push(Arg::Int(*number))?;
    }
    Ok(())
}

/// Appends an argument for each array.
fn put_int_arrays(alloc: Global, values: &mut Vec<Arg>, arrays: &[&[i32]]) -> Result<(), AllocError>
    ensures { OnOk result (values.new.items ≡ values.old.items ++ map (λ items. args.Ints items.now) arrays.now) }
{
    for items in arrays {
        let items = Vec::from_slice(alloc, items)?;
        values.push(Arg::Ints(List::from_vec(items)))?;
    }
    Ok(())
}

/// Appends an argument for each array.
fn put_bool_arrays(
    alloc: Global,
    values: &mut Vec<Arg>,
    arrays: &[&[bool]],
) -> Result<(), AllocError>
    ensures { OnOk result (values.new.items ≡ values.old.items ++ map (λ items. args.Bools items.now) arrays.now) }
{
    for items in arrays {
        let items = Vec::from_slice(alloc, items)?;
        values.push(Arg::Bools(List::from_vec(items)))?;
    }
    Ok(())
}

/// Appends, for each earlier parameter of this type, what that one is given.
fn put_same(values: &mut Vec<Arg>, place: Place, earlier: &[Place]) -> Result<(), AllocError>
    requires { length earlier.now ≤ MAX_VARIABLES }
    ensures { OnOk result (values.new.items ≡ values.old.items ++ same_as place earlier.now) }
{
    for (k, other) in earlier.iter().enumerate() {
        if *other == place {
            values.push(Arg::Same(k as u32))?;
        }
    }
    Ok(())
}

/// The values of a parameter of this type, where the earlier parameters have these types.
pub(crate) fn values_of(
    alloc: Global,
    earlier: &[Place],
    place: Place,
) -> Result<Vec<Arg>, AllocError>
    requires { length earlier.now ≤ MAX_VARIABLES }
    ensures { IfOk result (λ values. values.items ≡ values_of earlier.now place) }
{
    let mut values = Vec::new(alloc);
    match place {
        Place::Void => {}
        Place::Int => put_ints(&mut values, &INTS)?,
        Place::Bool => {
            values.push(Arg::Bool(false))?;
            values.push(Arg::Bool(true))?;
        }
        Place::Ints => {
            values.push(Arg::Null)?;
            put_int_arrays(alloc, &mut values, &INT_ARRAYS)?;
            put_same(&mut values, place, earlier)?;
        }
        Place::Bools => {
            values.push(Arg::Null)?;
            put_bool_arrays(alloc, &mut values, &BOOL_ARRAYS)?;
            put_same(&mut values, place, earlier)?;
        }
    }
    Ok(values)
}
