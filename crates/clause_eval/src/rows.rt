//! Rows of numbers and values in memory that is taken once.

ghost use Rattle.std.specs.Prelude.{◌≡◌, ◌+◌, ◌-◌, ◌<◌, ◌≤◌, [], ◌∷◌, ◌++◌, length, map, replicate, take, drop, pos};
ghost use Rattle.std.specs.Vec.{vec_len, vec_capacity};
ghost use Rattle.clause_eval.specs.GivenArrays.{byte_of, items_of};

use cil_model::Arg;

/// Appends to a row that has room.
pub(crate) fn append<T: Drop>(row: &mut Vec<T>, item: T)
    requires { vec_len row.old < vec_capacity row.old }
    ensures items { row.new.items ≡ row.old.items ++ item ∷ [] }
    ensures capacity { vec_capacity row.old ≤ vec_capacity row.new }
{
    let _ = row.push(item);
}

/// Appends zeros up to a length for which the row has room.
pub(crate) fn fill(row: &mut Vec<i32>, len: usize)
    requires longer { vec_len row.old ≤ len }
    requires room { len ≤ vec_capacity row.old }
    ensures items { row.new.items ≡ row.old.items ++ replicate (len - vec_len row.old) (pos 0) }
    ensures capacity { vec_capacity row.old ≤ vec_capacity row.new }
{
    let _ = row.resize(len, 0);
}

/// So many numbers from a place on.
pub(crate) fn part(row: &[i32], start: u32, len: u32) -> &[i32]
    requires { start + len ≤ length row.now }
    ensures { result.now ≡ take len (drop start row.now) }
{
    let start = start as usize;
    &row[start..start + len as usize]
}

/// Appends the items of the array that an argument makes to a row that has room.
pub(crate) fn append_items(row: &mut Vec<i32>, arg: &Arg)
    requires { vec_len row.old + length (items_of arg.now) ≤ vec_capacity row.old }
    ensures items { row.new.items ≡ row.old.items ++ items_of arg.now }
    ensures capacity { vec_capacity row.old ≤ vec_capacity row.new }
{
    match arg {
        Arg::Ints(items) => append_ints(row, items.as_slice()),
        Arg::Bools(items) => append_bools(row, items.as_slice()),
        _ => {}
    }
}

/// Appends numbers to a row that has room.
fn append_ints(row: &mut Vec<i32>, items: &[i32])
    requires { vec_len row.old + length items.now ≤ vec_capacity row.old }
    ensures items { row.new.items ≡ row.old.items ++ items.now }
    ensures capacity { vec_capacity row.old ≤ vec_capacity row.new }
{
    let _ = row.extend_from_slice(items);
}

/// Appends truth values as 0 and 1 to a row that has room.
fn append_bools(row: &mut Vec<i32>, items: &[bool])
    requires { vec_len row.old + length items.now ≤ vec_capacity row.old }
    ensures items { row.new.items ≡ row.old.items ++ map byte_of items.now }
    ensures capacity { vec_capacity row.old ≤ vec_capacity row.new }
{
    for item in items {
        append(row, i32::from(*item));
    }
}
