//! The arguments that a run is given: whether they fit, what their values are, and their arrays.

ghost use Rattle.std.specs.Prelude.{◌≡◌, ◌+◌, ◌≤◌, ◌++◌, length, reverse, nat_le};
ghost use Rattle.cil_eval.specs.Given as given;
ghost use Rattle.clause_eval.specs.GivenArrays.{AreShort, heap_of};
ghost use Rattle.clause_eval.specs.Piles.{size_of};
ghost use Rattle.clause_eval.specs.Stores.{cells_of};
ghost use Rattle.cil_model.specs.Limits.{MAX_VARIABLES};

use cil_model::{Arg, Place, Value};
use clause_eval::{Memory, Pile, is_array, item_count};

/// Returns whether a place is one of arrays.
fn is_arrays(place: Place) -> bool
    ensures { result ≡ given.is_arrays place }
{
    matches!(place, Place::Ints | Place::Bools)
}

/// Returns whether the parameter of this number has the place.
#[tactic(auto, using(clause_eval::proofs::PileLemmas::turned_last, crate::proofs::StartLemmas::not_last))]
fn has_place(types: &[Place], k: usize, place: Place) -> bool
    ensures { result ≡ given.has_place (reverse types.now) k place }
{
    let [earlier @ .., last] = types else {
        return false;
    };
    if earlier.len() != k {
        return has_place(earlier, k, place);
    }
    *last == place
}

/// Returns whether an argument fits its parameter, given the earlier ones.
fn arg_fits(earlier: &[Place], place: Place, arg: &Arg) -> bool
    ensures { result ≡ given.arg_fits (reverse earlier.now) place arg.now }
{
    match arg {
        Arg::Int(_) => place == Place::Int,
        Arg::Bool(_) => place == Place::Bool,
        Arg::Null => is_arrays(place),
        Arg::Ints(items) => place == Place::Ints && items.as_slice().len() < 0x8000_0000,
        Arg::Bools(items) => place == Place::Bools && items.as_slice().len() < 0x8000_0000,
        Arg::Same(k) => is_arrays(place) && has_place(earlier, *k as usize, place),
    }
}

/// Returns whether arguments fit a method's parameters: there is one for each, of its type.
#[tactic(auto, using(clause_eval::proofs::PileLemmas::turned_last, crate::proofs::StartLemmas::none_fit))]
pub(crate) fn args_fit(types: &[Place], args: &[Arg]) -> bool
    ensures { result ≡ given.args_fit types.now args.now }
{
    let [earlier @ .., place] = types else {
        return args.is_empty();
    };
    let [before @ .., arg] = args else {
        return false;
    };
    arg_fits(earlier, *place, arg) && args_fit(earlier, before)
}

/// Returns how many arrays arguments make.
#[tactic(auto, using(clause_eval::proofs::PileLemmas::turned_last))]
fn array_count(args: &[Arg]) -> u32
    requires { length args.now ≤ MAX_VARIABLES }
    ensures count { result ≡ given.array_count (reverse args.now) }
    ensures few { result ≤ length args.now }
{
    let [earlier @ .., last] = args else {
        return 0;
    };
    let count = array_count(earlier);
    if is_array(last) { count + 1 } else { count }
}

/// The value of the argument of this number.
#[tactic(auto, using(clause_eval::proofs::PileLemmas::turned_last))]
fn value_at(args: &[Arg], k: usize) -> Value
    requires { length args.now ≤ MAX_VARIABLES }
    ensures { result ≡ given.value_back (reverse args.now) k }
{
    let [earlier @ .., last] = args else {
        return Value::Null;
    };
    if earlier.len() != k {
        return value_at(earlier, k);
    }
    match last {
        Arg::Int(n) => Value::Int(*n),
        Arg::Bool(b) => Value::Int(i32::from(*b)),
        Arg::Null => Value::Null,
        Arg::Ints(_) | Arg::Bools(_) => Value::Array(array_count(earlier)),
        Arg::Same(k) => value_at(earlier, *k as usize),
    }
}

/// Puts the values of arguments on a list, the last one first.
#[tactic(auto, using(crate::proofs::StartLemmas::values_more))]
pub(crate) fn put_values_of(args: &[Arg], values: &mut Pile<Value>)
    requires few { length args.now ≤ MAX_VARIABLES }
    requires room { size_of values.old + length args.now ≤ values.old.room }
    ensures { values.new ≡ record values.old { top = given.values_of args.now ++ values.old.top } }
{
    if let [earlier @ .., _] = args {
        values.push(value_at(args, earlier.len()));
        put_values_of(earlier, values);
    }
}

/// Returns whether there are cells for the arrays that arguments make.
#[tactic(auto, using(crate::proofs::StartLemmas::cells_left, crate::proofs::StartLemmas::no_cells))]
pub(crate) fn have_cells(args: &[Arg], limit: usize) -> bool
    ensures { result ≡ nat_le (cells_of (heap_of args.now)) limit }
{
    let [first, others @ ..] = args else {
        return true;
    };
    let Some(count) = item_count(first) else {
        return have_cells(others, limit);
    };
    if limit <= count {
        return false;
    }
    have_cells(others, limit - count - 1)
}

/// Puts the arrays that arguments make, for which there are cells.
#[tactic(auto, using(crate::proofs::StartLemmas::room_for_first))]
pub(crate) fn put_arrays(args: &[Arg], memory: &mut Memory)
    requires short { AreShort args.now }
    requires room { cells_of memory.old.heap + cells_of (heap_of args.now) ≤ memory.old.limit }
    ensures { memory.new ≡ record memory.old { heap = memory.old.heap ++ heap_of args.now } }
{
    let [first, others @ ..] = args else {
        return;
    };
    if !is_array(first) {
        return put_arrays(others, memory);
    }
    memory.put(first);
    put_arrays(others, memory);
}
