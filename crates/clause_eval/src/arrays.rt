//! Where clauses find arrays.

ghost use Rattle.std.specs.Prelude.{◌≡◌, slice_get, option_map, pos, IfSome, MatchOption, None, Some};
ghost use Rattle.clause_eval.specs.GivenArrays as given;
ghost use Rattle.clause_eval.specs.GivenArrays.{AreShort, IsShort};
ghost use Rattle.clause_eval.specs.Lookups.{item_at, length_at};
ghost use Rattle.clause_eval.specs.Sources.{HasShort, heap_in};

use crate::memory::Memory;
use cil_model::{Arg, Place};

/// Where clauses find arrays.
#[derive(Clone, Copy)]
pub enum Arrays<'a> {
    /// In the machine.
    Made(&'a Memory),
    /// Among arguments of which the machine has none yet.
    Given(&'a [Arg]),
}

/// Returns whether an argument makes an array.
pub fn is_array(arg: &Arg) -> bool
    ensures { result ≡ given.is_array arg.now }
{
    matches!(arg, Arg::Ints(_) | Arg::Bools(_))
}

/// The type of the array that an argument makes, if it makes one.
pub(crate) fn place_of(arg: &Arg) -> Place
    ensures { result ≡ given.place_of arg.now }
{
    match arg {
        Arg::Bools(_) => Place::Bools,
        _ => Place::Ints,
    }
}

/// The argument that makes the array of this index.
fn find(args: &[Arg], index: u32) -> Option<&Arg>
    ensures found { MatchOption result (slice_get (given.heap_of args.now) index ≡ None) (λ arg. slice_get (given.heap_of args.now) index ≡ given.array_of arg.now) }
    ensures short { AreShort args.now → IfSome result (λ arg. IsShort arg.now) }
{
    let [first, others @ ..] = args else {
        return None;
    };
    if !is_array(first) {
        return find(others, index);
    }
    if index == 0 {
        return Some(first);
    }
    find(others, index - 1)
}

/// Returns how many items the array has that an argument makes.
pub fn item_count(arg: &Arg) -> Option<usize>
    ensures { result ≡ given.item_count arg.now }
{
    match arg {
        Arg::Ints(items) => Some(items.as_slice().len()),
        Arg::Bools(items) => Some(items.as_slice().len()),
        _ => None,
    }
}

/// The length of the array that an argument makes.
fn length_of(arg: &Arg) -> Option<i32>
    requires { IsShort arg.now }
    ensures { result ≡ option_map pos (given.item_count arg.now) }
{
    match item_count(arg) {
        Some(count) => Some(count as i32),
        None => None,
    }
}

/// The item at an index of an array of this type that an argument makes.
fn item(arg: &Arg, place: Place, n: u32) -> Option<i32>
    ensures { result ≡ given.item_of place n arg.now }
{
    match arg {
        Arg::Ints(items) if place == Place::Ints => items.as_slice().get(n as usize).copied(),
        Arg::Bools(items) if place == Place::Bools => {
            let item = *items.as_slice().get(n as usize)?;
            Some(i32::from(item))
        }
        _ => None,
    }
}

/// The length of the array of this index among the arguments.
#[tactic(auto, using(crate::proofs::GivenLemmas::length_found))]
fn given_length(args: &[Arg], index: u32) -> Option<i32>
    requires { AreShort args.now }
    ensures { result ≡ length_at (given.heap_of args.now) index }
{
    match find(args, index) {
        Some(arg) => length_of(arg),
        None => None,
    }
}

/// The item at an index of the array of this index among the arguments, where it is of this type.
#[tactic(auto, using(crate::proofs::GivenLemmas::item_found))]
fn given_item(args: &[Arg], place: Place, index: u32, n: u32) -> Option<i32>
    ensures { result ≡ item_at (given.heap_of args.now) place index n }
{
    match find(args, index) {
        Some(arg) => item(arg, place, n),
        None => None,
    }
}

/// The length of the array of this index in the machine.
fn made_length(memory: &Memory, index: u32) -> Option<i32>
    ensures { result ≡ length_at memory.now.heap index }
{
    let array = memory.array(index)?;
    Some(array.items.len() as i32)
}

/// The item at an index of the array of this index in the machine, where it is of this type.
fn made_item(memory: &Memory, place: Place, index: u32, n: u32) -> Option<i32>
    ensures { result ≡ item_at memory.now.heap place index n }
{
    let array = memory.array(index)?;
    if array.place != place {
        return None;
    }
    array.items.get(n as usize).copied()
}

/// The length of the array of this index.
pub(crate) fn length(arrays: &Arrays<'_>, index: u32) -> Option<i32>
    requires { HasShort arrays.now }
    ensures { result ≡ length_at (heap_in arrays.now) index }
{
    match *arrays {
        Arrays::Made(memory) => made_length(memory, index),
        Arrays::Given(args) => given_length(args, index),
    }
}

/// The item at an index of the array of this index, where it is of this type.
pub(crate) fn item_in(arrays: &Arrays<'_>, place: Place, index: u32, n: u32) -> Option<i32>
    ensures { result ≡ item_at (heap_in arrays.now) place index n }
{
    match *arrays {
        Arrays::Made(memory) => made_item(memory, place, index, n),
        Arrays::Given(args) => given_item(args, place, index, n),
    }
}
