//! The text of arguments and of arrays.

ghost use Rattle.std.specs.Prelude.{◌≡◌, ◌++◌, ℤ, pos, OnOk, Some, if◌then◌else◌, map};
ghost use Rattle.std.specs.List.{flat_map, join_with_byte};
ghost use Rattle.run_arguments.specs.Arguments.{argument_of};
ghost use Rattle.cil_model.specs.declared.arg.Arg.TheVariants.{Same};
ghost use Rattle.run_arguments.specs.Texts.{IsInRange, IsReadFor, bool_text, is_of_bools, items_text, next_item, number_text, text_of};

use cc_base::put_number;
use cil_model::{Arg, Place};
use std::alloc::{AllocError, Global};

/// An item of an array: a number, or a truth value, which is 1 or 0.
pub trait Item: Copy + Drop {
    ghost number: { Self → ℤ };

    /// The number that the item is in an array.
    fn number(self) -> i32
        ensures { result ≡ number self };
}

impl Item for i32 {
    ghost number = { λ n. n };

    fn number(self) -> i32 {
        self
    }
}

impl Item for bool {
    ghost number = { λ b. if b then pos 1 else pos 0 };

    fn number(self) -> i32 {
        i32::from(self)
    }
}

/// Returns whether the type is bool or that of its arrays.
fn is_of_bools(place: Place) -> bool
    ensures { result ≡ is_of_bools place }
{
    matches!(place, Place::Bool | Place::Bools)
}

/// Appends a truth value.
fn append_bool(line: &mut Vec<u8>, truth: bool) -> Result<(), AllocError>
    ensures { OnOk result (line.new.items ≡ line.old.items ++ bool_text truth) }
{
    let text: &[u8] = if truth { b"true" } else { b"false" };
    line.extend_from_slice(text)
}

/// Appends a number of this type, or of an array of it. As a bool, 0 and 1 are `false` and `true`.
///
/// # Errors
///
/// Memory runs out.
pub fn append_item(
    alloc: Global,
    line: &mut Vec<u8>,
    place: Place,
    item: i32,
) -> Result<(), AllocError>
    ensures { OnOk result (line.new.items ≡ line.old.items ++ number_text place item) }
{
    if is_of_bools(place) && item == 0 {
        return append_bool(line, false);
    }
    if is_of_bools(place) && item == 1 {
        return append_bool(line, true);
    }
    put_number(alloc, line, i64::from(item))
}

/// Appends items of this type, or of an array of it, each after a comma.
fn append_next_items<T: Item>(
    alloc: Global,
    line: &mut Vec<u8>,
    place: Place,
    items: &[T],
) -> Result<(), AllocError>
    ensures { OnOk result (line.new.items ≡ line.old.items ++ flat_map (next_item place) (map T.number items.now)) }
{
    for item in items {
        line.push(b',')?;
        append_item(alloc, line, place, item.number())?;
    }
    Ok(())
}

/// Appends the items of an array of this type, with commas between.
#[tactic(auto, using(crate::proofs::ItemLemmas::first_and_others))]
fn append_joined<T: Item>(
    alloc: Global,
    line: &mut Vec<u8>,
    place: Place,
    items: &[T],
) -> Result<(), AllocError>
    ensures { OnOk result (line.new.items ≡ line.old.items ++ join_with_byte 44 (map (number_text place) (map T.number items.now))) }
{
    match items {
        [] => Ok(()),
        [first, others @ ..] => {
            append_item(alloc, line, place, first.number())?;
            append_next_items(alloc, line, place, others)
        }
    }
}

/// Appends the items of an array of this type, in brackets with commas between.
///
/// # Errors
///
/// Memory runs out.
pub fn append_items<T: Item>(
    alloc: Global,
    line: &mut Vec<u8>,
    place: Place,
    items: &[T],
) -> Result<(), AllocError>
    ensures { OnOk result (line.new.items ≡ line.old.items ++ items_text place (map T.number items.now)) }
{
    line.extend_from_slice(b"[")?;
    append_joined(alloc, line, place, items)?;
    line.extend_from_slice(b"]")
}

/// Appends the number of an earlier argument, as a word names it.
fn append_earlier(alloc: Global, line: &mut Vec<u8>, number: u32) -> Result<(), AllocError>
    ensures { OnOk result (line.new.items ≡ line.old.items ++ text_of (Same number)) }
{
    line.push(b'@')?;
    put_number(alloc, line, i64::from(number))
}

/// Appends the word that is an argument.
#[tactic(auto, using(crate::proofs::ItemLemmas::bools_text))]
fn append_word(alloc: Global, line: &mut Vec<u8>, arg: &Arg) -> Result<(), AllocError>
    ensures { OnOk result (line.new.items ≡ line.old.items ++ text_of arg.now) }
{
    match arg {
        Arg::Int(n) => put_number(alloc, line, i64::from(*n)),
        Arg::Bool(truth) => append_bool(line, *truth),
        Arg::Null => line.extend_from_slice(b"null"),
        Arg::Ints(items) => append_items(alloc, line, Place::Ints, items.as_slice()),
        Arg::Bools(items) => append_items(alloc, line, Place::Bools, items.as_slice()),
        Arg::Same(number) => append_earlier(alloc, line, *number),
    }
}

/// Appends the text of an argument: the word of a run that is this argument. Takes time in proportion to the text.
///
/// # Errors
///
/// Memory runs out.
pub fn append_argument(alloc: Global, line: &mut Vec<u8>, arg: &Arg) -> Result<(), AllocError>
    ensures text { OnOk result (line.new.items ≡ line.old.items ++ text_of arg.now) }
    // The text is read as this argument, for a parameter of its type.
    ensures read { (place : Place) → IsInRange arg.now → IsReadFor place arg.now → argument_of place (text_of arg.now) ≡ Some arg.now }
{
    append_word(alloc, line, arg)
}
