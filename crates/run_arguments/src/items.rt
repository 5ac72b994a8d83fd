//! The items of a list.

ghost use Rattle.std.specs.Prelude.{◌≡◌, IfOk, filter_map};
ghost use Rattle.std.specs.List.{list_all};
ghost use Rattle.run_arguments.specs.Numbers.{int_of_word};
ghost use Rattle.run_arguments.specs.Arguments.{bool_of_word, is_int, is_bool, items_of};

use crate::number::read_int;
use std::alloc::{AllocError, Global};

/// The truth value that a word names.
pub(crate) fn read_bool(word: &str) -> Option<bool>
    ensures { result ≡ bool_of_word word.now }
{
    match word {
        "true" => Some(true),
        "false" => Some(false),
        _ => None,
    }
}

/// Returns whether each item is an int32.
pub(crate) fn are_ints(items: &str) -> bool
    ensures { result ≡ list_all is_int (items_of items.now) }
{
    items.split(',').all(|item| read_int(item).is_some())
}

/// Returns whether each item is a truth value.
pub(crate) fn are_bools(items: &str) -> bool
    ensures { result ≡ list_all is_bool (items_of items.now) }
{
    items.split(',').all(|item| read_bool(item).is_some())
}

/// The items that are int32, as numbers.
pub(crate) fn ints_of(alloc: Global, items: &str) -> Result<Vec<i32>, AllocError>
    ensures { IfOk result (λ ints. ints.items ≡ filter_map int_of_word (items_of items.now)) }
{
    items.split(',').filter_map(read_int).collect(alloc)
}

/// The items that are truth values.
pub(crate) fn bools_of(alloc: Global, items: &str) -> Result<Vec<bool>, AllocError>
    ensures { IfOk result (λ bools. bools.items ≡ filter_map bool_of_word (items_of items.now)) }
{
    items.split(',').filter_map(read_bool).collect(alloc)
}
