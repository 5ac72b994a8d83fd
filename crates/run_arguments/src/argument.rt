//! Words that are arguments.

ghost use Rattle.std.specs.Prelude.{◌≡◌, ◌⊎◌, IsTrue, IfOk, Some, is_some, option_map, option_and_then, codes};
ghost use Rattle.cil_model.specs.declared.arg.Arg.{Arg};
ghost use Rattle.run_arguments.specs.Arguments as words;
ghost use Rattle.run_arguments.specs.Texts.{IsInRange, text_of};

use crate::items::{are_bools, are_ints, bools_of, ints_of, read_bool};
use crate::number::{read_int, read_number};
use cil_model::{Arg, List, Place};
use std::alloc::{AllocError, Global};

/// The number of an earlier argument that a word names.
fn read_earlier(word: &str) -> Option<u32>
    ensures { result ≡ words.earlier_of_word word.now }
{
    read_number(word.strip_prefix('@')?, u32::MAX)
}

/// Returns what stands between the brackets of a word.
fn between_brackets(word: &str) -> Option<&str>
    ensures { option_map (λ text. text.now) result ≡ words.between_brackets word.now }
{
    word.strip_prefix('[')?.strip_suffix(']')
}

/// Returns whether what stands between brackets is a list.
fn is_list(items: &str) -> bool
    ensures { result ≡ is_some (words.list_of Place.Ints items.now) }
{
    items.is_empty() || are_ints(items) || are_bools(items)
}

/// Returns whether a word is a list in brackets.
fn is_bracketed(word: &str) -> bool
    ensures { result ≡ is_some (option_and_then (words.list_of Place.Ints) (words.between_brackets word.now)) }
{
    match between_brackets(word) {
        Some(items) => is_list(items),
        None => false,
    }
}

/// The list without items, for a parameter of this type.
fn empty_list(alloc: Global, place: Place) -> Arg
    ensures { result ≡ words.empty_of place }
{
    match place {
        Place::Bools => Arg::Bools(List::from_vec(Vec::new(alloc))),
        _ => Arg::Ints(List::from_vec(Vec::new(alloc))),
    }
}

/// The list between brackets, for a parameter of this type.
fn read_list(alloc: Global, items: &str, place: Place) -> Result<Arg, AllocError>
    requires { IsTrue (is_some (words.list_of place items.now)) }
    ensures { IfOk result (λ arg. words.list_of place items.now ≡ Some arg) }
{
    if items.is_empty() {
        return Ok(empty_list(alloc, place));
    }
    if are_ints(items) {
        return Ok(Arg::Ints(List::from_vec(ints_of(alloc, items)?)));
    }
    Ok(Arg::Bools(List::from_vec(bools_of(alloc, items)?)))
}

/// Returns whether a word has one of the forms of an argument.
#[tactic(auto, unfolding(crate::specs::Arguments::is_argument, crate::specs::Arguments::argument_of))]
fn has_form(word: &str) -> bool
    ensures { result ≡ words.is_argument word.now }
{
    read_int(word).is_some()
        || read_bool(word).is_some()
        || read_earlier(word).is_some()
        || word == "null"
        || is_bracketed(word)
}

/// Returns whether a word is an argument of a run: an int32 in decimal, `true`, `false`, `null`, a list of int32 or of
/// truth values in brackets with commas between them, or `@` and the number of an earlier argument. Takes time in
/// proportion to the word, and no memory.
pub fn is_argument(word: &str) -> bool
    ensures grammar { result ≡ words.is_argument word.now }
    // The text of every argument is one, and nothing else is.
    ensures every { (arg : Arg) → IsInRange arg → word.now ≡ text_of arg → IsTrue result }
    ensures only { IsTrue result → (arg : Arg) × IsInRange arg × (word.now ≡ text_of arg) }
{
    has_form(word)
}

/// The argument that a word is for a parameter of this type.
#[tactic(auto, unfolding(crate::specs::Arguments::is_argument, crate::specs::Arguments::argument_of))]
fn parse_argument(alloc: Global, word: &str, place: Place) -> Result<Arg, AllocError>
    requires { IsTrue (words.is_argument word.now) }
    ensures { IfOk result (λ arg. words.argument_of place word.now ≡ Some arg) }
{
    if let Some(n) = read_int(word) {
        return Ok(Arg::Int(n));
    }
    if let Some(b) = read_bool(word) {
        return Ok(Arg::Bool(b));
    }
    if let Some(k) = read_earlier(word) {
        return Ok(Arg::Same(k));
    }
    match between_brackets(word) {
        Some(items) => read_list(alloc, items, place),
        None => Ok(Arg::Null),
    }
}

/// The argument that a word is for a parameter of this type, which tells only what `[]` is: a list of int32, but for a
/// `bool[]`. Whether the argument fits the type is not asked. Takes time and memory in proportion to the word; an error
/// says that memory ran out.
pub fn read_argument(alloc: Global, word: &str, place: Place) -> Result<Arg, AllocError>
    requires { IsTrue (words.is_argument word.now) }
    ensures argument { IfOk result (λ arg. words.argument_of place word.now ≡ Some arg) }
    ensures text { IfOk result (λ arg. word.now ≡ text_of arg) }
    ensures in_range { IfOk result IsInRange }
    // No other argument has the text, but that `[]` is both a list of int32 and one of bool.
    ensures only { (arg : Arg) → IsInRange arg → word.now ≡ text_of arg
        → IfOk result (λ given. (given ≡ arg) ⊎ (word.now ≡ codes "[]")) }
{
    parse_argument(alloc, word, place)
}
