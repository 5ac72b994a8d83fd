//! The arguments of a run, from words.

ghost use Rattle.std.specs.Prelude.{◌≡◌, All, IfOk, IsTrue, drop, map, string_bytes};
ghost use Rattle.run_arguments.specs.Arguments.{is_argument};
ghost use Rattle.method_run.specs.ArgumentWords.{arguments_of, first_place};

use cil_model::{Arg, Place};
use run_arguments::read_argument;
use std::alloc::{AllocError, Global};

/// The type of the first of these parameters, and the parameters after it. Where there is none left, a word is read
/// for any
/// type.
fn split_first(types: &[Place]) -> (Place, &[Place])
    ensures first { result.0 ≡ first_place types.now }
    ensures others { result.1.now ≡ drop 1 types.now }
{
    match types {
        [first, others @ ..] => (*first, others),
        [] => (Place::Ints, types),
    }
}

/// The arguments that words are, each for the parameter of its place in the row. Words that are left over are read for
/// any type.
pub(crate) fn read_arguments(
    alloc: Global,
    words: &[String],
    types: &[Place],
) -> Result<Vec<Arg>, AllocError>
    requires { All (λ word. IsTrue (is_argument (string_bytes word))) words.now }
    ensures { IfOk result (λ args. args.items ≡ arguments_of types.now (map (λ word. string_bytes word) words.now)) }
{
    let mut args = Vec::new(alloc);
    let mut rest = types;
    for word in words {
        let (place, others) = split_first(rest);
        args.push(read_argument(alloc, word.as_str(), place)?)?;
        rest = others;
    }
    Ok(args)
}
