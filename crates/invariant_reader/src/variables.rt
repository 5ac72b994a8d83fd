//! The lines of variables.

ghost use Rattle.std.specs.Prelude.{◌≡◌, option_map};
ghost use Rattle.invariant_reader.specs.Variables.{behind_name, read_index, read_number, read_place, read_value};
ghost use Rattle.invariant_reader.specs.Variables.{read_variable_line};

use crate::digits::skip_digits;
use crate::expressions::read_expr;
use crate::prefixes::behind;
use crate::references::{begins_reference, read_reference};
use frame_names::Var;

/// The text behind a variable's name, whichever it is.
#[tactic(auto, unfolding(crate::specs::Variables::behind_name))]
fn behind_name(text: &[u8]) -> Option<&[u8]>
    ensures { option_map (λ rest. rest.now) result ≡ behind_name text.now }
{
    if let Some(index) = behind(text, b"in ") {
        return Some(skip_digits(index));
    }
    if let Some(index) = behind(text, b"arg ") {
        return Some(skip_digits(index));
    }
    if let Some(index) = behind(text, b"local ") {
        return Some(skip_digits(index));
    }
    match behind(text, b"stack ") {
        Some(index) => Some(skip_digits(index)),
        None => None,
    }
}

/// A number, and the text behind it.
#[tactic(auto, unfolding(crate::specs::Variables::read_number))]
fn read_number(text: &[u8]) -> Option<(Var, &[u8])>
    ensures { option_map (λ read. (read.0, read.1.now)) result ≡ read_number text.now }
{
    let (e, rest) = read_expr(text)?;
    Some((Var::Number(e), rest))
}

/// The address of an item of a reference's array, from behind the bracket on, and the text behind it.
#[tactic(auto, unfolding(crate::specs::Variables::read_index))]
fn read_index(r: u32, text: &[u8]) -> Option<(Var, &[u8])>
    ensures { option_map (λ read. (read.0, read.1.now)) result ≡ read_index r text.now }
{
    let (index, end) = read_expr(text)?;
    Some((Var::Address(r, index), behind(end, b"]")?))
}

/// A reference, or the address of an item of its array, and the text behind it.
#[tactic(auto, unfolding(crate::specs::Variables::read_place))]
fn read_place(text: &[u8]) -> Option<(Var, &[u8])>
    ensures { option_map (λ read. (read.0, read.1.now)) result ≡ read_place text.now }
{
    let (r, rest) = read_reference(text)?;
    match behind(rest, b"[") {
        Some(index) => read_index(r, index),
        None => Some((Var::Reference(r), rest)),
    }
}

/// What a variable has, and the text behind it.
#[tactic(auto, unfolding(crate::specs::Variables::read_value))]
fn read_value(text: &[u8]) -> Option<(Var, &[u8])>
    ensures { option_map (λ read. (read.0, read.1.now)) result ≡ read_value text.now }
{
    if let Some(rest) = behind(text, b"text") {
        return Some((Var::Text, rest));
    }
    if begins_reference(text) {
        read_place(text)
    } else {
        read_number(text)
    }
}

/// The line of a variable at the start of a text, and the text behind it. The variable's name is not kept.
#[tactic(auto, unfolding(crate::specs::Variables::read_variable_line))]
pub(crate) fn read_variable_line(text: &[u8]) -> Option<(Var, &[u8])>
    ensures { option_map (λ read. (read.0, read.1.now)) result ≡ read_variable_line text.now }
{
    let equals = behind_name(behind(text, b"    ")?)?;
    let (value, end) = read_value(behind(equals, b" = ")?)?;
    Some((value, behind(end, b"\n")?))
}
