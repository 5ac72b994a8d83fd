//! Which kind a line of a state is of.

ghost use Rattle.std.specs.Prelude.{◌≡◌, ◌==◌, drop, get_or};
ghost use Rattle.invariant_text.proofs.LineReading.{inner_kind, line_kind, symbol_kind};
ghost use Rattle.invariant_text.proofs.NumberReading.{behind_digits};

use crate::digits::skip_digits;

/// The kind of the lines of variables.
pub(crate) const VARIABLE: u8 = 1;
/// The kind of the lines of symbols, which have their ranges.
pub(crate) const SYMBOL: u8 = 2;
/// The kind of the lines of references.
pub(crate) const REFERENCE: u8 = 3;
/// The kind of the lines of bounds.
pub(crate) const BOUND: u8 = 4;
/// The kind of the lines of definitions.
pub(crate) const DEFINITION: u8 = 5;
/// The kind of the lines of two references that are apart.
pub(crate) const APART: u8 = 6;
/// The kind of all that is no line of a state.
const OTHER: u8 = 7;

/// The byte of this index, or 0 behind the end.
fn byte_at(text: &[u8], index: usize) -> u8
    ensures { result ≡ get_or text.now index 0 }
{
    match text.get(index) {
        Some(byte) => *byte,
        None => 0,
    }
}

/// Returns whether the text begins with this byte.
pub(crate) fn begins_with(text: &[u8], byte: u8) -> bool
    ensures { result ≡ (get_or text.now 0 0 == byte) }
{
    byte_at(text, 0) == byte
}

/// The text behind its first bytes, so many at most.
fn behind_bytes(text: &[u8], count: usize) -> &[u8]
    ensures { result.now ≡ drop count text.now }
{
    text.get(count..).unwrap_or(&[])
}

/// The byte after the one that follows the number in a name: what tells how the line goes on.
fn byte_behind_name(text: &[u8]) -> u8
    ensures { result ≡ get_or (behind_digits (drop 1 text.now)) 1 0 }
{
    byte_at(skip_digits(behind_bytes(text, 1)), 1)
}

/// The kind of a line of a symbol, by what follows the symbol.
fn symbol_kind(byte: u8) -> u8
    ensures { result ≡ symbol_kind byte }
{
    match byte {
        b'i' => SYMBOL,
        b'=' => DEFINITION,
        _ => BOUND,
    }
}

/// The kind of a line, from behind the spaces that it begins with.
fn inner_kind(text: &[u8]) -> u8
    ensures { result ≡ inner_kind text.now }
{
    match byte_at(text, 0) {
        b's' if byte_at(text, 1) == b't' => VARIABLE,
        b's' => symbol_kind(byte_behind_name(text)),
        b'r' if byte_behind_name(text) == b'a' => APART,
        b'r' => REFERENCE,
        b'n' => APART,
        b'i' | b'a' | b'l' => VARIABLE,
        _ => BOUND,
    }
}

/// The kind of the line that the text begins with.
///
/// Cost: linear in the first number of the line.
fn line_kind(text: &[u8]) -> u8
    ensures { result ≡ line_kind text.now }
{
    if byte_at(text, 2) != b' ' {
        return OTHER;
    }
    inner_kind(behind_bytes(text, 4))
}

/// Returns whether the text begins with a line of this kind.
pub(crate) fn begins_line(text: &[u8], kind: u8) -> bool
    ensures { result ≡ (line_kind text.now == kind) }
{
    line_kind(text) == kind
}
