//! The line of a unit in a proof file.

ghost use Rattle.std.specs.Prelude.{◌≡◌, ◌==◌, option_map, position, IfOk};
ghost use Rattle.proof_files.specs.Steps.{IsBehindWord, IsLineOf, IsUnitLineOf};

use crate::hex_text::read_hex_text;
use cc_base::NoMemory;
use std::alloc::Global;

/// What stands behind the word and the space that the line of a unit begins with.
fn behind_word(text: &[u8]) -> Option<&[u8]>
    ensures { IsBehindWord text.now (option_map (λ rest. rest.now) result) }
{
    text.strip_prefix(b"unit ")
}

/// Where the first line feed of a text stands.
fn first_feed(text: &[u8]) -> Option<usize>
    ensures { result ≡ position (λ byte. byte == 10) text.now }
{
    text.iter().position(|byte| *byte == b'\n')
}

/// The first line of a text, and what stands behind its line feed.
fn cut_line(text: &[u8]) -> Option<(&[u8], &[u8])>
    ensures { IsLineOf text.now (option_map (λ cut. (cut.0.now, cut.1.now)) result) }
{
    match first_feed(text) {
        Some(end) => Some((&text[..end], &text[end + 1..])),
        None => None,
    }
}

/// The bytes of the unit whose line a text begins with, and the lines behind it.
pub(crate) fn read_unit_line(
    alloc: Global,
    text: &[u8],
) -> Result<Option<(Vec<u8>, &[u8])>, NoMemory>
    ensures { IfOk result (λ read. IsUnitLineOf text.now (option_map (λ cut. (cut.0.items, cut.1.now)) read)) }
{
    let Some(behind) = behind_word(text) else {
        return Ok(None);
    };
    let Some((digits, lines)) = cut_line(behind) else {
        return Ok(None);
    };
    let Some(key) = read_hex_text(alloc, digits)? else {
        return Ok(None);
    };
    Ok(Some((key, lines)))
}
