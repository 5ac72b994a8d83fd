//! Bytes in lower-case hexadecimal.

ghost use Rattle.std.specs.Prelude.{◌≡◌, ◌++◌, option_map, IfOk, OnOk};
ghost use Rattle.proof_files.specs.Proofs.{hex_text};
ghost use Rattle.proof_files.specs.Steps.{IsByteOf, IsDigitOf, IsHexOf};

use cc_base::{NoMemory, put_hex};
use std::alloc::Global;

/// Appends bytes, two digits for each.
pub(crate) fn put_hex_text(alloc: Global, out: &mut Vec<u8>, bytes: &[u8]) -> Result<(), NoMemory>
    ensures { OnOk result (out.new.items ≡ out.old.items ++ hex_text bytes.now) }
{
    for byte in bytes {
        put_hex(alloc, out, u32::from(*byte), 2)?;
    }
    Ok(())
}

/// The number of a digit. None of another byte, as of an upper-case digit.
fn digit_value(digit: u8) -> Option<u8>
    ensures { IsDigitOf digit result }
{
    match digit {
        b'0'..=b'9' => Some(digit - b'0'),
        b'a'..=b'f' => Some(digit - b'a' + 10),
        _ => None,
    }
}

/// The byte of two digits.
fn byte_value(high: u8, low: u8) -> Option<u8>
    ensures { IsByteOf high low result }
{
    let Some(first) = digit_value(high) else {
        return None;
    };
    let Some(second) = digit_value(low) else {
        return None;
    };
    Some(first * 16 + second)
}

/// The bytes of which this is the text.
pub(crate) fn read_hex_text(alloc: Global, text: &[u8]) -> Result<Option<Vec<u8>>, NoMemory>
    ensures { IfOk result (λ read. IsHexOf text.now (option_map (λ bytes. bytes.items) read)) }
{
    if text.len() % 2 == 1 {
        return Ok(None);
    }
    let count = text.len() / 2;
    let mut bytes = Vec::with_capacity(alloc, count)?;
    for place in 0..count {
        let Some(byte) = byte_value(text[2 * place], text[2 * place + 1]) else {
            return Ok(None);
        };
        bytes.push(byte)?;
    }
    Ok(Some(bytes))
}
