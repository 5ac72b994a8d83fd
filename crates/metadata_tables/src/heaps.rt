//! The items of the heaps (ECMA-335 II.24.2.3 and II.24.2.4).

ghost use Rattle.std.specs.Prelude.{◌≡◌, ◌==◌, ◌+◌, ◌<◌, ◌≤◌, length, position, option_map, IfSome};
ghost use Rattle.metadata_tables.specs.Root.{zero_ended, is_text};
ghost use Rattle.metadata_tables.specs.Heaps.{whole_length, item_of, EndsTexts};

use cc_base::{Compressed, compressed_number};

/// Where the first zero stands.
fn first_zero(bytes: &[u8]) -> Option<usize>
    ensures place { result ≡ position (λ byte. byte == 0) bytes.now }
    ensures within { IfSome result (λ len. len < length bytes.now) }
{
    bytes.iter().position(|byte| *byte == 0)
}

/// The bytes before the first zero, none where there is no zero.
#[tactic(auto, unfolding(crate::specs::Root::zero_ended))]
pub(crate) fn zero_ended(bytes: &[u8]) -> Option<&[u8]>
    ensures { option_map (λ text. text.now) result ≡ zero_ended bytes.now }
{
    match first_zero(bytes) {
        Some(len) => Some(&bytes[..len]),
        None => None,
    }
}

/// Returns whether the bytes before the first zero are this text. Of the bytes at most one more is read than
/// the text has.

pub(crate) fn is_text(bytes: &[u8], text: &[u8]) -> bool
    ensures { result ≡ is_text bytes.now text.now }
{
    let prefix = bytes.len().min(text.len() + 1);
    match zero_ended(&bytes[..prefix]) {
        Some(found) => found == text,
        None => false,
    }
}

/// The place after the last zero, 0 where there is none.
pub(crate) fn behind_last_zero(bytes: &[u8]) -> usize
    ensures { EndsTexts bytes.now result }
{
    let mut end = bytes.len();
    while end > 0 && bytes[end - 1] != 0 {
        end -= 1;
    }
    end
}

/// The length at the start of an item that is there as a whole (II.23.2).
#[tactic(auto, unfolding(crate::specs::Heaps::whole_length))]
pub(crate) fn whole_length(bytes: &[u8]) -> Option<Compressed>
    ensures value { result ≡ whole_length bytes.now }
    ensures whole { IfSome result (λ prefix. prefix.width + prefix.number ≤ length bytes.now) }
    ensures some { IfSome result (λ prefix. 1 ≤ prefix.width) }
{
    let prefix = compressed_number(bytes).ok()?;
    if prefix.width as usize + prefix.number as usize <= bytes.len() {
        Some(prefix)
    } else {
        None
    }
}

/// The item at the start: as many bytes as its length says.
#[tactic(auto, unfolding(crate::specs::Heaps::item_of))]
pub(crate) fn item_of(bytes: &[u8]) -> Option<&[u8]>
    ensures { option_map (λ item. item.now) result ≡ item_of bytes.now }
{
    let prefix = whole_length(bytes)?;
    let start = prefix.width as usize;
    Some(&bytes[start..start + prefix.number as usize])
}
