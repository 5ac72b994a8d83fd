//! References.

ghost use Rattle.std.specs.Prelude.{◌≡◌, option_map};
ghost use Rattle.invariant_text.proofs.DefReading.{begins_reference};
ghost use Rattle.invariant_reader.specs.References.{read_reference};

use crate::digits::read_short;
use crate::prefixes::behind;

/// Returns whether the text begins as that of a reference does.
pub(crate) fn begins_reference(text: &[u8]) -> bool
    ensures { result ≡ begins_reference text.now }
{
    matches!(text, [b'n' | b'r', ..])
}

/// The reference at the start of a text, and the text behind it.
#[tactic(auto, unfolding(crate::specs::References::read_reference))]
pub(crate) fn read_reference(text: &[u8]) -> Option<(u32, &[u8])>
    ensures { option_map (λ read. (read.0, read.1.now)) result ≡ read_reference text.now }
{
    match behind(text, b"r") {
        Some(number) => read_short(number),
        None => Some((0, behind(text, b"null")?)),
    }
}
