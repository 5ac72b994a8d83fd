//! The lines of references that are apart.

ghost use Rattle.std.specs.Prelude.{◌≡◌, option_map};
ghost use Rattle.invariant_reader.specs.Pairs.{read_apart_line};

use crate::prefixes::behind;
use crate::references::read_reference;

/// The line of a pair at the start of a text, and the text behind it.
#[tactic(auto, unfolding(crate::specs::Pairs::read_apart_line))]
pub(crate) fn read_apart_line(text: &[u8]) -> Option<((u32, u32), &[u8])>
    ensures { option_map (λ read. (read.0, read.1.now)) result ≡ read_apart_line text.now }
{
    let (first, apart) = read_reference(behind(text, b"    ")?)?;
    let (second, end) = read_reference(behind(apart, b" apart ")?)?;
    Some(((first, second), behind(end, b"\n")?))
}
