//! Ranges.

ghost use Rattle.std.specs.Prelude.{◌≡◌, option_map};
ghost use Rattle.invariant_reader.specs.Ranges.{read_hole, read_range};

use crate::digits::read_signed;
use crate::prefixes::behind;
use interval_domain::Range;
use number_spans::range_without;

/// The number that a range does not have, if there is one, and the text behind it.
#[tactic(auto, unfolding(crate::specs::Ranges::read_hole))]
fn read_hole(text: &[u8]) -> Option<(Option<i64>, &[u8])>
    ensures { option_map (λ read. (read.0, read.1.now)) result ≡ read_hole text.now }
{
    let Some(hole) = behind(text, b" not ") else {
        return Some((None, text));
    };
    let (hole, rest) = read_signed(hole)?;
    Some((Some(hole), rest))
}

/// The range at the start of a text, and the text behind it.
#[tactic(auto, unfolding(crate::specs::Ranges::read_range))]
pub(crate) fn read_range(text: &[u8]) -> Option<(Range, &[u8])>
    ensures { option_map (λ read. (read.0, read.1.now)) result ≡ read_range text.now }
{
    let (lo, greatest) = read_signed(text)?;
    let (hi, hole) = read_signed(behind(greatest, b"..")?)?;
    let (hole, rest) = read_hole(hole)?;
    Some((range_without(lo, hi, hole)?, rest))
}
