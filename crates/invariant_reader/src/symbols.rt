//! The lines of symbols.

ghost use Rattle.std.specs.Prelude.{◌≡◌, option_map};
ghost use Rattle.invariant_reader.specs.Symbols.{read_symbol_line};

use crate::digits::skip_digits;
use crate::prefixes::behind;
use crate::ranges::read_range;
use interval_domain::Range;

/// The line of a symbol at the start of a text, and the text behind it. The symbol's number is not kept.
#[tactic(auto, unfolding(crate::specs::Symbols::read_symbol_line))]
pub(crate) fn read_symbol_line(text: &[u8]) -> Option<(Range, &[u8])>
    ensures { option_map (λ read. (read.0, read.1.now)) result ≡ read_symbol_line text.now }
{
    let within = skip_digits(behind(text, b"    s")?);
    let Some((range, end)) = read_range(behind(within, b" in ")?) else {
        return None;
    };
    Some((range, behind(end, b"\n")?))
}
