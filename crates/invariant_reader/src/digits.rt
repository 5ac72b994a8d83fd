//! Numbers in decimal.

ghost use Rattle.std.specs.Prelude.{◌≡◌, ◌≤◌, option_map};
ghost use Rattle.invariant_text.proofs.NumberReading.{begins_digit, behind_digits};
ghost use Rattle.invariant_reader.specs.Numbers.{negative, positive, read_decimal, read_negative, read_positive};
ghost use Rattle.invariant_reader.specs.Numbers.{read_short, read_signed, short, with_digit};

use crate::prefixes::behind;

/// The text behind the digits at its start.
pub(crate) fn skip_digits(text: &[u8]) -> &[u8]
    ensures { result.now ≡ behind_digits text.now }
{
    let mut rest = text;
    while let [b'0'..=b'9', more @ ..] = rest {
        rest = more;
    }
    rest
}

/// Returns whether the text begins with a digit.
pub(crate) fn begins_digit(text: &[u8]) -> bool
    ensures { result ≡ begins_digit text.now }
{
    matches!(text, [b'0'..=b'9', ..])
}

/// The number, with a digit behind its own. None: it has more than 64 bits.
fn with_digit(n: u64, digit: u8) -> Option<u64>
    requires { 48 ≤ digit }
    ensures { result ≡ with_digit n digit }
{
    n.checked_mul(10)?.checked_add(u64::from(digit - b'0'))
}

/// The number of 64 bits at the start of a text, and the text behind it.
#[tactic(auto, unfolding(crate::specs::Numbers::read_decimal))]
pub(crate) fn read_decimal(text: &[u8]) -> Option<(u64, &[u8])>
    ensures { option_map (λ read. (read.0, read.1.now)) result ≡ read_decimal text.now }
{
    if !begins_digit(text) {
        return None;
    }
    let mut n = 0;
    let mut rest = text;
    while let [digit @ b'0'..=b'9', more @ ..] = rest {
        n = with_digit(n, *digit)?;
        rest = more;
    }
    Some((n, rest))
}

/// The number, where it has 32 bits.
fn short(n: u64) -> Option<u32>
    ensures { result ≡ short n }
{
    u32::try_from(n).ok()
}

/// The number of 32 bits at the start of a text, and the text behind it.
#[tactic(auto, unfolding(crate::specs::Numbers::read_short))]
pub(crate) fn read_short(text: &[u8]) -> Option<(u32, &[u8])>
    ensures { option_map (λ read. (read.0, read.1.now)) result ≡ read_short text.now }
{
    let (n, rest) = read_decimal(text)?;
    Some((short(n)?, rest))
}

/// The number, where it has 64 bits with its sign.
fn positive(n: u64) -> Option<i64>
    ensures { result ≡ positive n }
{
    i64::try_from(n).ok()
}

/// The number below 0, where it has 64 bits with its sign.
fn negative(n: u64) -> Option<i64>
    ensures { result ≡ negative n }
{
    0i64.checked_sub_unsigned(n)
}

/// The number at the start of a text, and the text behind it.
#[tactic(auto, unfolding(crate::specs::Numbers::read_positive))]
pub(crate) fn read_positive(text: &[u8]) -> Option<(i64, &[u8])>
    ensures { option_map (λ read. (read.0, read.1.now)) result ≡ read_positive text.now }
{
    let (n, rest) = read_decimal(text)?;
    Some((positive(n)?, rest))
}

/// The number below 0 whose digits are at the start of a text, and the text behind it.
#[tactic(auto, unfolding(crate::specs::Numbers::read_negative))]
pub(crate) fn read_negative(text: &[u8]) -> Option<(i64, &[u8])>
    ensures { option_map (λ read. (read.0, read.1.now)) result ≡ read_negative text.now }
{
    let (n, rest) = read_decimal(text)?;
    Some((negative(n)?, rest))
}

/// The signed number of 64 bits at the start of a text, and the text behind it.
#[tactic(auto, unfolding(crate::specs::Numbers::read_signed))]
pub(crate) fn read_signed(text: &[u8]) -> Option<(i64, &[u8])>
    ensures { option_map (λ read. (read.0, read.1.now)) result ≡ read_signed text.now }
{
    match behind(text, b"-") {
        Some(digits) => read_negative(digits),
        None => read_positive(text),
    }
}
