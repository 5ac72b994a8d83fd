//! Numbers as text, at the end of a buffer.

ghost use Rattle.std.specs.Prelude.{◌≡◌, ◌^◌, ◌<◌, ◌≤◌, ◌++◌, take, OnOk, OnErr};
ghost use Rattle.std.specs.Fmt.{signed_decimal};
ghost use Rattle.cc_base.specs.Digits.{hex, hex_digit};

use crate::NoMemory;
use itoa::Buffer;
use std::alloc::Global;

/// The most digits of a number of 32 bits in base sixteen.
const MAX_HEX_DIGITS: usize = 8;

/// Appends the number in decimal, with a minus sign below zero and no leading zeros. Where memory
/// runs out, nothing is appended.
pub fn put_number(_alloc: Global, out: &mut Vec<u8>, n: i64) -> Result<(), NoMemory>
    ensures ok { OnOk result (out.new.items ≡ out.old.items ++ signed_decimal n) }
    ensures err { OnErr result (out.new.items ≡ out.old.items) }
{
    let mut buffer = Buffer::new();
    out.extend_from_slice(buffer.format(n).as_bytes())
}

/// Appends the number in lower-case hexadecimal, with leading zeros up to this many digits. Where
/// memory runs out, nothing is appended.
pub fn put_hex(_alloc: Global, out: &mut Vec<u8>, n: u32, digits: u8) -> Result<(), NoMemory>
    requires some { 1 ≤ digits }
    requires no_more { digits ≤ 8 }
    requires none_lost { n < 16 ^ digits }
    ensures ok { OnOk result (out.new.items ≡ out.old.items ++ hex digits n) }
    ensures err { OnErr result (out.new.items ≡ out.old.items) }
{
    let digits = digits as usize;
    let text = hex_text(n, digits);
    out.extend_from_slice(&text[..digits])
}

/// The lowest digits of a number, this many of them from the start of the buffer.
fn hex_text(n: u32, digits: usize) -> [u8; MAX_HEX_DIGITS]
    requires { digits ≤ 8 }
    ensures { take digits result ≡ hex digits n }
{
    let mut text = [0; MAX_HEX_DIGITS];
    let mut rest = n;
    for index in (0..digits).rev() {
        text[index] = hex_digit(rest % 16);
        rest /= 16;
    }
    text
}

/// The lower-case digit of a number below sixteen.
fn hex_digit(n: u32) -> u8
    requires { n < 16 }
    ensures { result ≡ hex_digit n }
{
    if n < 10 {
        b'0' + n as u8
    } else {
        b'a' + (n - 10) as u8
    }
}
