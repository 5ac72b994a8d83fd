//! Compressed numbers (ECMA-335 II.23.2).

ghost use Rattle.std.specs.Prelude.{◌≡◌, ◌≤◌, ℕ, List, ◌++◌, length, take, Ok, IfOk, IsErrOf};
ghost use Rattle.cc_base.specs.Compressed.{low_bits, compressed, SpellsNumber};

use byteorder::{BigEndian, ByteOrder};

/// A compressed number.
#[derive(Clone, Copy, Debug, PartialEq, Eq)]
pub struct Compressed {
    /// The number, below 2^29.
    pub number: u32,
    /// The number of bytes that it is written in: 1, 2 or 4.
    pub width: u32,
}

/// Why bytes begin with no compressed number.
#[derive(Clone, Copy, Debug, PartialEq, Eq)]
pub enum CompressedFault {
    /// The bytes end before the number does.
    Cut,
    /// The first byte begins no number.
    Form,
}

/// The number in the low 14 bits of two bytes.
fn two_bytes(bytes: &[u8]) -> Result<Compressed, CompressedFault>
    ensures { result ≡ low_bits 14 2 bytes.now }
{
    if bytes.len() < 2 {
        return Err(CompressedFault::Cut);
    }
    let number = u32::from(BigEndian::read_u16(bytes) & 0x3fff);
    Ok(Compressed { number, width: 2 })
}

/// The number in the low 29 bits of four bytes.
fn four_bytes(bytes: &[u8]) -> Result<Compressed, CompressedFault>
    ensures { result ≡ low_bits 29 4 bytes.now }
{
    if bytes.len() < 4 {
        return Err(CompressedFault::Cut);
    }
    let number = BigEndian::read_u32(bytes) & 0x1fff_ffff;
    Ok(Compressed { number, width: 4 })
}

/// The compressed number at the start, without its laws.
#[tactic(auto, unfolding(crate::specs::Compressed::compressed))]
fn prefix_number(bytes: &[u8]) -> Result<Compressed, CompressedFault>
    ensures exact { result ≡ compressed bytes.now }
    ensures some { IfOk result (λ found. 1 ≤ found.width) }
    ensures few { IfOk result (λ found. found.width ≤ 4) }
    ensures within { IfOk result (λ found. found.width ≤ length bytes.now) }
    ensures begun { IsErrOf result CompressedFault.Form → 1 ≤ length bytes.now }
{
    match bytes {
        [] => Err(CompressedFault::Cut),
        [first @ 0x00..=0x7f, ..] => Ok(Compressed {
            number: u32::from(*first),
            width: 1,
        }),
        [0x80..=0xbf, ..] => two_bytes(bytes),
        [0xc0..=0xdf, ..] => four_bytes(bytes),
        [0xe0..=0xff, ..] => Err(CompressedFault::Form),
    }
}

/// The compressed number at the start of some bytes (II.23.2). It may stand in more bytes than it
/// needs.
pub fn compressed_number(bytes: &[u8]) -> Result<Compressed, CompressedFault>
    // The number, or the fault.
    ensures exact { result ≡ compressed bytes.now }
    // A spelling of the number stands at the start.
    ensures found { IfOk result (λ found. SpellsNumber found.number (take found.width bytes.now)) }
    // A number whose spelling stands at the start is read.
    ensures only { (n : ℕ) (spelling rest : List ℕ) → SpellsNumber n spelling → bytes.now ≡ spelling ++ rest →
        result ≡ Ok (record { number = n; width = length spelling }) }
    ensures some { IfOk result (λ found. 1 ≤ found.width) }
    ensures few { IfOk result (λ found. found.width ≤ 4) }
    ensures within { IfOk result (λ found. found.width ≤ length bytes.now) }
    // A first byte that begins no number is there.
    ensures begun { IsErrOf result CompressedFault.Form → 1 ≤ length bytes.now }
{
    prefix_number(bytes)
}
