//! Little endian numbers at an offset among bytes.

ghost use Rattle.std.specs.Prelude.{◌≡◌, ℕ, ◌+◌, ◌^◌, ◌<◌, ◌≤◌, List, ◌++◌, length};
ghost use Rattle.byteorder.specs.Endian.{little_number, little_bytes};
ghost use Rattle.cc_base.specs.LittleEndian.{IsBytes, u16_at, u32_at, u64_at};

use byteorder::{ByteOrder, LittleEndian};

/// The number in the two bytes at an offset, the lowest byte first.
#[tactic(auto, unfolding(crate::specs::LittleEndian::u16_at))]
pub fn u16_at(bytes: &[u8], at: usize) -> u16
    requires { at + 2 ≤ length bytes.now }
    ensures { result ≡ u16_at bytes.now at }
{
    LittleEndian::read_u16(&bytes[at..])
}

/// The number in the four bytes at an offset, the lowest byte first.
#[tactic(auto, unfolding(crate::specs::LittleEndian::u32_at))]
pub fn u32_at(bytes: &[u8], at: usize) -> u32
    requires { at + 4 ≤ length bytes.now }
    ensures { result ≡ u32_at bytes.now at }
{
    LittleEndian::read_u32(&bytes[at..])
}

/// The number in the eight bytes at an offset, the lowest byte first.
#[tactic(auto, unfolding(crate::specs::LittleEndian::u64_at))]
pub fn u64_at(bytes: &[u8], at: usize) -> u64
    requires { at + 8 ≤ length bytes.now }
    ensures { result ≡ u64_at bytes.now at }
{
    LittleEndian::read_u64(&bytes[at..])
}

/// The law of little endian numbers: from a number to its bytes and back, whatever follows them,
/// and from bytes to their number and back. It does nothing when it runs.
#[tactic(auto, using(crate::proofs::ByteLemmas::number_back, crate::proofs::ByteLemmas::bytes_back))]
pub fn little_endian_law()
    ensures number_back { (n x : ℕ) (rest : List ℕ) → x < 256 ^ n →
        little_number n (little_bytes n x ++ rest) ≡ x }
    ensures bytes_back { (bytes : List ℕ) → IsBytes bytes →
        little_bytes (length bytes) (little_number (length bytes) bytes) ≡ bytes }
{}
