//! Fields of a fixed size.

ghost use Rattle.std.specs.Prelude.{◌≡◌, ◌+◌, ◌≤◌, length};
ghost use Rattle.cc_base.specs.Tests.{first_of, Judges};
ghost use Rattle.invariant_codec.specs.Formats.{tested};
ghost use Rattle.invariant_codec.specs.Numbers.{byte, flag, int32, int64, is_within, number};
ghost use Rattle.invariant_codec.specs.Parses.{field, IsRead};

use crate::fault::InvFault;

/// Tests that a field of this many bytes does not pass the end.
#[tactic(auto, unfolding(crate::specs::Parses::field))]
fn check_field(bytes: &[u8], at: u32, size: u32) -> Result<(), InvFault>
    ensures { Judges result (field bytes.now at size) (λ _. at + size ≤ length bytes.now) }
{
    if at as usize + size as usize <= bytes.len() {
        Ok(())
    } else {
        Err(InvFault::Short(at))
    }
}

/// The byte at this offset.
#[tactic(auto, using(cc_base::proofs::TestLemmas::first_tests), unfolding(crate::specs::Numbers::byte))]
pub(crate) fn read_byte(bytes: &[u8], at: u32) -> Result<u8, InvFault>
    ensures { Judges result (first_of (byte.read bytes.now at).tests)
        (λ n. IsRead bytes.now (byte.read bytes.now at) n (at + 1)) }
{
    check_field(bytes, at, 1)?;
    Ok(bytes[at as usize])
}

/// The number of two bytes at this offset.
#[tactic(auto, using(cc_base::proofs::TestLemmas::first_tests), unfolding(crate::specs::Numbers::number, cc_base::specs::LittleEndian::u16_at))]
pub(crate) fn read_u16(bytes: &[u8], at: u32) -> Result<u16, InvFault>
    ensures { Judges result (first_of ((number 2).read bytes.now at).tests)
        (λ n. IsRead bytes.now ((number 2).read bytes.now at) n (at + 2)) }
{
    check_field(bytes, at, 2)?;
    Ok(cc_base::u16_at(bytes, at as usize))
}

/// The number of four bytes at this offset.
#[tactic(auto, using(cc_base::proofs::TestLemmas::first_tests), unfolding(crate::specs::Numbers::number, cc_base::specs::LittleEndian::u32_at))]
pub(crate) fn read_u32(bytes: &[u8], at: u32) -> Result<u32, InvFault>
    ensures { Judges result (first_of ((number 4).read bytes.now at).tests)
        (λ n. IsRead bytes.now ((number 4).read bytes.now at) n (at + 4)) }
{
    check_field(bytes, at, 4)?;
    Ok(cc_base::u32_at(bytes, at as usize))
}

/// The number of eight bytes at this offset.
#[tactic(auto, using(cc_base::proofs::TestLemmas::first_tests), unfolding(crate::specs::Numbers::number, cc_base::specs::LittleEndian::u64_at))]
fn read_u64(bytes: &[u8], at: u32) -> Result<u64, InvFault>
    ensures { Judges result (first_of ((number 8).read bytes.now at).tests)
        (λ n. IsRead bytes.now ((number 8).read bytes.now at) n (at + 8)) }
{
    check_field(bytes, at, 8)?;
    Ok(cc_base::u64_at(bytes, at as usize))
}

/// The signed number of four bytes at this offset.
#[tactic(auto, unfolding(crate::specs::Numbers::int32))]
pub(crate) fn read_i32(bytes: &[u8], at: u32) -> Result<i32, InvFault>
    ensures { Judges result (first_of (int32.read bytes.now at).tests)
        (λ n. IsRead bytes.now (int32.read bytes.now at) n (at + 4)) }
{
    Ok(read_u32(bytes, at)?.cast_signed())
}

/// The signed number of eight bytes at this offset.
#[tactic(auto, unfolding(crate::specs::Numbers::int64))]
pub(crate) fn read_i64(bytes: &[u8], at: u32) -> Result<i64, InvFault>
    ensures { Judges result (first_of (int64.read bytes.now at).tests)
        (λ n. IsRead bytes.now (int64.read bytes.now at) n (at + 8)) }
{
    Ok(read_u64(bytes, at)?.cast_signed())
}

/// The byte at this offset, which is one from a least to a greatest.
#[tactic(auto, using(cc_base::proofs::TestLemmas::appended, cc_base::proofs::TestLemmas::first_tests))]
pub(crate) fn read_within(bytes: &[u8], at: u32, least: u8, most: u8) -> Result<u8, InvFault>
    ensures { Judges result (first_of ((tested (is_within least most) byte).read bytes.now at).tests)
        (λ n. IsRead bytes.now ((tested (is_within least most) byte).read bytes.now at) n (at + 1) × (least ≤ n)
        × (n ≤ most)) }
{
    let n = read_byte(bytes, at)?;
    if n < least || most < n {
        return Err(InvFault::Form(at));
    }
    Ok(n)
}

/// The byte at this offset, which is 1 where something is so, and else 0.
#[tactic(auto, unfolding(crate::specs::Numbers::flag))]
pub(crate) fn read_flag(bytes: &[u8], at: u32) -> Result<bool, InvFault>
    ensures { Judges result (first_of (flag.read bytes.now at).tests)
        (λ is. IsRead bytes.now (flag.read bytes.now at) is (at + 1)) }
{
    Ok(read_within(bytes, at, 0, 1)? == 1)
}
