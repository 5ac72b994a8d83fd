//! Numbers at a place in the file, each tested before it is read.

ghost use Rattle.std.specs.Prelude.{◌≡◌, ◌+◌, ◌≤◌, length};
ghost use Rattle.cc_base.specs.LittleEndian.{u16_at, u32_at};
ghost use Rattle.cc_base.specs.Tests.{Judges};
ghost use Rattle.pe_reader.specs.Faults.{field};

use crate::fault::PeFault;

/// Tests that a field of so many bytes lies in the file.
#[tactic(auto, unfolding(crate::specs::Faults::field))]
pub fn skip_field(bytes: &[u8], at: u32, size: u32) -> Result<(), PeFault>
    ensures { Judges result (field bytes.now at size) (λ _. at + size ≤ length bytes.now) }
{
    if at as usize + size as usize <= bytes.len() {
        Ok(())
    } else {
        Err(PeFault::TooShort(at))
    }
}

/// The 16-bit field at a place.
pub fn u16_field(bytes: &[u8], at: u32) -> Result<u16, PeFault>
    ensures { Judges result (field bytes.now at 2)
        (λ n. (n ≡ u16_at bytes.now at) × (at + 2 ≤ length bytes.now)) }
{
    skip_field(bytes, at, 2)?;
    Ok(cc_base::u16_at(bytes, at as usize))
}

/// The 32-bit field at a place.
pub fn u32_field(bytes: &[u8], at: u32) -> Result<u32, PeFault>
    ensures { Judges result (field bytes.now at 4)
        (λ n. (n ≡ u32_at bytes.now at) × (at + 4 ≤ length bytes.now)) }
{
    skip_field(bytes, at, 4)?;
    Ok(cc_base::u32_at(bytes, at as usize))
}
