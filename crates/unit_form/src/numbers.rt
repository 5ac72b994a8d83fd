//! Fields of a fixed size.

ghost use Rattle.std.specs.Prelude.{◌≡◌, ◌+◌, ◌≤◌, length};
ghost use Rattle.cc_base.specs.Tests.{first_of, Judges};
ghost use Rattle.unit_form.specs.Fields.{bytes_field, count_field, u16_field, u32_field, u8_field};
ghost use Rattle.unit_form.specs.Parses.{field, IsRead};

use crate::form::UnitForm;
use crate::unit_fault::UnitFault;

/// Tests that a field of this many bytes does not pass the end of the file.
#[tactic(auto, unfolding(crate::specs::Parses::field))]
pub fn skip_field(bytes: &[u8], at: u32, size: u32) -> Result<(), UnitFault>
    ensures { Judges result (field bytes.now at size) (λ _. at + size ≤ length bytes.now) }
{
    if at as usize + size as usize <= bytes.len() {
        Ok(())
    } else {
        Err(UnitFault::Short(at))
    }
}

/// The field of one byte at this offset.
#[tactic(auto, using(cc_base::proofs::TestLemmas::first_tests), unfolding(crate::specs::Fields::u8_field))]
pub fn u8_field(bytes: &[u8], at: u32) -> Result<u8, UnitFault>
    ensures { Judges result (first_of (u8_field bytes.now at).tests) (λ n. IsRead bytes.now (u8_field bytes.now at) n (at + 1)) }
{
    skip_field(bytes, at, 1)?;
    Ok(bytes[at as usize])
}

/// The field of two bytes at this offset.
#[tactic(auto, using(cc_base::proofs::TestLemmas::first_tests), unfolding(crate::specs::Fields::u16_field))]
pub fn u16_field(bytes: &[u8], at: u32) -> Result<u16, UnitFault>
    ensures { Judges result (first_of (u16_field bytes.now at).tests) (λ n. IsRead bytes.now (u16_field bytes.now at) n (at + 2)) }
{
    skip_field(bytes, at, 2)?;
    Ok(cc_base::u16_at(bytes, at as usize))
}

/// The field of four bytes at this offset.
#[tactic(auto, using(cc_base::proofs::TestLemmas::first_tests), unfolding(crate::specs::Fields::u32_field))]
pub fn u32_field(bytes: &[u8], at: u32) -> Result<u32, UnitFault>
    ensures { Judges result (first_of (u32_field bytes.now at).tests) (λ n. IsRead bytes.now (u32_field bytes.now at) n (at + 4)) }
{
    skip_field(bytes, at, 4)?;
    Ok(cc_base::u32_at(bytes, at as usize))
}

/// The count at this offset, in the size that it has in this form, and the offset after it.
#[tactic(auto, unfolding(crate::specs::Fields::count_field))]
pub fn count_field(form: UnitForm, bytes: &[u8], at: u32) -> Result<(u16, u32), UnitFault>
    requires short { length bytes.now ≤ 2147483647 }
    ensures { Judges result (first_of (count_field form bytes.now at).tests) (λ read. IsRead bytes.now (count_field form bytes.now at) read.0 read.1) }
{
    match form {
        UnitForm::First => {
            let count = u8_field(bytes, at)?;
            Ok((u16::from(count), at + 1))
        }
        UnitForm::Second | UnitForm::Third => {
            let count = u16_field(bytes, at)?;
            Ok((count, at + 2))
        }
    }
}

/// So many bytes from this offset on, as one field.
#[tactic(auto, using(cc_base::proofs::TestLemmas::first_tests), unfolding(crate::specs::Fields::bytes_field))]
pub fn bytes_field(bytes: &[u8], at: u32, count: u32) -> Result<&[u8], UnitFault>
    ensures { Judges result (first_of (bytes_field count bytes.now at).tests)
        (λ text. IsRead bytes.now (bytes_field count bytes.now at) text.now (at + count) × (length text.now ≡ count)) }
{
    skip_field(bytes, at, count)?;
    let start = at as usize;
    Ok(&bytes[start..start + count as usize])
}
