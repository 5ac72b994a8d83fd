//! Fields of a cache file.

ghost use Rattle.std.specs.Prelude.{◌≡◌, ◌+◌, ◌≤◌, length};
ghost use Rattle.cc_base.specs.LittleEndian.{u32_at};
ghost use Rattle.cc_base.specs.Tests.{first_of, Judges};
ghost use Rattle.result_cache.specs.CacheFile.{magic_tests};
ghost use Rattle.result_cache.specs.Forms.{form_of};
ghost use Rattle.invariant_codec.specs.Parses.{IsRead};
ghost use Rattle.result_cache.specs.Parses.{field, sized_field};

use crate::cache_fault::CacheFault;
use crate::cache_form::CacheForm;

/// Tests that a field of this many bytes does not pass the end of the file.
#[tactic(auto, unfolding(crate::specs::Parses::field))]
fn check_field(bytes: &[u8], at: u32, size: u32) -> Result<(), CacheFault>
    ensures { Judges result (field bytes.now at size) (λ _. at + size ≤ length bytes.now) }
{
    if at as usize + size as usize <= bytes.len() {
        Ok(())
    } else {
        Err(CacheFault::Short(at))
    }
}

/// The number of four bytes at this offset.
pub fn read_u32(bytes: &[u8], at: u32) -> Result<u32, CacheFault>
    ensures { Judges result (field bytes.now at 4) (λ n. (n ≡ u32_at bytes.now at) × (at + 4 ≤ length bytes.now)) }
{
    check_field(bytes, at, 4)?;
    Ok(cc_base::u32_at(bytes, at as usize))
}

/// The bytes at this offset, after their length, and the offset after them.
#[tactic(auto, using(cc_base::proofs::TestLemmas::first_tests), unfolding(crate::specs::Parses::sized_field))]
pub fn read_sized(bytes: &[u8], at: u32) -> Result<(&[u8], u32), CacheFault>
    requires short { length bytes.now ≤ 2147483647 }
    ensures { Judges result (first_of (sized_field bytes.now at).tests)
        (λ read. IsRead bytes.now (sized_field bytes.now at) read.0.now read.1 × (at + 4 ≤ read.1)
        × (length read.0.now ≤ length bytes.now)) }
{
    let size = read_u32(bytes, at)?;
    let start = at + 4;
    check_field(bytes, start, size)?;
    let end = start + size;
    Ok((&bytes[start as usize..end as usize], end))
}

/// The form of the file, by its first four bytes, `CCK1` or `CCK2`.
#[tactic(auto, using(cc_base::proofs::TestLemmas::first_tests), unfolding(crate::specs::CacheFile::magic_tests, crate::specs::Forms::form_of))]
pub fn read_magic(bytes: &[u8]) -> Result<CacheForm, CacheFault>
    ensures { Judges result (first_of (magic_tests bytes.now)) (λ form. form ≡ form_of bytes.now) }
{
    check_field(bytes, 0, 4)?;
    if bytes[0] != b'C' {
        return Err(CacheFault::Form(0));
    }
    if bytes[1] != b'C' {
        return Err(CacheFault::Form(1));
    }
    if bytes[2] != b'K' {
        return Err(CacheFault::Form(2));
    }
    match CacheForm::of_number(bytes[3]) {
        Some(form) => Ok(form),
        None => Err(CacheFault::Version),
    }
}
