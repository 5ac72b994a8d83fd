//! The headers before the sections.

ghost use Rattle.std.specs.Prelude.{◌≡◌, ◌+◌, ◌≤◌, length};
ghost use Rattle.cc_base.specs.Slices.{IsShort};
ghost use Rattle.cc_base.specs.Tests.{first_of, Judges};
ghost use Rattle.pe_reader.specs.Faults.{signature_tests, file_header_tests, optional_tests};
ghost use Rattle.pe_reader.specs.Places.{file_header_at, section_count, optional_size, optional_at, cli_rva};

use crate::fault::PeFault;
use crate::field::{skip_field, u16_field, u32_field};

/// `MZ`, as the file's first two bytes.
const DOS_SIGNATURE: u16 = 0x5a4d;

/// `PE` and two zeros.
const PE_SIGNATURE: u32 = 0x4550;

/// The optional header's magic number in PE32.
const PE32: u16 = 0x10b;

/// The optional header's magic number in PE32+.
const PE32_PLUS: u16 = 0x20b;

/// Where the PE file header stands: after the signature that the MS-DOS header names.
#[tactic(auto, using(cc_base::proofs::TestLemmas::first_tests), unfolding(crate::specs::Faults::signature_tests, crate::specs::Places::signature_at, crate::specs::Places::file_header_at))]
pub fn file_header_place(bytes: &[u8]) -> Result<u32, PeFault>
    requires { IsShort bytes.now }
    ensures { Judges result (first_of (signature_tests bytes.now))
        (λ at. (at ≡ file_header_at bytes.now) × (at ≤ length bytes.now)) }
{
    if u16_field(bytes, 0)? != DOS_SIGNATURE {
        return Err(PeFault::NotPe(0));
    }
    let signature = u32_field(bytes, 0x3c)?;
    if u32_field(bytes, signature)? != PE_SIGNATURE {
        return Err(PeFault::NotPe(signature));
    }
    Ok(signature + 4)
}

/// What the PE file header says of the headers that follow it.
#[derive(Clone, Copy)]
pub struct FileHeader {
    /// The number of sections.
    pub sections: u16,
    /// The length of the optional header in bytes.
    pub optional_len: u16,
}

/// Reads the PE file header (II.25.2.2). Any machine is accepted.
#[tactic(auto, using(cc_base::proofs::TestLemmas::first_tests), unfolding(crate::specs::Faults::file_header_tests, crate::specs::Places::section_count, crate::specs::Places::optional_size))]
pub fn file_header(bytes: &[u8], at: u32) -> Result<FileHeader, PeFault>
    requires place { at ≡ file_header_at bytes.now }
    requires room { at ≤ 2147483647 }
    ensures { Judges result (first_of (file_header_tests bytes.now))
        (λ header. (header.sections ≡ section_count bytes.now)
        × (header.optional_len ≡ optional_size bytes.now)
        × (at + 20 ≤ length bytes.now)) }
{
    skip_field(bytes, at, 2)?;
    let sections = u16_field(bytes, at + 2)?;
    skip_field(bytes, at + 4, 4)?;
    skip_field(bytes, at + 8, 4)?;
    skip_field(bytes, at + 12, 4)?;
    let optional_len = u16_field(bytes, at + 16)?;
    skip_field(bytes, at + 18, 2)?;
    Ok(FileHeader {
        sections,
        optional_len,
    })
}

/// Reads the address of the CLI header from the optional header (II.25.2.3).
#[tactic(auto, using(cc_base::proofs::TestLemmas::first_tests), unfolding(crate::specs::Faults::optional_tests, crate::specs::Places::magic, crate::specs::Places::directories_offset, crate::specs::Places::cli_directory_at, crate::specs::Places::cli_rva))]
pub fn cli_address(bytes: &[u8], at: u32, len: u16) -> Result<u32, PeFault>
    requires place { at ≡ optional_at bytes.now }
    requires size { len ≡ optional_size bytes.now }
    requires room { at ≤ 2147483647 }
    ensures { Judges result (first_of (optional_tests bytes.now)) (λ rva. rva ≡ cli_rva bytes.now) }
{
    let directories = match u16_field(bytes, at)? {
        PE32 => 96,
        PE32_PLUS => 112,
        _ => return Err(PeFault::NotPe(at)),
    };
    let directory = at + u32::from(directories) + 8 * 14;
    if len < directories + 8 * 15 {
        return Err(PeFault::NoCli(directory));
    }
    let rva = u32_field(bytes, directory)?;
    skip_field(bytes, directory + 4, 4)?;
    if rva == 0 {
        return Err(PeFault::NoCli(directory));
    }
    Ok(rva)
}
