//! The headers before the section, and the CLI header at its start (ECMA-335 II.25).

ghost use Rattle.std.specs.Prelude.{◌≡◌, ◌++◌, IfOk, OnOk};
ghost use Rattle.asm_writer.specs.Headers.{dos_header, file_header, optional_header, section_header, cli_header, headers};
ghost use Rattle.asm_writer.specs.Numbers.{numbers_bytes};

use crate::number::Number::{Four, Two, Zeros};
use crate::number::append_numbers;
use crate::padding::pad;
use std::alloc::{AllocError, Global};

/// The multiple to which the headers and the section are filled up.
pub const FILE_ALIGNMENT: usize = 0x200;

/// Where the section stands in memory.
const SECTION_RVA: u64 = 0x2000;

/// The number of bytes that the CLI header has.
const CLI_HEADER_SIZE: u64 = 72;

/// Where the first method body stands in memory, after the CLI header.
pub const BODIES_RVA: u64 = SECTION_RVA + CLI_HEADER_SIZE;

/// Appends the MS-DOS header.
fn append_dos_header(out: &mut Vec<u8>) -> Result<(), AllocError>
    ensures { OnOk result (out.new.items ≡ out.old.items ++ numbers_bytes dos_header) }
{
    append_numbers(out, &[Two(0x5a4d), Zeros(58), Four(0x80), Zeros(64)])
}

/// Appends the PE signature and the PE file header.
#[tactic(auto, unfolding(crate::specs::Numbers::numbers_width))]
fn append_file_header(out: &mut Vec<u8>, wide: bool) -> Result<(), AllocError>
    ensures { OnOk result (out.new.items ≡ out.old.items ++ numbers_bytes (file_header wide)) }
{
    let machine = if wide { 0x8664 } else { 0x14c };
    let optional_size = if wide { 0xf0 } else { 0xe0 };
    append_numbers(
        out,
        &[
            Four(0x4550),
            Two(machine),
            Two(1),
            Zeros(12),
            Two(optional_size),
            Two(0),
        ],
    )
}

/// Appends the optional header.
#[tactic(auto, unfolding(crate::specs::Numbers::numbers_width))]
fn append_optional_header(out: &mut Vec<u8>, wide: bool) -> Result<(), AllocError>
    ensures { OnOk result (out.new.items ≡ out.old.items ++ numbers_bytes (optional_header wide)) }
{
    let magic = if wide { 0x20b } else { 0x10b };
    let before_directory = if wide { 222 } else { 206 };
    append_numbers(
        out,
        &[
            Two(magic),
            Zeros(before_directory),
            Four(SECTION_RVA),
            Four(CLI_HEADER_SIZE),
            Zeros(8),
        ],
    )
}

/// Appends the header of the section of this size.
#[tactic(auto, unfolding(crate::specs::Headers::section_header))]
fn append_section_header(out: &mut Vec<u8>, size: u64) -> Result<(), AllocError>
    ensures { OnOk result (out.new.items ≡ out.old.items ++ section_header size) }
{
    out.extend_from_slice(b".text\0\0\0")?;
    append_numbers(
        out,
        &[
            Four(0),
            Four(SECTION_RVA),
            Four(size),
            Four(FILE_ALIGNMENT as u64),
            Zeros(16),
        ],
    )
}

/// All before the section, which has this size.
#[tactic(auto, unfolding(crate::specs::Headers::headers))]
pub fn headers(alloc: Global, wide: bool, section_size: u64) -> Result<Vec<u8>, AllocError>
    ensures { IfOk result (λ bytes. bytes.items ≡ headers wide section_size) }
{
    let mut out = Vec::new(alloc);
    append_dos_header(&mut out)?;
    append_file_header(&mut out, wide)?;
    append_optional_header(&mut out, wide)?;
    append_section_header(&mut out, section_size)?;
    pad(&mut out, FILE_ALIGNMENT)?;
    Ok(out)
}

/// Appends the CLI header of a file whose metadata stands there and has this size.
pub fn append_cli_header(out: &mut Vec<u8>, rva: u64, size: u64) -> Result<(), AllocError>
    ensures { OnOk result (out.new.items ≡ out.old.items ++ numbers_bytes (cli_header rva size)) }
{
    append_numbers(
        out,
        &[
            Four(CLI_HEADER_SIZE),
            Four(0),
            Four(rva),
            Four(size),
            Zeros(56),
        ],
    )
}
