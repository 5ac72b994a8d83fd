//! What single calls answer where no command tells it: the bytes at the end of a file, the bit of a table that there is
//! not, what is behind the last method, the empty name, a number behind the end of a blob, and the name of void.

use crate::changes::{Change, put, zeros_with};
use crate::demo_assembly::file;
use asm_image::{Assembly, AssemblyFile, MethodWalk};
use cil_model::Place;
use metadata_tables::{TableFault, Tables};
use pe_reader::Image;
use signature_blobs::{SigFault, compressed};
use std::alloc::{AllocError, Global};
use std::test::Fail;

/// Where the file of one method ends, without the zeros behind its metadata, and the address of that end.
const END: usize = 0x4dc;

const END_ADDRESS: u32 = 0x22dc;

/// Addresses, and how many bytes stand from each on in that file.
const RESTS: [(u32, Option<usize>); 5] = [
    (END_ADDRESS - 1, Some(1)),
    (END_ADDRESS, Some(0)),
    (END_ADDRESS + 1, None),
    (0x2000, Some(0x2dc)),
    (0x1fff, None),
];

#[test]
fn no_byte_stands_at_the_end_of_a_file(rt: HostRuntime) -> Result<(), Fail> {
    let whole = file(rt.alloc())?;
    let cut = whole.get(..END).unwrap_or(&[]);
    assert!(rt; cut.len() <= END);
    let image = Image::read(cut)?;
    for (rva, want) in RESTS {
        let found = image.rest_at(rva).map(|rest| rest.len());
        assert_eq!(rt; found, want, "at {rva:x}");
    }
    Ok(())
}

/// Metadata without tables: the root and three streams, of which `#~` stands at 48, and Valid at 50.
const SMALL: [Change; 4] = [
    (0, b"BSJB\x01\0\x01\0\0\0\0\0\x04\0\0\0v4.0\0\0\x03\0"),
    (0x18, b"\x48\0\0\0\x18\0\0\0#~\0\0"),
    (0x24, b"\x60\0\0\0\x04\0\0\0#Strings\0\0\0\0"),
    (0x38, b"\x64\0\0\0\x04\0\0\0#Blob\0\0\0"),
];

/// The bits of Valid that are those of no table.
const NO_TABLES: [u8; 26] = [
    0x03, 0x05, 0x07, 0x13, 0x16, 0x1e, 0x1f, 0x2d, 0x2e, 0x2f, 0x30, 0x31, 0x32, 0x33, 0x34, 0x35,
    0x36, 0x37, 0x38, 0x39, 0x3a, 0x3b, 0x3c, 0x3d, 0x3e, 0x3f,
];

/// Returns whether metadata with this Valid is refused for this bit.
fn is_refused_for(md: &mut [u8], valid: u64, bit: u8) -> bool {
    put(md, 0x50, &valid.to_le_bytes())
        && md.len() <= 0x100
        && Tables::read(md).err() == Some(TableFault::BadTables(bit, 0x50))
}

#[test]
fn the_lowest_bit_of_no_table_is_told(rt: HostRuntime) -> Result<(), Fail> {
    let mut md = zeros_with(&rt, rt.alloc(), 0x68, &SMALL)?;
    for bit in NO_TABLES {
        assert!(rt; bit < 64);
        // The bit alone, with all higher ones, and with that of Module.
        for valid in [1u64 << bit, u64::MAX << bit, 1u64 << bit | 1] {
            assert!(rt; is_refused_for(&mut md, valid, bit), "{bit}");
        }
    }
    Ok(())
}

/// Returns whether metadata has no row of these tables.
fn has_no_rows(md: &[u8]) -> bool {
    if md.len() > 0x100 {
        return false;
    }
    match Tables::read(md) {
        Ok(tables) => [0, 0x2d, 0xff]
            .iter()
            .all(|table| tables.row_count(*table) == 0),
        Err(_) => false,
    }
}

#[test]
fn metadata_without_tables_has_no_rows(rt: HostRuntime) -> Result<(), Fail> {
    let md = zeros_with(&rt, rt.alloc(), 0x68, &SMALL)?;
    assert!(rt; has_no_rows(&md));
    Ok(())
}

/// Returns whether a walk over methods is after the last one.
fn is_after_the_last(alloc: Global, walk: &mut MethodWalk<'_, '_>) -> Result<bool, AllocError> {
    let mut line = Vec::new(alloc);
    walk.append_name(alloc, &mut line)?;
    Ok(walk.current().is_none() && walk.token().is_none() && line.is_empty())
}

#[test]
fn nothing_is_behind_the_last_method(rt: HostRuntime) -> Result<(), Fail> {
    let alloc = rt.alloc();
    let bytes = file(alloc)?;
    let assembly = AssemblyFile::read(&bytes)?;
    let mut walk = assembly.methods(alloc);
    for _ in 0..3 {
        walk.advance();
        assert!(rt; is_after_the_last(alloc, &mut walk)?);
    }
    Ok(())
}

#[test]
fn no_method_has_the_empty_name(rt: HostRuntime) -> Result<(), Fail> {
    let alloc = rt.alloc();
    let bytes = file(alloc)?;
    assert!(rt; Assembly::read(alloc, &bytes)?.find(b"").is_none());
    Ok(())
}

#[test]
fn no_command_has_a_number_behind_a_blob_or_a_void(rt: HostRuntime) {
    let blob = [0u8];
    assert_eq!(rt; compressed(&blob, 9), Err(SigFault::Short(1)));
    assert_eq!(rt; Place::Void.text(), b"void".as_slice());
}
