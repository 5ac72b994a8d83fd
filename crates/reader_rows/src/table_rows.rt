//! A row in each table, made by hand: where each cell stands, also in the tables that no command reads (ECMA-335
//! II.22).

ghost use Rattle.std.specs.Prelude.{◌≤◌};

use metadata_tables::{Tables, columns};
use std::alloc::{AllocError, Global};
use std::process::Abort;
use std::test::Fail;

/// The columns of each table, by its number: numbers of two and of four bytes, indexes into `#Strings`, `#GUID`
/// and `#Blob`, and indexes into tables.
const SCHEMAS: [(u8, &[u8]); 38] = [
    // Module, TypeRef, TypeDef, Field.
    (0x00, b"2SGGG"),
    (0x01, b"-SS"),
    (0x02, b"4SS---"),
    (0x04, b"2SB"),
    // MethodDef, Param, InterfaceImpl, MemberRef.
    (0x06, b"422SB-"),
    (0x08, b"22S"),
    (0x09, b"--"),
    (0x0a, b"-SB"),
    // Constant, CustomAttribute, FieldMarshal, DeclSecurity.
    (0x0b, b"2-B"),
    (0x0c, b"--B"),
    (0x0d, b"-B"),
    (0x0e, b"2-B"),
    // ClassLayout, FieldLayout, StandAloneSig, EventMap.
    (0x0f, b"24-"),
    (0x10, b"4-"),
    (0x11, b"B"),
    (0x12, b"--"),
    // Event, PropertyMap, Property, MethodSemantics.
    (0x14, b"2S-"),
    (0x15, b"--"),
    (0x17, b"2SB"),
    (0x18, b"2--"),
    // MethodImpl, ModuleRef, TypeSpec, ImplMap.
    (0x19, b"---"),
    (0x1a, b"S"),
    (0x1b, b"B"),
    (0x1c, b"2-S-"),
    // FieldRVA, Assembly, AssemblyProcessor, AssemblyOS.
    (0x1d, b"4-"),
    (0x20, b"422224BSS"),
    (0x21, b"4"),
    (0x22, b"444"),
    // AssemblyRef, AssemblyRefProcessor, AssemblyRefOS, File.
    (0x23, b"22224BSSB"),
    (0x24, b"4-"),
    (0x25, b"444-"),
    (0x26, b"4SB"),
    // ExportedType, ManifestResource, NestedClass, GenericParam.
    (0x27, b"44SS-"),
    (0x28, b"44S-"),
    (0x29, b"--"),
    (0x2a, b"22-S"),
    // MethodSpec, GenericParamConstraint.
    (0x2b, b"-B"),
    (0x2c, b"--"),
];

/// HeapSizes, and where the rows end of metadata with one row in each table.
const ENDS: [(u8, u32); 5] = [
    (0, 0x216),
    // `#Strings`, `#GUID`, `#Blob`, and all three.
    (1, 0x242),
    (2, 0x21c),
    (4, 0x234),
    (7, 0x266),
];

/// The root, two empty streams and the header of `#~`, which stands at 48, up to its size.
const FRONT: &[u8] =
    b"BSJB\x01\0\x01\0\0\0\0\0\x04\0\0\0v4.0\0\0\x03\0\0\0\0\0\0\0\0\0#Strings\0\0\0\0\0\0\0\0\0\0\0\0#Blob\0\0\0\x48\0\0\0";

/// The bits of the tables that there are.
const VALID: u64 = 0x1fff_3fb7_ff57;

/// Appends the size of the stream `#~`, its name, and its header up to HeapSizes.
fn append_stream(prefix: &mut Vec<u8>, heap_sizes: u8, size: u32) -> Result<(), AllocError> {
    prefix.extend_from_slice(&size.to_le_bytes())?;
    prefix.extend_from_slice(b"#~\0\0\0\0\0\0\x02\0")?;
    prefix.extend_from_slice(&[heap_sizes, 1])?;
    Ok(())
}

/// Appends Valid and Sorted.
fn append_bits(prefix: &mut Vec<u8>) -> Result<(), AllocError> {
    prefix.extend_from_slice(&VALID.to_le_bytes())?;
    prefix.extend_from_slice(&[0; 8])?;
    Ok(())
}

/// Appends one row for each table.
fn append_counts(prefix: &mut Vec<u8>) -> Result<(), AllocError> {
    for _ in SCHEMAS {
        prefix.extend_from_slice(&[1, 0, 0, 0])?;
    }
    Ok(())
}

/// The start of metadata with one row in each table, up to the first row. The stream `#~` has this size.
fn prefix(alloc: Global, heap_sizes: u8, size: u32) -> Result<Vec<u8>, AllocError> {
    let mut prefix = Vec::from_slice(alloc, FRONT)?;
    append_stream(&mut prefix, heap_sizes, size)?;
    append_bits(&mut prefix)?;
    append_counts(&mut prefix)?;
    Ok(prefix)
}

/// A cell: where it stands, and its number.
#[derive(Clone, Copy)]
struct Cell {
    /// Its offset in the metadata.
    at: u32,
    number: u32,
}

/// The cell of a table, which has it.
fn cell_of(rt: &impl Abort, tables: &Tables<'_>, table: u8, row: u32, column: u8) -> Cell {
    assert!(rt;
        row >= 1 && row <= tables.row_count(table),
        "no row {row} of {table}"
    );
    assert!(rt;
        usize::from(column) < columns(table).len(),
        "no column {column} of {table}"
    );
    Cell {
        at: tables.cell_at(table, row, column),
        number: tables.cell(table, row, column),
    }
}

/// The bytes of a column of this kind.
fn width(kind: u8, heap_sizes: u8) -> u32
    ensures { result ≤ 4 }
{
    let bit = match kind {
        b'4' => return 4,
        b'S' => 1,
        b'G' => 2,
        b'B' => 4,
        _ => return 2,
    };
    if heap_sizes & bit == 0 { 2 } else { 4 }
}

/// The metadata of these heap sizes, with one row in each table. From the first row on, each byte is the low byte of
/// its own offset.
fn metadata(
    rt: &impl Abort,
    alloc: Global,
    heap_sizes: u8,
    end: u32,
) -> Result<Vec<u8>, AllocError> {
    assert!(rt; end >= 0xf8 && end < 0x300);
    let mut md = prefix(alloc, heap_sizes, end - 0x48)?;
    assert!(rt; md.len() == 0xf8);
    for number in 0xf8..end {
        md.push((number % 256) as u8)?;
    }
    Ok(md)
}

/// Returns whether a cell stands at this offset, and has the number of the bytes there.
fn stands(md: &[u8], cell: Cell, at: u32, width: u32) -> bool {
    let bytes = cell.number.to_le_bytes();
    cell.at == at
        && at < 0x300
        && width <= 4
        && bytes.get(..width as usize) == md.get(at as usize..(at + width) as usize)
        && (width == 4 || cell.number < 0x1_0000)
}

/// Returns where the row of a table ends that begins at this offset. Each of its cells stands there.
fn end_of_row(
    rt: &impl Abort,
    md: &[u8],
    tables: &Tables<'_>,
    table: u8,
    kinds: &[u8],
    heap_sizes: u8,
    at: u32,
) -> u32 {
    assert!(rt; columns(table).len() == kinds.len(), "table {table}");
    let mut at = at;
    for (kind, column) in kinds.iter().zip(0..) {
        let cell = cell_of(rt, tables, table, 1, column);
        let width = width(*kind, heap_sizes);
        assert!(rt;
            stands(md, cell, at, width),
            "table {table}, column {column}"
        );
        at = at.saturating_add(width);
    }
    at
}

#[test]
fn each_cell_has_its_place(rt: HostRuntime) -> Result<(), Fail> {
    for (heap_sizes, end) in ENDS {
        let md = metadata(&rt, rt.alloc(), heap_sizes, end)?;
        assert!(rt; md.len() < 0x300);
        let tables = Tables::read(&md)?;
        let mut at = 0xf8;
        for (table, kinds) in SCHEMAS {
            at = end_of_row(&rt, &md, &tables, table, kinds, heap_sizes, at);
        }
        assert!(rt; at == end);
    }
    Ok(())
}
