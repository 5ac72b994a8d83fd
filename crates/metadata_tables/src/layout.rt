//! The stream `#~`: which tables are present, and where their rows stand (ECMA-335 II.24.2.6).

ghost use Rattle.std.specs.Prelude.{◌≡◌, ◌+◌, ◌*◌, ◌^◌, ◌<◌, ◌≤◌, ⊤, length, Some, IfOk, IfErr, codes};
ghost use Rattle.cc_base.specs.Tests.{first_of, Judges};
ghost use Rattle.metadata_tables.specs.Root.{stream};
ghost use Rattle.metadata_tables.specs.Layout.{valid, counts_at, present_below, row_counts};
ghost use Rattle.metadata_tables.specs.TableTests.{bits_tests, all_rows_tests, tables_tests};
ghost use Rattle.metadata_tables.specs.Tests.{offset_of};
ghost use Rattle.metadata_tables.specs.Placed.{IsPlaced, IsLayoutOf};

use crate::fault::TableFault;
use crate::fields::{after_fields, after_run};
use crate::root::Stream;
use crate::schema::{MOST_COLUMNS, TABLES, columns};
use crate::width::{OFFSETS, column_offsets, has_bit};
use cc_base::{u32_at, u64_at};

/// Where the rows of all tables stand.
#[derive(Clone, Copy)]
pub(crate) struct Layout {
    /// The row count of each table.
    pub(crate) counts: [u32; TABLES],
    /// Where the first row of each table stands.
    pub(crate) bases: [u32; TABLES],
    /// Where in a row of each table each column begins, and after the last one where the row ends.
    pub(crate) offsets: [[u8; OFFSETS]; TABLES],
}

/// Returns how many tables the bits of Valid, which stands at a place, name.
fn present_tables(bits: u64, at: u32) -> Result<u32, TableFault>
    ensures judged { Judges result (first_of (bits_tests bits at)) (λ _. ⊤) }
    ensures present { IfOk result (λ present. present ≡ present_below bits 64) }
    ensures fault_within { IfErr result (λ fault. offset_of fault ≡ at) }
{
    let mut present = 0;
    for bit in 0..64u8 {
        if has_bit(bits, bit) {
            if columns(bit).is_empty() {
                return Err(TableFault::BadTables(bit, at));
            }
            present += 1;
        }
    }
    Ok(present)
}

/// The row counts of all tables, which stand from a place on for those that are present.
fn row_counts(md: &[u8], start: usize, bits: u64) -> [u32; TABLES]
    requires length { length md.now < 2 ^ 31 }
    requires bits { bits ≡ valid md.now }
    requires place { start ≡ counts_at md.now }
    requires fits { start + 4 * present_below bits 64 ≤ length md.now }
    ensures { result ≡ row_counts md.now }
{
    let mut counts = [0; TABLES];
    let mut at = start;
    for table in 0..TABLES {
        if has_bit(bits, table as u8) {
            counts[table] = u32_at(md, at);
            at += 4;
        }
    }
    counts
}

/// The layout of the rows, which stand from a place on.
fn place_rows(
    counts: [u32; TABLES],
    heap_sizes: u8,
    start: usize,
    end: usize,
) -> Result<Layout, TableFault>
    requires start { start ≤ end }
    requires end { end < 2 ^ 31 }
    ensures judged { Judges result (first_of (all_rows_tests end counts heap_sizes start)) (λ _. ⊤) }
    ensures placed { IfOk result (IsPlaced counts heap_sizes start) }
    ensures fault_within { IfErr result (λ fault. offset_of fault ≤ end) }
{
    let mut bases = [0; TABLES];
    let mut offsets = [[0; OFFSETS]; TABLES];
    let mut at = start;
    for table in 0..TABLES {
        let row = column_offsets(&counts, heap_sizes, columns(table as u8));
        bases[table] = at as u32;
        offsets[table] = row;
        at = after_run(at, counts[table], u32::from(row[MOST_COLUMNS]), end)?;
    }
    Ok(Layout {
        counts,
        bases,
        offsets,
    })
}

/// The layout of the stream `#~`.
pub(crate) fn read_layout(md: &[u8], tables: Stream) -> Result<Layout, TableFault>
    requires length { length md.now < 2 ^ 31 }
    requires tables { stream md.now (codes "#~") ≡ Some tables }
    requires within { tables.at + tables.size ≤ length md.now }
    ensures judged { Judges result (first_of (tables_tests md.now)) (λ _. ⊤) }
    ensures placed { IfOk result (IsLayoutOf md.now) }
    ensures fault_within { IfErr result (λ fault. offset_of fault ≤ length md.now) }
{
    let start = tables.at as usize;
    let end = start + tables.size as usize;
    let sorted_at = after_fields(start, &[4, 1, 1, 1, 1, 8], end)?;
    let valid = u64_at(md, start + 8);
    let present = present_tables(valid, tables.at + 8)?;
    let counts_at = after_fields(sorted_at, &[8], end)?;
    let rows_at = after_run(counts_at, present, 4, end)?;
    let counts = row_counts(md, counts_at, valid);
    place_rows(counts, md[start + 6], rows_at, end)
}
