//! How many bytes the columns have.

ghost use Rattle.std.specs.Prelude.{◌≡◌, ◌+◌, ◌*◌, ◌-◌, ◌<◌, ◌≤◌, ◌==◌, length, slice_index, nat_lt};
ghost use Rattle.std.specs.List.{list_all};
ghost use Rattle.std.specs.Int.{bit_at};
ghost use Rattle.metadata_tables.specs.Layout.{column_offsets};
ghost use Rattle.metadata_tables.specs.Schema.{row_index_width, heap_index_width, width, total_width};

use crate::schema::{Column, MOST_COLUMNS, TABLES};

/// The row count of a table, 0 where there is no such table.
pub(crate) fn count_of(counts: &[u32; TABLES], table: u8) -> u32
    ensures { result ≡ slice_index counts.now table }
{
    let table = usize::from(table);
    if table < TABLES { counts[table] } else { 0 }
}

/// Returns whether a bit is set.
pub(crate) fn has_bit(bits: u64, bit: u8) -> bool
    requires { bit < 64 }
    ensures { result ≡ (bit_at bits bit == 1) }
{
    (bits >> bit) & 1 == 1
}

/// The bytes of an index into a heap, whose bit of HeapSizes this is.
fn heap_index_width(heap_sizes: u8, bit: u8) -> u8
    requires { bit < 8 }
    ensures { result ≡ heap_index_width heap_sizes bit }
{
    if has_bit(u64::from(heap_sizes), bit) {
        4
    } else {
        2
    }
}

/// Returns whether each of these tables has fewer rows than this.
fn are_below(counts: &[u32; TABLES], tables: &[u8], limit: u32) -> bool
    ensures { result ≡ list_all (λ table. nat_lt (slice_index counts.now table) limit) tables.now }
{
    tables.iter().all(|table| count_of(counts, *table) < limit)
}

/// The bytes of an index into these tables that has this many bits for the row.
fn row_index_width(counts: &[u32; TABLES], tables: &[u8], bits: u8) -> u8
    requires { bits ≤ 16 }
    ensures { result ≡ row_index_width counts.now tables.now bits }
{
    let limit = 1u32 << bits;
    if are_below(counts, tables, limit) {
        2
    } else {
        4
    }
}

/// The bytes of a column.
#[tactic(auto, unfolding(crate::specs::Schema::width))]
pub(crate) fn column_width(counts: &[u32; TABLES], heap_sizes: u8, column: Column) -> u8
    ensures value { result ≡ width counts.now heap_sizes column }
    ensures small { result ≤ 4 }
{
    match column {
        Column::Two => 2,
        Column::Four => 4,
        Column::Strings => heap_index_width(heap_sizes, 0),
        Column::Guid => heap_index_width(heap_sizes, 1),
        Column::Blob => heap_index_width(heap_sizes, 2),
        Column::Row(table) => row_index_width(counts, &[table], 16),
        Column::Coded(kind) => row_index_width(counts, kind.tables(), 16 - kind.tag_bits()),
    }
}

/// The number of offsets at which the columns of a row begin or end.
pub(crate) const OFFSETS: usize = MOST_COLUMNS + 1;

/// Where each of some columns side by side begins, and after the last one where all of them end.
pub(crate) fn column_offsets(
    counts: &[u32; TABLES],
    heap_sizes: u8,
    columns: &[Column],
) -> [u8; OFFSETS]
    requires { length columns.now ≤ 9 }
    ensures offsets { result ≡ column_offsets counts.now heap_sizes columns.now }
    ensures end { slice_index result 9 ≡ total_width counts.now heap_sizes columns.now }
{
    let mut offsets = [0; OFFSETS];
    let mut end = 0;
    for i in 0..OFFSETS {
        offsets[i] = end;
        if i < columns.len() {
            end += column_width(counts, heap_sizes, columns[i]);
        }
    }
    offsets
}
