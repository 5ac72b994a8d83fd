//! Metadata as read: rows, cells and the items of heaps.

ghost use Rattle.std.specs.Prelude.{◌≡◌, ℕ, ◌+◌, ◌*◌, ◌^◌, ◌<◌, ◌≤◌, ◌↔◌, List, length, slice_index_or, None, Some, IsOk, IfOk, IfErr, IfSome, is_some, option_map, drop};
ghost use Rattle.cc_base.specs.Slices.{IsShort};
ghost use Rattle.metadata_tables.specs.Heaps.{string_at, string_is, blob_at, blob_offset, user_string_at, StandsAt};
ghost use Rattle.metadata_tables.specs.Layout.{row_count, column_offset, column_width, cell_at, cell};
ghost use Rattle.metadata_tables.specs.Root.{bytes_of};
ghost use Rattle.metadata_tables.specs.Schema.{columns_of};
ghost use Rattle.metadata_tables.specs.TableTests.{first_table_fault};
ghost use Rattle.metadata_tables.specs.Tests.{offset_of};

use crate::fault::TableFault;
use crate::heaps::{behind_last_zero, is_text, item_of, whole_length, zero_ended};
use crate::layout::{Layout, read_layout};
use crate::root::{Stream, read_streams};
use crate::schema::{Column, MOST_COLUMNS};
use crate::width::count_of;
use cc_base::{u16_at, u32_at};
use std::marker::Model;

/// Metadata whose root, streams and tables are in order. Contracts see its bytes.
#[derive(Drop)]
pub struct Tables<'a> {
    md: &'a [u8],
    strings: &'a [u8],
    /// Where the last text of `#Strings` ends, after its zero.
    strings_end: usize,
    blob: &'a [u8],
    /// Where the heap `#Blob` begins.
    blob_at: u32,
    user_strings: &'a [u8],
    layout: Layout,
}

impl<'a> Model for Tables<'a> {
    ghost use Rattle.std.specs.Prelude.{ℕ, List};

    ghost Value = { List ℕ };

    ghost use Rattle.metadata_tables.specs.Placed.{ArePartsOf};

    ghost view = { λ t. t.md.now };

    ghost invariant = { λ t. ArePartsOf t.md.now t.strings.now t.strings_end t.blob.now t.blob_at t.user_strings.now t.layout };
}

/// The bytes of a stream.
fn bytes_of(md: &[u8], stream: Stream) -> &[u8]
    requires { stream.at + stream.size ≤ length md.now }
    ensures { result.now ≡ bytes_of md.now (Some stream) }
{
    let start = stream.at as usize;
    &md[start..start + stream.size as usize]
}

/// The bytes from a place on, none past the end.
fn rest_from(bytes: &[u8], index: u32) -> &[u8]
    ensures { result.now ≡ drop index bytes.now }
{
    let index = index as usize;
    if index < bytes.len() {
        &bytes[index..]
    } else {
        &[]
    }
}

impl<'a> Tables<'a> {
    /// Reads metadata: its root and streams, and where the rows of its tables stand. An error is the
    /// first fault in the order of reading.
    pub fn read(md: &'a [u8]) -> Result<Tables<'a>, TableFault>
        requires { IsShort md.now }
        ensures value { IfOk result (λ tables. tables ≡ md.now) }
        ensures accepted { IsOk result ↔ (first_table_fault md.now ≡ None) }
        ensures refused { IfErr result (λ fault. first_table_fault md.now ≡ Some fault) }
        ensures within { IfErr result (λ fault. offset_of fault ≤ length md.now) }
    {
        let streams = read_streams(md)?;
        let layout = read_layout(md, streams.tables)?;
        let user_strings = match streams.user_strings {
            Some(stream) => bytes_of(md, stream),
            None => &[],
        };
        let strings = bytes_of(md, streams.strings);
        Ok(Tables {
            md,
            strings,
            strings_end: behind_last_zero(strings),
            blob: bytes_of(md, streams.blob),
            blob_at: streams.blob.at,
            user_strings,
            layout,
        })
    }

    /// Returns how many rows a table has, 0 where there is no such table.
    pub fn row_count(&self, table: u8) -> u32
        ensures count { result ≡ row_count self.now table }
        // Each cell has two bytes at least.
        ensures few { 2 * result * length (columns_of table) ≤ length self.now }
    {
        count_of(&self.layout.counts, table)
    }

    /// Where a cell stands in the metadata. Rows are counted from 1, columns from 0.
    #[tactic(auto, using(crate::proofs::SchemaLemmas::columns_few))]
    pub fn cell_at(&self, table: u8, row: u32, column: u8) -> u32
        requires first { 1 ≤ row }
        requires last { row ≤ row_count self.now table }
        requires column { column < length (columns_of table) }
        ensures place { result ≡ cell_at self.now table row column }
        ensures within { result < length self.now }
    {
        count_of(&self.layout.bases, table)
            + (row - 1) * self.offset_in_row(table, MOST_COLUMNS)
            + self.offset_in_row(table, usize::from(column))
    }

    /// The number in a cell. Rows are counted from 1, columns from 0.
    #[tactic(auto, using(crate::proofs::CellLemmas::cell_end, crate::proofs::CellLemmas::column_width_two, crate::proofs::CellLemmas::column_width_least), unfolding(crate::specs::Layout::cell))]
    pub fn cell(&self, table: u8, row: u32, column: u8) -> u32
        requires first { 1 ≤ row }
        requires last { row ≤ row_count self.now table }
        requires column { column < length (columns_of table) }
        ensures number { result ≡ cell self.now table row column }
        ensures two { slice_index_or (columns_of table) column Column.Two ≡ Column.Two → result < 2 ^ 16 }
    {
        let at = self.cell_at(table, row, column) as usize;
        if self.cell_width(table, column) == 4 {
            u32_at(self.md, at)
        } else {
            u32::from(u16_at(self.md, at))
        }
    }

    /// Where a column begins in each row of a table, and after the last column where a row ends.
    fn offset_in_row(&self, table: u8, column: usize) -> u32
        requires table { 0 < length (columns_of table) }
        requires column { column ≤ 9 }
        ensures { result ≡ column_offset self.now table column }
    {
        u32::from(self.layout.offsets[usize::from(table)][column])
    }

    /// The bytes of each cell of a column.
    #[tactic(auto, using(crate::proofs::SchemaLemmas::columns_few, crate::proofs::CellLemmas::offset_next))]
    fn cell_width(&self, table: u8, column: u8) -> u32
        requires { column < length (columns_of table) }
        ensures { result ≡ column_width self.now table column }
    {
        let column = usize::from(column);
        self.offset_in_row(table, column + 1) - self.offset_in_row(table, column)
    }

    /// The text at a place of the heap `#Strings`, none where no zero ends it.
    ///
    /// Cost: linear in the length of the text.
    pub fn string_at(&self, index: u32) -> Option<&'a [u8]>
        ensures { option_map (λ text. text.now) result ≡ string_at self.now index }
    {
        zero_ended(rest_from(self.strings, index))
    }

    /// Returns whether there is a text at a place of the heap `#Strings`.
    ///
    /// Cost: one comparison.
    pub fn has_string(&self, index: u32) -> bool
        ensures { result ≡ is_some (string_at self.now index) }
    {
        (index as usize) < self.strings_end
    }

    /// Returns whether there is this text at a place of the heap `#Strings`.
    ///
    /// Cost: linear in the length of `text`.
    pub fn string_is(&self, index: u32, text: &[u8]) -> bool
        ensures { result ≡ string_is self.now index text.now }
    {
        is_text(rest_from(self.strings, index), text)
    }

    /// The item at a place of the heap `#Blob`, none where it is not there as a whole.
    pub fn blob_at(&self, index: u32) -> Option<&'a [u8]>
        ensures { option_map (λ item. item.now) result ≡ blob_at self.now index }
    {
        item_of(rest_from(self.blob, index))
    }

    /// Where the bytes of the item at a place of the heap `#Blob` stand in the metadata.
    pub fn blob_offset(&self, index: u32) -> Option<u32>
        ensures place { result ≡ blob_offset self.now index }
        ensures lent { is_some result ≡ is_some (blob_at self.now index) }
        ensures stands { IfSome result
            (λ at. IfSome (blob_at self.now index) (λ item. StandsAt self.now at item)) }
        ensures within { IfSome result (λ at. at ≤ length self.now) }
    {
        let prefix = whole_length(rest_from(self.blob, index))?;
        Some(self.blob_at + index + prefix.width)
    }

    /// The item at a place of the heap `#US`, none where it is not there as a whole.
    pub fn user_string_at(&self, index: u32) -> Option<&'a [u8]>
        ensures { option_map (λ item. item.now) result ≡ user_string_at self.now index }
    {
        item_of(rest_from(self.user_strings, index))
    }
}
