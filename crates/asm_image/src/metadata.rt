//! The metadata of a file: its cells, and the items that they name.

#![tactic(auto, using(metadata_tables::proofs::ColumnLemmas::known_columns))]

ghost use Rattle.std.specs.Prelude.{◌≡◌, ◌+◌, ◌*◌, ◌^◌, ◌<◌, ◌≤◌, ⊤, length, option_map, slice_index_or};
ghost use Rattle.std.specs.Str.{bytes_eq};
ghost use Rattle.cc_base.specs.Tests.{Judges};
ghost use Rattle.cil_model.specs.Limits.{MAX_FILE_BYTES};
ghost use Rattle.metadata_tables.specs.Layout.{row_count, cell};
ghost use Rattle.metadata_tables.specs.Schema.{columns_of};
ghost use Rattle.asm_image.specs.Cells.{HasRow, text, text_at, blob};
ghost use Rattle.asm_image.specs.Faults.{heap_end, index_out, text_test};

use crate::fault::{AsmFault, Cause};
use metadata_tables::{Column, TableFault, Tables};
use std::marker::Model;

/// The tables of a file's metadata, and where in the file it begins. Contracts see its bytes and that offset.
#[derive(Drop)]
pub struct Metadata<'a> {
    tables: Tables<'a>,
    offset: u32,
}

impl<'a> Model for Metadata<'a> {
    ghost use Rattle.std.specs.Prelude.{◌+◌, ◌≤◌, length};
    ghost use Rattle.cil_model.specs.Limits.{MAX_FILE_BYTES};
    ghost use Rattle.asm_image.specs.Metadata.{FileMetadata};

    ghost Value = { FileMetadata };

    ghost view = { λ m. record { bytes = m.tables; offset = m.offset } };

    ghost invariant = { λ m. m.offset + length m.tables ≤ MAX_FILE_BYTES };
}

impl<'a> Metadata<'a> {
    /// The metadata that has these tables and begins at an offset of the file.
    pub fn new(tables: Tables<'a>, offset: u32) -> Metadata<'a>
        requires { offset + length tables ≤ MAX_FILE_BYTES }
        ensures bytes { result.bytes ≡ tables.entry }
        ensures offset { result.offset ≡ offset }
    {
        Metadata { tables, offset }
    }

    /// The tables.
    pub fn tables(&self) -> &Tables<'a>
        ensures tables { result.now ≡ self.now.bytes }
        ensures small { self.now.offset + length self.now.bytes ≤ MAX_FILE_BYTES }
    {
        &self.tables
    }

    /// Returns how many rows a table has, 0 where there is no such table.
    pub fn row_count(&self, table: u8) -> u32
        ensures count { result ≡ row_count self.now.bytes table }
        ensures few { 2 * result * length (columns_of table) ≤ MAX_FILE_BYTES }
    {
        self.tables.row_count(table)
    }

    /// The number in a cell.
    pub fn cell(&self, table: u8, row: u32, column: u8) -> u32
        requires row { HasRow self.now.bytes table row }
        requires column { column < length (columns_of table) }
        ensures number { result ≡ cell self.now.bytes table row column }
        ensures two { slice_index_or (columns_of table) column Column.Two ≡ Column.Two → result < 2 ^ 16 }
    {
        self.tables.cell(table, row, column)
    }

    /// Where in the file the metadata begins.
    pub fn offset(&self) -> u32
        ensures { result ≡ self.now.offset }
    {
        self.offset
    }

    /// The fault of a cell that names no item of its heap.
    pub fn heap_end(&self, table: u8, row: u32, column: u8) -> AsmFault
        requires row { HasRow self.now.bytes table row }
        requires column { column < length (columns_of table) }
        ensures { result ≡ heap_end self.now.bytes self.now.offset table row column }
    {
        let at = self.tables.cell_at(table, row, column);
        AsmFault {
            at: self.offset + at,
            cause: Cause::Table(TableFault::HeapEnd(at)),
        }
    }

    /// The fault of a cell that names a row that there is not.
    pub fn index_out(&self, table: u8, row: u32, column: u8) -> AsmFault
        requires row { HasRow self.now.bytes table row }
        requires column { column < length (columns_of table) }
        ensures { result ≡ index_out self.now.bytes self.now.offset table row column }
    {
        AsmFault {
            at: self.offset + self.tables.cell_at(table, row, column),
            cause: Cause::Table(TableFault::IndexOut(table, row, column)),
        }
    }

    /// Tests that the text is there that a cell names.
    ///
    /// Cost: one comparison.
    pub fn test_text(&self, table: u8, row: u32, column: u8) -> Result<(), AsmFault>
        requires row { HasRow self.now.bytes table row }
        requires column { column < length (columns_of table) }
        ensures { Judges result (text_test self.now.bytes self.now.offset table row column) (λ _. ⊤) }
    {
        if self.tables.has_string(self.cell(table, row, column)) {
            Ok(())
        } else {
            Err(self.heap_end(table, row, column))
        }
    }

    /// The text that a cell names, none where there is none.
    pub fn text_at(&self, table: u8, row: u32, column: u8) -> Option<&'a [u8]>
        requires row { HasRow self.now.bytes table row }
        requires column { column < length (columns_of table) }
        ensures { option_map (λ text. text.now) result ≡ text_at self.now.bytes table row column }
    {
        self.tables.string_at(self.cell(table, row, column))
    }

    /// The text that a cell names, empty where there is none.
    pub fn text(&self, table: u8, row: u32, column: u8) -> &'a [u8]
        requires row { HasRow self.now.bytes table row }
        requires column { column < length (columns_of table) }
        ensures { result.now ≡ text self.now.bytes table row column }
    {
        match self.tables.string_at(self.cell(table, row, column)) {
            Some(text) => text,
            None => &[],
        }
    }

    /// Returns whether the text that a cell names is this one.
    ///
    /// Cost: linear in the length of `known`.
    #[tactic(auto, using(crate::proofs::TextLemmas::known_text))]
    pub fn text_is(&self, table: u8, row: u32, column: u8, known: &[u8]) -> bool
        requires row { HasRow self.now.bytes table row }
        requires column { column < length (columns_of table) }
        requires some { 0 < length known.now }
        ensures { result ≡ bytes_eq (text self.now.bytes table row column) known.now }
    {
        self.tables.string_is(self.cell(table, row, column), known)
    }

    /// The bytes of the heap `#Blob` that a cell names, empty where there are none.
    #[tactic(auto, using(crate::proofs::BlobLemmas::blob_short))]
    pub fn blob(&self, table: u8, row: u32, column: u8) -> &'a [u8]
        requires row { HasRow self.now.bytes table row }
        requires column { column < length (columns_of table) }
        ensures blob { result.now ≡ blob self.now.bytes table row column }
        ensures short { length result.now ≤ MAX_FILE_BYTES }
    {
        match self.tables.blob_at(self.cell(table, row, column)) {
            Some(blob) => blob,
            None => &[],
        }
    }
}
