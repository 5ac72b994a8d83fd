//! Methods by their names.

ghost use Rattle.std.specs.Prelude.{◌≡◌, ◌++◌, ◌-◌, ◌≤◌, ℕ, List, length, slice_index, OnOk, IfOk};
ghost use Rattle.asm_image.specs.Cells.{method_count};
ghost use Rattle.asm_image.specs.Find.{last_of, Notes, NamesFirst};
ghost use Rattle.asm_image.specs.Names.{types_text};
ghost use Rattle.asm_image.specs.Rows.{rows_of};
ghost use Rattle.signature_blobs.specs.declared.method.SigTypes.{SigTypes};

use crate::method_row::MethodRow;
use indexmap::IndexMap;
use std::alloc::{AllocError, Global};
use std::marker::Model;

/// Names, each with the last row that has it. Contracts see both, in the order of the names' first notes.
#[derive(Drop)]
pub struct LastRows {
    rows: IndexMap<Vec<u8>, usize>,
}

impl Model for LastRows {
    ghost use Rattle.std.specs.Prelude.{ℕ, List, map};

    ghost Value = { List (List ℕ × ℕ) };

    ghost view = { λ last. map (λ entry. (entry.0.items, entry.1)) last.rows.entries };
}

impl LastRows {
    /// Notes a name for a row.
    fn note(&mut self, name: Vec<u8>, row: usize) -> Result<(), AllocError>
        ensures { OnOk result (Notes self.old name.items row self.new) }
    {
        self.rows.insert(name, row)?;
        Ok(())
    }

    /// The last row that has a name, 0 where none has.
    fn get(&self, name: &[u8]) -> usize
        ensures { result ≡ last_of self.now name.now }
    {
        self.rows.get(name).copied().unwrap_or(0)
    }
}

/// The rows of methods by their names up to the types of the parameters.
#[derive(Drop)]
pub struct NameTable {
    /// The last row that has a name.
    last: LastRows,
    /// For each row the one before it that has the same name, 0 where there is none.
    earlier: Vec<usize>,
}

/// A printed name up to the types of its parameters.
pub fn short_name(name: &[u8]) -> &[u8]
    ensures { (prefix : List ℕ) (types : SigTypes) → name.now ≡ prefix ++ types_text types → result.now ≡ prefix }
{
    match name.iter().rposition(|&byte| byte == b'(') {
        Some(end) => &name[..end],
        None => name,
    }
}

impl NameTable {
    /// The names of methods.
    ///
    /// Cost: each method is visited once.
    pub fn of(alloc: Global, methods: &[MethodRow]) -> Result<NameTable, AllocError>
        ensures { IfOk result (λ names. (md : List ℕ) → methods.now ≡ rows_of md →
            NamesFirst names.last names.earlier.items md (method_count md)) }
    {
        let mut last = LastRows {
            rows: IndexMap::new(alloc),
        };
        let mut earlier = Vec::new(alloc);
        for method in methods {
            let short = short_name(method.name.as_slice());
            earlier.push(last.get(short))?;
            last.note(short.to_vec(alloc)?, earlier.len())?;
        }
        Ok(NameTable { last, earlier })
    }

    /// The last row that has a name up to the types of its parameters, 0 where none has.
    pub fn last_of(&self, name: &[u8]) -> usize
        ensures { result ≡ last_of self.now.last name.now }
    {
        self.last.get(name)
    }

    /// The row before this one that has the same name up to the types of its parameters, 0 where none has.
    pub fn before(&self, row: usize) -> usize
        requires first { 1 ≤ row }
        requires last { row ≤ length self.now.earlier.items }
        ensures { result ≡ slice_index self.now.earlier.items (row - 1) }
    {
        self.earlier[row - 1]
    }
}
