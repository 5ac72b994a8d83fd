//! A walk over the methods of an assembly.

#![tactic(auto, using(metadata_tables::proofs::ColumnLemmas::known_columns))]

ghost use Rattle.std.specs.Prelude.{◌≡◌, ◌++◌, ◌^◌, ◌<◌, drop, OnOk};
ghost use Rattle.metadata_tables.specs.Numbers.{method_def};
ghost use Rattle.asm_image.specs.Cells.{HasRow, RunsRise, signature};
ghost use Rattle.asm_image.specs.Names.{own_name};
ghost use Rattle.asm_image.specs.Rows.{first_described, first_name, first_token, rows_of, described, method_row};

use crate::metadata::Metadata;
use crate::method_row::Method;
use crate::names::{append_types, replace_owner};
use crate::types::owner_of;
use cc_base::{Token, append_escaped};
use metadata_tables::column::{
    METHOD_DEF_FLAGS, METHOD_DEF_IMPL_FLAGS, METHOD_DEF_NAME, METHOD_DEF_RVA, METHOD_DEF_SIGNATURE,
};
use metadata_tables::table::METHOD_DEF;
use signature_blobs::{MethodSig, SigTypes, method_sig};
use std::alloc::{AllocError, Global};
use std::marker::Model;

/// A walk over the methods of an assembly, in the order of the table MethodDef. It holds none of them.
/// Contracts see the rows from the current one on.
#[derive(Drop)]
pub struct MethodWalk<'f, 'a> {
    metadata: &'f Metadata<'a>,
    /// The row of the current method, or the one after the last.
    row: u32,
    /// A type whose run of methods begins at or before that row, 0 for none.
    owner: u32,
    /// The name of that type.
    owner_name: Vec<u8>,
}

impl<'f, 'a> Model for MethodWalk<'f, 'a> {
    ghost use Rattle.std.specs.Prelude.{List};
    ghost use Rattle.asm_image.specs.declared.method_row.MethodRow.{MethodRow};
    ghost use Rattle.asm_image.specs.Rows.{rows_from};

    ghost Value = { List MethodRow };

    ghost view = { λ walk. rows_from walk.metadata.now.bytes walk.row };

    ghost use Rattle.asm_image.specs.Reading.{IsWalk};

    ghost invariant = { λ walk. IsWalk walk.metadata.now.bytes walk.row walk.owner walk.owner_name.items };
}

/// The signature of a method.
#[tactic(auto, using(metadata_tables::proofs::ColumnLemmas::known_columns), unfolding(crate::specs::Cells::signature))]
fn signature_of(metadata: &Metadata<'_>, row: u32) -> MethodSig
    requires { HasRow metadata.now.bytes method_def row }
    ensures { result ≡ signature metadata.now.bytes row }
{
    match method_sig(metadata.blob(METHOD_DEF, row, METHOD_DEF_SIGNATURE)) {
        Ok(sig) => sig,
        Err(_) => MethodSig {
            has_this: false,
            generic: false,
            types: SigTypes::Other,
        },
    }
}

/// The method of a row.
#[tactic(auto, using(metadata_tables::proofs::ColumnLemmas::known_columns), unfolding(crate::specs::Rows::method_row))]
fn method_at(metadata: &Metadata<'_>, row: u32) -> Method
    requires there { HasRow metadata.now.bytes method_def row }
    requires few { row < 2 ^ 24 }
    ensures { result ≡ described (method_row metadata.now.bytes row) }
{
    Method {
        token: Token::new(METHOD_DEF, row),
        flags: metadata.cell(METHOD_DEF, row, METHOD_DEF_FLAGS) as u16,
        impl_flags: metadata.cell(METHOD_DEF, row, METHOD_DEF_IMPL_FLAGS) as u16,
        rva: metadata.cell(METHOD_DEF, row, METHOD_DEF_RVA),
        sig: signature_of(metadata, row),
    }
}

/// Appends the printed name of a method after that of its type.
#[tactic(auto, using(metadata_tables::proofs::ColumnLemmas::known_columns))]
fn append_own_name(
    alloc: Global,
    line: &mut Vec<u8>,
    metadata: &Metadata<'_>,
    row: u32,
) -> Result<(), AllocError>
    requires { HasRow metadata.now.bytes method_def row }
    ensures { OnOk result (line.new.items ≡ line.old.items ++ own_name metadata.now.bytes row) }
{
    let name = metadata.text(METHOD_DEF, row, METHOD_DEF_NAME);
    line.extend_from_slice(b"::")?;
    append_escaped(alloc, line, name)?;
    append_types(line, &signature_of(metadata, row).types)
}

impl<'f, 'a> MethodWalk<'f, 'a> {
    /// A walk from the first method on.
    #[tactic(auto, using(metadata_tables::proofs::ColumnLemmas::known_columns, crate::proofs::WalkLemmas::walk))]
    pub(crate) fn new(alloc: Global, metadata: &'f Metadata<'a>) -> MethodWalk<'f, 'a>
        requires { RunsRise metadata.now.bytes }
        ensures { result ≡ rows_of metadata.now.bytes }
    {
        MethodWalk {
            metadata,
            row: 1,
            owner: 0,
            owner_name: Vec::new(alloc),
        }
    }

    /// The token of the current method, none where all are passed.
    ///
    /// Cost: constant. The signature is not read.
    #[tactic(auto, using(metadata_tables::proofs::ColumnLemmas::known_columns, crate::proofs::WalkLemmas::walk), unfolding(crate::specs::Rows::method_row))]
    pub fn token(&self) -> Option<Token>
        ensures { result ≡ first_token self.now }
    {
        if self.row <= self.metadata.row_count(METHOD_DEF) {
            Some(Token::new(METHOD_DEF, self.row))
        } else {
            None
        }
    }

    /// The current method, none where all are passed. It takes no memory.
    #[tactic(auto, using(metadata_tables::proofs::ColumnLemmas::known_columns, crate::proofs::WalkLemmas::walk))]
    pub fn current(&self) -> Option<Method>
        ensures { result ≡ first_described self.now }
    {
        if self.row <= self.metadata.row_count(METHOD_DEF) {
            Some(method_at(self.metadata, self.row))
        } else {
            None
        }
    }

    /// Goes on to the next method.
    #[tactic(auto, using(metadata_tables::proofs::ColumnLemmas::known_columns, crate::proofs::WalkLemmas::walk))]
    pub fn advance(&mut self)
        ensures { self.new ≡ drop 1 self.old }
    {
        if self.row <= self.metadata.row_count(METHOD_DEF) {
            self.row += 1;
        }
    }

    /// Appends the printed name of the current method, nothing where all are passed. An error may leave a
    /// part of it.
    ///
    /// Cost: linear in the length of what is appended; a type's name is escaped once for all its methods.
    #[tactic(auto, using(metadata_tables::proofs::ColumnLemmas::known_columns, crate::proofs::WalkLemmas::walk))]
    pub fn append_name(&mut self, alloc: Global, line: &mut Vec<u8>) -> Result<(), AllocError>
        ensures ok { OnOk result (line.new.items ≡ line.old.items ++ first_name self.old) }
        ensures kept { self.new ≡ self.old }
    {
        let metadata = self.metadata;
        let row = self.row;
        if row > metadata.row_count(METHOD_DEF) {
            return Ok(());
        }
        let owner = owner_of(metadata, self.owner, row);
        if owner != self.owner {
            self.owner = 0;
            replace_owner(alloc, &mut self.owner_name, metadata, owner)?;
            self.owner = owner;
        }
        line.extend_from_slice(&self.owner_name)?;
        append_own_name(alloc, line, metadata, row)
    }
}
