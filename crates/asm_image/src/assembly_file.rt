//! The file of an assembly, tested as a whole. Nothing here takes memory.

ghost use Rattle.std.specs.Prelude.{◌≡◌, ◌↔◌, ◌+◌, ◌≤◌, length, None, Some, IsOk, IfOk, IfErr};
ghost use Rattle.cc_base.specs.Tests.{first_of, Judges};
ghost use Rattle.cil_model.specs.Limits.{MAX_FILE_BYTES};
ghost use Rattle.pe_reader.specs.Addresses.{metadata, metadata_at};
ghost use Rattle.asm_image.specs.Cells.{RunsRise};
ghost use Rattle.asm_image.specs.Faults.{file_tests, tables_tests, metadata_tests, FirstBroken};
ghost use Rattle.asm_image.specs.Rows.{methods_of};

use crate::fault::{AsmFault, Cause};
use crate::metadata::Metadata;
use crate::method_walk::MethodWalk;
use crate::methods::test_methods;
use crate::types::test_types;
use cil_model::MAX_FILE_BYTES;
use metadata_tables::Tables;
use pe_reader::Image;
use std::alloc::Global;
use std::marker::Model;

/// The file of an assembly without a fault. Contracts see its bytes.
#[derive(Drop)]
pub struct AssemblyFile<'a> {
    image: Image<'a>,
    metadata: Metadata<'a>,
}

impl<'a> Model for AssemblyFile<'a> {
    ghost use Rattle.std.specs.Prelude.{List, ℕ};

    ghost Value = { List ℕ };

    ghost view = { λ file. file.image };

    ghost use Rattle.asm_image.specs.Reading.{IsFile};

    ghost invariant = { IsFile };
}

/// Reads the PE file.
#[tactic(auto, using(cc_base::proofs::TestLemmas::first_tests), unfolding(crate::specs::Faults::file_tests, crate::specs::Faults::large_test, crate::specs::Faults::pe_fault))]
fn read_image(bytes: &[u8]) -> Result<Image<'_>, AsmFault>
    ensures judged { Judges result (first_of (file_tests bytes.now)) (λ image. image ≡ bytes.now) }
    ensures small { IfOk result (λ _. length bytes.now ≤ MAX_FILE_BYTES) }
{
    if bytes.len() > MAX_FILE_BYTES as usize {
        return Err(AsmFault {
            at: MAX_FILE_BYTES,
            cause: Cause::Large,
        });
    }
    match Image::read(bytes) {
        Ok(image) => Ok(image),
        Err(fault) => Err(AsmFault {
            at: fault.at(),
            cause: Cause::Pe(fault),
        }),
    }
}

/// Reads the tables of the metadata, which begins at an offset of the file.
#[tactic(auto, using(cc_base::proofs::TestLemmas::first_tests), unfolding(crate::specs::Faults::tables_tests, crate::specs::Faults::table_fault))]
fn read_tables(md: &[u8], offset: u32) -> Result<Metadata<'_>, AsmFault>
    requires { offset + length md.now ≤ MAX_FILE_BYTES }
    ensures { Judges result (first_of (tables_tests md.now offset))
        (λ found. (found.bytes ≡ md.now) × (found.offset ≡ offset)) }
{
    match Tables::read(md) {
        Ok(tables) => Ok(Metadata::new(tables, offset)),
        Err(fault) => Err(AsmFault {
            at: offset + fault.at(),
            cause: Cause::Table(fault),
        }),
    }
}

/// Reads the metadata, which begins at an offset of the file, and tests its types and methods.
#[tactic(auto, using(cc_base::proofs::TestLemmas::appended), unfolding(crate::specs::Faults::metadata_tests))]
fn read_metadata(md: &[u8], offset: u32) -> Result<Metadata<'_>, AsmFault>
    requires { offset + length md.now ≤ MAX_FILE_BYTES }
    ensures judged { Judges result (first_of (metadata_tests md.now offset))
        (λ found. (found.bytes ≡ md.now) × (found.offset ≡ offset)) }
    ensures rise { IfOk result (λ _. RunsRise md.now) }
{
    let metadata = read_tables(md, offset)?;
    test_types(&metadata)?;
    test_methods(&metadata)?;
    Ok(metadata)
}

impl<'a> AssemblyFile<'a> {
    /// Makes all tests of an assembly's file: of its headers and its metadata, and of the names and
    /// signatures of its types and methods. An error is the first fault in the order of reading.
    ///
    /// Cost: each type and each method is visited once.
    #[tactic(auto, using(cc_base::proofs::TestLemmas::appended), unfolding(crate::specs::Faults::FirstBroken, crate::specs::Faults::assembly_tests))]
    pub fn read(bytes: &'a [u8]) -> Result<AssemblyFile<'a>, AsmFault>
        ensures value { IfOk result (λ file. file ≡ bytes.now) }
        ensures accepted { IsOk result ↔ (FirstBroken bytes.now ≡ None) }
        ensures refused { IfErr result (λ fault. FirstBroken bytes.now ≡ Some fault) }
    {
        let image = read_image(bytes)?;
        let metadata = read_metadata(image.metadata(), image.metadata_at())?;
        Ok(AssemblyFile { image, metadata })
    }

    /// The PE file.
    pub fn image(&self) -> &Image<'a>
        ensures { result.now ≡ self.now }
    {
        &self.image
    }

    /// A walk over the methods, in the order of the table MethodDef.
    pub fn methods(&self, alloc: Global) -> MethodWalk<'_, 'a>
        ensures { result ≡ methods_of self.now }
    {
        MethodWalk::new(alloc, &self.metadata)
    }

    /// The metadata.
    pub(crate) fn metadata(&self) -> &Metadata<'a>
        ensures bytes { result.now.bytes ≡ metadata self.now }
        ensures accepted { FirstBroken self.now ≡ None }
        ensures rise { RunsRise result.now.bytes }
    {
        &self.metadata
    }
}
