//! The tests of methods (II.22.26).

#![tactic(auto, using(metadata_tables::proofs::ColumnLemmas::known_columns, cc_base::proofs::TestLemmas::first_tests))]

ghost use Rattle.std.specs.Prelude.{◌≡◌, ◌+◌, ◌≤◌, ⊤, length};
ghost use Rattle.cc_base.specs.Tests.{first_of, Judges};
ghost use Rattle.cil_model.specs.Limits.{MAX_FILE_BYTES};
ghost use Rattle.metadata_tables.specs.Numbers.{method_def};
ghost use Rattle.signature_blobs.specs.Signatures.{method_signature};
ghost use Rattle.asm_image.specs.Cells.{HasRow};
ghost use Rattle.asm_image.specs.Faults.{signature_fault, signature_tests, method_tests, methods_tests};

use crate::fault::{AsmFault, Cause};
use crate::metadata::Metadata;
use metadata_tables::column::{METHOD_DEF_NAME, METHOD_DEF_SIGNATURE};
use metadata_tables::table::METHOD_DEF;
use signature_blobs::method_sig;

/// Tests the signature that a blob says, which begins at an offset of the file.
fn test_blob(blob: &[u8], start: u32) -> Result<(), AsmFault>
    requires { start + length blob.now ≤ MAX_FILE_BYTES }
    ensures { Judges result (signature_fault start (method_signature blob.now)) (λ _. ⊤) }
{
    match method_sig(blob) {
        Ok(_) => Ok(()),
        Err(fault) => Err(AsmFault {
            at: start + fault.at(),
            cause: Cause::Sig(fault),
        }),
    }
}

/// Tests the signature of a method.
#[tactic(auto, using(metadata_tables::proofs::ColumnLemmas::known_columns, cc_base::proofs::TestLemmas::first_tests, crate::proofs::BlobLemmas::blob_end), unfolding(crate::specs::Faults::signature_tests))]
fn test_signature(metadata: &Metadata<'_>, row: u32) -> Result<(), AsmFault>
    requires { HasRow metadata.now.bytes method_def row }
    ensures { Judges result (first_of (signature_tests metadata.now.bytes metadata.now.offset row)) (λ _. ⊤) }
{
    let tables = metadata.tables();
    let index = metadata.cell(METHOD_DEF, row, METHOD_DEF_SIGNATURE);
    let Some(blob) = tables.blob_at(index) else {
        return Err(metadata.heap_end(METHOD_DEF, row, METHOD_DEF_SIGNATURE));
    };
    let at = tables.blob_offset(index).unwrap_or(0);
    test_blob(blob, metadata.offset() + at)
}

/// Tests a method.
#[tactic(auto, using(metadata_tables::proofs::ColumnLemmas::known_columns, cc_base::proofs::TestLemmas::first_tests), unfolding(crate::specs::Faults::method_tests))]
fn test_method(metadata: &Metadata<'_>, row: u32) -> Result<(), AsmFault>
    requires { HasRow metadata.now.bytes method_def row }
    ensures { Judges result (first_of (method_tests metadata.now.bytes metadata.now.offset row)) (λ _. ⊤) }
{
    metadata.test_text(METHOD_DEF, row, METHOD_DEF_NAME)?;
    test_signature(metadata, row)
}

/// Tests all methods.
pub fn test_methods(metadata: &Metadata<'_>) -> Result<(), AsmFault>
    ensures { Judges result (first_of (methods_tests metadata.now.bytes metadata.now.offset)) (λ _. ⊤) }
{
    for i in 0..metadata.row_count(METHOD_DEF) {
        test_method(metadata, i + 1)?;
    }
    Ok(())
}
