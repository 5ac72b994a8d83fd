//! The tests of types (II.22.37), and which type owns a method.

#![tactic(auto, using(metadata_tables::proofs::ColumnLemmas::known_columns, cc_base::proofs::TestLemmas::first_tests), unfolding(crate::specs::Faults::type_tests))]

ghost use Rattle.std.specs.Prelude.{◌≡◌, ◌≤◌, ⊤, OnOk};
ghost use Rattle.cc_base.specs.Tests.{first_of, Judges};
ghost use Rattle.metadata_tables.specs.Numbers.{type_def};
ghost use Rattle.asm_image.specs.Cells.{HasRow, type_count, method_list, owner, RunsRise, Begins};
ghost use Rattle.asm_image.specs.Faults.{least_list, list_test, type_tests, types_tests};

use crate::fault::AsmFault;
use crate::metadata::Metadata;
use metadata_tables::column::{TYPE_DEF_METHOD_LIST, TYPE_DEF_NAME, TYPE_DEF_NAMESPACE};
use metadata_tables::table::{METHOD_DEF, TYPE_DEF};

/// Where the run of methods of a type begins. The run of the type before begins at `least`.
fn method_list(metadata: &Metadata<'_>, row: u32, least: u32) -> Result<u32, AsmFault>
    requires row { HasRow metadata.now.bytes type_def row }
    requires least { least ≡ least_list metadata.now.bytes row }
    ensures { Judges result (list_test metadata.now.bytes metadata.now.offset row)
        (λ list. list ≡ method_list metadata.now.bytes row) }
{
    let list = metadata.cell(TYPE_DEF, row, TYPE_DEF_METHOD_LIST);
    if least <= list && list <= metadata.row_count(METHOD_DEF) + 1 {
        Ok(list)
    } else {
        Err(metadata.index_out(TYPE_DEF, row, TYPE_DEF_METHOD_LIST))
    }
}

/// Tests a type, and answers where its run of methods begins.
fn test_type(metadata: &Metadata<'_>, row: u32, least: u32) -> Result<u32, AsmFault>
    requires row { HasRow metadata.now.bytes type_def row }
    requires least { least ≡ least_list metadata.now.bytes row }
    ensures { Judges result (first_of (type_tests metadata.now.bytes metadata.now.offset row))
        (λ list. list ≡ method_list metadata.now.bytes row) }
{
    metadata.test_text(TYPE_DEF, row, TYPE_DEF_NAME)?;
    metadata.test_text(TYPE_DEF, row, TYPE_DEF_NAMESPACE)?;
    method_list(metadata, row, least)
}

/// Tests all types.
pub fn test_types(metadata: &Metadata<'_>) -> Result<(), AsmFault>
    ensures judged { Judges result (first_of (types_tests metadata.now.bytes metadata.now.offset)) (λ _. ⊤) }
    ensures rise { OnOk result (RunsRise metadata.now.bytes) }
{
    let mut least = 1;
    for i in 0..metadata.row_count(TYPE_DEF) {
        least = test_type(metadata, i + 1, least)?;
    }
    Ok(())
}

/// The type that owns a method, sought from one whose run begins at or before it. It answers 0 where the
/// method belongs to no type.
pub fn owner_of(metadata: &Metadata<'_>, from: u32, row: u32) -> u32
    requires rise { RunsRise metadata.now.bytes }
    requires type_there { from ≤ type_count metadata.now.bytes }
    requires begins { Begins metadata.now.bytes from row }
    ensures owner { result ≡ owner metadata.now.bytes row }
    ensures type_there { result ≤ type_count metadata.now.bytes }
    ensures begins { Begins metadata.now.bytes result row }
{
    let count = metadata.row_count(TYPE_DEF);
    let mut owner = from;
    while owner < count {
        if metadata.cell(TYPE_DEF, owner + 1, TYPE_DEF_METHOD_LIST) > row {
            return owner;
        }
        owner += 1;
    }
    owner
}

/// The type that owns a method, sought among all. It answers 0 where the method belongs to no type.
///
/// Cost: logarithmic in the number of types.
pub fn found_owner(metadata: &Metadata<'_>, row: u32) -> u32
    requires { RunsRise metadata.now.bytes }
    ensures owner { result ≡ owner metadata.now.bytes row }
    ensures type_there { result ≤ type_count metadata.now.bytes }
{
    let mut owner = 0;
    let mut last = metadata.row_count(TYPE_DEF);
    while owner < last {
        let middle = last - (last - owner) / 2;
        if metadata.cell(TYPE_DEF, middle, TYPE_DEF_METHOD_LIST) <= row {
            owner = middle;
        } else {
            last = middle - 1;
        }
    }
    owner
}
