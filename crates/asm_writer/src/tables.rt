//! The stream `#~` (ECMA-335 II.24.2.6).

ghost use Rattle.std.specs.Prelude.{◌≡◌, ◌++◌, ◌<◌, ◌≤◌, ◌^◌, length, flat_map, sum_by, OnOk, IfOk};
ghost use Rattle.asm_writer.specs.Each.{each_from};
ghost use Rattle.asm_writer.specs.Layout.{rows_bytes};
ghost use Rattle.asm_writer.specs.Rows.{rows_of_method, rows_of_extern, extern_rows};
ghost use Rattle.asm_writer.specs.Stream.{heap_sizes, valid_bit, valid, count_bytes, table_bytes, tables_stream};

use crate::field::Field;
use crate::layout::Layout;
use crate::number::Number::{Eight, Four, Two, Zeros};
use crate::number::append_numbers;
use crate::padding::pad;
use crate::plan::MethodPlan;
use crate::rows::{
    ASSEMBLIES, ASSEMBLY_REFS, MEMBER_REFS, METHOD_SPECS, MODULES, TYPE_DEFS, TYPE_REFS,
    extern_assembly_row, extern_member_row, extern_type_row, locals_row, method_row,
};
use crate::table::{TABLES, Table};
use std::alloc::{AllocError, Global};

/// Appends rows.
#[tactic(auto, unfolding(crate::specs::Layout::rows_bytes))]
fn append_rows<const N: usize>(
    out: &mut Vec<u8>,
    layout: &Layout,
    rows: &[[Field; N]],
) -> Result<(), AllocError>
    ensures { OnOk result (out.new.items ≡ out.old.items ++ rows_bytes layout.now rows.now) }
{
    for row in rows {
        layout.append_fields(out, row)?;
    }
    Ok(())
}

/// Appends the rows that a table has for the method of this index.
#[tactic(auto, unfolding(crate::specs::Layout::rows_bytes))]
fn append_rows_of_method(
    out: &mut Vec<u8>,
    layout: &Layout,
    table: Table,
    index: u32,
    method: &MethodPlan,
) -> Result<(), AllocError>
    ensures { OnOk result
        (out.new.items ≡
        out.old.items ++ rows_bytes layout.now (rows_of_method table index method.now)) }
{
    match table {
        Table::MethodDef => append_rows(out, layout, &[method_row(index, method)]),
        Table::StandAloneSig if !method.locals.is_empty() => {
            append_rows(out, layout, &[locals_row(index)])
        }
        _ => Ok(()),
    }
}

/// Appends the rows that a table has for the methods.
#[tactic(auto, using(crate::proofs::RowLemmas::rows_none))]
fn append_rows_of_methods(
    out: &mut Vec<u8>,
    layout: &Layout,
    table: Table,
    methods: &[MethodPlan],
) -> Result<(), AllocError>
    requires { length methods.now < 2 ^ 24 }
    ensures { OnOk result (out.new.items ≡
        out.old.items ++ rows_bytes layout.now (each_from 0 (rows_of_method table) methods.now)) }
{
    for (index, method) in methods.iter().enumerate() {
        append_rows_of_method(out, layout, table, index as u32, method)?;
    }
    Ok(())
}

/// Appends the rows that a table has for the extern of this index.
#[tactic(auto, unfolding(crate::specs::Layout::rows_bytes))]
fn append_rows_of_extern(
    out: &mut Vec<u8>,
    layout: &Layout,
    table: Table,
    index: u32,
) -> Result<(), AllocError>
    requires { index < 2 ^ 24 }
    ensures { OnOk result
        (out.new.items ≡ out.old.items ++ rows_bytes layout.now (rows_of_extern table index)) }
{
    match table {
        Table::AssemblyRef => append_rows(out, layout, &[extern_assembly_row(index)]),
        Table::TypeRef => append_rows(out, layout, &[extern_type_row(index)]),
        Table::MemberRef => append_rows(out, layout, &[extern_member_row(index)]),
        _ => Ok(()),
    }
}

/// Appends the rows that a table has for the externs.
fn append_rows_of_externs(
    out: &mut Vec<u8>,
    layout: &Layout,
    table: Table,
) -> Result<(), AllocError>
    requires { layout.now.externs < 2 ^ 24 }
    ensures { OnOk result (out.new.items ≡
        out.old.items ++ rows_bytes layout.now (extern_rows table layout.now.externs)) }
{
    for index in 0..layout.externs() {
        append_rows_of_extern(out, layout, table, index)?;
    }
    Ok(())
}

/// Appends rows, and those that their table has for the externs.
#[tactic(auto, using(crate::proofs::RowLemmas::rows_both))]
fn append_rows_with_externs<const N: usize>(
    out: &mut Vec<u8>,
    layout: &Layout,
    rows: &[[Field; N]],
    table: Table,
) -> Result<(), AllocError>
    requires { layout.now.externs < 2 ^ 24 }
    ensures { OnOk result (out.new.items ≡
        out.old.items ++ rows_bytes layout.now (rows.now ++ extern_rows table layout.now.externs)) }
{
    append_rows(out, layout, rows)?;
    append_rows_of_externs(out, layout, table)
}

/// Appends the rows of a table.
#[tactic(auto, unfolding(crate::specs::Layout::rows_bytes))]
fn append_table(
    out: &mut Vec<u8>,
    layout: &Layout,
    methods: &[MethodPlan],
    table: Table,
) -> Result<(), AllocError>
    requires few { length methods.now < 2 ^ 24 }
    requires few_externs { layout.now.externs < 2 ^ 24 }
    ensures { OnOk result
        (out.new.items ≡ out.old.items ++ table_bytes layout.now methods.now table) }
{
    match table {
        Table::Module => append_rows(out, layout, &MODULES),
        Table::TypeRef => append_rows_with_externs(out, layout, &TYPE_REFS, table),
        Table::TypeDef => append_rows(out, layout, &TYPE_DEFS),
        Table::MemberRef => append_rows_with_externs(out, layout, &MEMBER_REFS, table),
        Table::Assembly => append_rows(out, layout, &ASSEMBLIES),
        Table::AssemblyRef => append_rows_with_externs(out, layout, &ASSEMBLY_REFS, table),
        Table::MethodSpec => append_rows(out, layout, &METHOD_SPECS),
        Table::MethodDef | Table::StandAloneSig => {
            append_rows_of_methods(out, layout, table, methods)
        }
        Table::Field | Table::Param | Table::ModuleRef | Table::TypeSpec => Ok(()),
    }
}

/// Appends the rows of tables.
fn append_tables(
    out: &mut Vec<u8>,
    layout: &Layout,
    methods: &[MethodPlan],
    tables: &[Table],
) -> Result<(), AllocError>
    requires few { length methods.now < 2 ^ 24 }
    requires few_externs { layout.now.externs < 2 ^ 24 }
    ensures { OnOk result
        (out.new.items ≡
        out.old.items ++ flat_map (table_bytes layout.now methods.now) tables.now) }
{
    for table in tables {
        append_table(out, layout, methods, *table)?;
    }
    Ok(())
}

/// The field HeapSizes.
fn heap_sizes(layout: &Layout) -> u64
    ensures { result ≡ heap_sizes layout.now }
{
    let strings = if layout.strings.is_wide() { 1 } else { 0 };
    let blobs = if layout.blobs.is_wide() { 4 } else { 0 };
    strings + blobs
}

/// The bit of a table in the field Valid.
fn valid_bit(layout: &Layout, table: Table) -> u64
    ensures is { result ≡ valid_bit layout.now table }
    ensures bound { result ≤ 2 ^ 43 }
{
    if layout.row_count(table) == 0 {
        0
    } else {
        1 << table.number()
    }
}

/// The bits of tables in the field Valid.
fn valid(layout: &Layout, tables: &[Table]) -> u64
    requires { length tables.now ≤ 13 }
    ensures { result ≡ sum_by (valid_bit layout.now) tables.now }
{
    let mut bits = 0;
    for table in tables {
        bits += valid_bit(layout, *table);
    }
    bits
}

/// Appends the row count of a table that has rows.
#[tactic(auto, unfolding(crate::specs::Numbers::numbers_bytes))]
fn append_count(out: &mut Vec<u8>, layout: &Layout, table: Table) -> Result<(), AllocError>
    ensures { OnOk result (out.new.items ≡ out.old.items ++ count_bytes layout.now table) }
{
    let count = layout.row_count(table);
    if count == 0 {
        return Ok(());
    }
    append_numbers(out, &[Four(count as u64)])
}

/// Appends the row counts of the tables that have rows.
fn append_counts(out: &mut Vec<u8>, layout: &Layout, tables: &[Table]) -> Result<(), AllocError>
    ensures { OnOk result
        (out.new.items ≡ out.old.items ++ flat_map (count_bytes layout.now) tables.now) }
{
    for table in tables {
        append_count(out, layout, *table)?;
    }
    Ok(())
}

/// The stream.
#[tactic(auto, unfolding(crate::specs::Stream::tables_stream))]
pub fn tables_stream(
    alloc: Global,
    layout: &Layout,
    methods: &[MethodPlan],
) -> Result<Vec<u8>, AllocError>
    requires few { length methods.now < 2 ^ 24 }
    requires few_externs { layout.now.externs < 2 ^ 24 }
    ensures { IfOk result (λ stream. stream.items ≡ tables_stream layout.now methods.now) }
{
    let mut out = Vec::new(alloc);
    append_numbers(
        &mut out,
        &[
            Zeros(6),
            Two(heap_sizes(layout)),
            Eight(valid(layout, &TABLES)),
            Zeros(8),
        ],
    )?;
    append_counts(&mut out, layout, &TABLES)?;
    append_tables(&mut out, layout, methods, &TABLES)?;
    pad(&mut out, 4)?;
    Ok(out)
}
