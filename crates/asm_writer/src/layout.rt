//! What rows cite, and the numbers in their columns.

ghost use Rattle.std.specs.Prelude.{◌≡◌, ◌++◌, ◌+◌, ◌<◌, ◌≤◌, ◌^◌, length, nat_le, sum_by, All, OnOk, IfOk, IsTrue};
ghost use Rattle.std.specs.List.{list_any};
ghost use Rattle.asm_writer.specs.Bodies.{locals_rows};
ghost use Rattle.asm_writer.specs.Layout.{index, heap_index, row_count, is_wide_index, field_number, field_bytes, fields_bytes, layout_of};
ghost use Rattle.asm_writer.specs.Limits.{is_within, is_short_extern};
ghost use Rattle.asm_writer.specs.Linked.{linked};

use crate::blob::{blob_heap, extern_signature_index, locals_index, signature_index};
use crate::bodies::{bodies, locals_rows};
use crate::field::Field;
use crate::headers::BODIES_RVA;
use crate::name::{extern_name_index, method_name_index, own_name_index, strings_heap};
use crate::number::Number::{Four, Two};
use crate::number::{Number, append_number};
use crate::packed::Packed;
use crate::plan::{AsmPlan, Extern, MethodPlan};
use crate::rows::fixed_count;
use crate::table::Table;
use std::alloc::{AllocError, Global};

/// What rows cite: names, blobs, bodies and rows.
#[derive(Drop)]
pub struct Layout {
    /// The heap `#Strings`.
    pub strings: Packed,
    /// The heap `#Blob`.
    pub blobs: Packed,
    /// The bodies of the methods.
    pub bodies: Packed,
    /// The number of rows that MethodDef has.
    methods: u32,
    /// The number of rows that StandAloneSig has.
    locals: usize,
    /// The number of externs. TypeRef, MemberRef and AssemblyRef have a row for each.
    externs: u32,
    /// Which of the names is that of the assembly.
    own_name: usize,
}

/// A number of four bytes or of two.
fn index(is_wide: bool, n: u64) -> Number
    ensures { result ≡ index is_wide n }
{
    if is_wide { Four(n) } else { Two(n) }
}

/// The offset of an item in a heap.
fn heap_index(heap: &Packed, item: usize) -> Number
    ensures { result ≡ heap_index heap.now item }
{
    index(heap.is_wide(), heap.offset(item))
}

/// Returns how many rows StandAloneSig has.
fn locals_count(methods: &[MethodPlan]) -> usize
    ensures { result ≡ sum_by locals_rows methods.now }
{
    let mut count = 0;
    for method in methods {
        count += locals_rows(method) as usize;
    }
    count
}

impl Layout {
    /// Returns what the rows of the plan cite.
    #[tactic(auto, using(crate::proofs::RowLemmas::count_methods, crate::proofs::RowLemmas::count_locals))]
    pub fn new(
        alloc: Global,
        plan: &AsmPlan,
        assembly: &[u8],
        externs: &[Extern],
    ) -> Result<Layout, AllocError>
        requires within { All (λ m. IsTrue (is_within m)) plan.now.methods.items }
        requires short { All (λ e. IsTrue (is_short_extern e)) externs.now }
        requires few { length plan.now.methods.items < 2 ^ 24 }
        requires few_externs { length externs.now < 2 ^ 24 }
        ensures { IfOk result
            (λ layout. layout ≡ layout_of (linked plan.now assembly.now externs.now)) }
    {
        Ok(Layout {
            strings: strings_heap(alloc, plan, assembly, externs)?,
            blobs: blob_heap(alloc, &plan.methods, externs)?,
            bodies: bodies(alloc, &plan.methods)?,
            methods: plan.methods.len() as u32,
            locals: locals_count(&plan.methods),
            externs: externs.len() as u32,
            own_name: own_name_index(plan, assembly, externs),
        })
    }

    /// Returns how many externs there are.
    pub fn externs(&self) -> u32
        ensures { result ≡ self.now.externs }
    {
        self.externs
    }

    /// Returns how many rows a table has.
    pub fn row_count(&self, table: Table) -> usize
        ensures { result ≡ row_count self.now table }
    {
        match table {
            Table::MethodDef => self.methods as usize,
            Table::StandAloneSig => self.locals,
            Table::TypeRef | Table::MemberRef | Table::AssemblyRef => {
                fixed_count(table) + self.externs as usize
            }
            _ => fixed_count(table),
        }
    }

    /// Returns whether an index into these tables has four bytes, where this many of its bits are the tag
    /// (II.24.2.6).
    fn is_wide_index(&self, tables: &[Table], tag_bits: u8) -> bool
        requires { tag_bits ≤ 16 }
        ensures { result ≡ is_wide_index self.now tables.now tag_bits }
    {
        let limit = 1usize << (16 - tag_bits);
        tables.iter().any(|table| limit <= self.row_count(*table))
    }

    /// The number in a column.
    #[tactic(auto, unfolding(crate::specs::Numbers::numbers_width))]
    pub fn number(&self, field: Field) -> Number
        ensures { result ≡ field_number self.now field }
    {
        match field {
            Field::Plain(number) => number,
            Field::Strings(name) => heap_index(&self.strings, name.index()),
            Field::MethodName(method) => heap_index(&self.strings, method_name_index(method)),
            Field::OwnName => heap_index(&self.strings, self.own_name),
            Field::ExternName(index, part) => heap_index(
                &self.strings,
                extern_name_index(self.methods, index, part),
            ),
            Field::Guid(n) => Two(n),
            Field::Blobs(blob) => heap_index(&self.blobs, blob.index()),
            Field::MethodSignature(method) => heap_index(&self.blobs, signature_index(method)),
            Field::MethodLocals(method) => heap_index(&self.blobs, locals_index(method)),
            Field::ExternSignature(index) => heap_index(
                &self.blobs,
                extern_signature_index(self.methods, index),
            ),
            Field::MethodBody(method) => Four(BODIES_RVA + self.bodies.offset(method as usize)),
            Field::Row(table, row) => index(self.is_wide_index(&[table], 0), u64::from(row)),
            Field::Coded(kind, table, row) => index(
                self.is_wide_index(kind.tables(), kind.tag_bits()),
                kind.value(table, row),
            ),
        }
    }

    /// Appends a row.
    #[tactic(auto, unfolding(crate::specs::Layout::fields_bytes))]
    pub fn append_fields(&self, out: &mut Vec<u8>, fields: &[Field]) -> Result<(), AllocError>
        ensures { OnOk result (out.new.items ≡ out.old.items ++ fields_bytes self.now fields.now) }
    {
        for field in fields {
            append_number(out, self.number(*field))?;
        }
        Ok(())
    }
}
