//! The names in the heap `#Strings` (ECMA-335 II.24.2.3).

ghost use Rattle.std.specs.Prelude.{◌≡◌, ◌++◌, ◌<◌, ◌^◌, length, map, flat_map, slice_get, Some, OnOk, IfOk};
ghost use Rattle.asm_writer.specs.Linked.{linked};
ghost use Rattle.asm_writer.specs.Names.{cited_names, name_index, method_name_index, part_index, extern_name_index, name_text, zero_ended, name_item, method_name_item, extern_name_items, own_name_items, own_name_index, strings_heap};
ghost use Rattle.asm_writer.specs.Packing.{pushed, pushed_all};

use crate::packed::Packed;
use crate::plan::{AsmPlan, Extern, MethodPlan};
use std::alloc::{AllocError, Global};

/// A name that a row cites, but those of the methods.
#[derive(Clone, Copy)]
pub enum Name {
    /// The empty name.
    Empty,
    Object,
    System,
    Int32,
    Boolean,
    Contract,
    /// The namespace of `Contract`.
    Contracts,
    /// `<Module>`, the class of what belongs to no class.
    Global,
    Requires,
    Ensures,
    Assert,
    Assume,
    EndContractBlock,
    Result,
    OldValue,
    Mscorlib,
    /// The name of the class that is written.
    Class,
    /// Its namespace.
    Namespace,
    /// The name of the file.
    File,
}

/// Which of the names of an extern.
#[derive(Clone, Copy)]
pub enum ExternPart {
    Assembly,
    Namespace,
    Class,
    Name,
}

impl ExternPart {
    /// Which of the names of an extern it is, in the order of the heap.
    fn index(self) -> usize
        ensures is { result ≡ part_index self }
        ensures bound { result < 4 }
    {
        self as usize
    }
}

/// The names, in the order of the heap.
const NAMES: [Name; 19] = [
    Name::Empty,
    Name::Object,
    Name::System,
    Name::Int32,
    Name::Boolean,
    Name::Contract,
    Name::Contracts,
    Name::Global,
    Name::Requires,
    Name::Ensures,
    Name::Assert,
    Name::Assume,
    Name::EndContractBlock,
    Name::Result,
    Name::OldValue,
    Name::Mscorlib,
    Name::Class,
    Name::Namespace,
    Name::File,
];

impl Name {
    /// Which of the names of the heap it is.
    pub fn index(self) -> usize
        ensures is { result ≡ name_index self }
        ensures cited { slice_get cited_names result ≡ Some self }
        ensures bound { result < 19 }
    {
        self as usize
    }
}

/// The index of the name of the method of this index.
pub fn method_name_index(method: u32) -> usize
    ensures { result ≡ method_name_index method }
{
    NAMES.len() + method as usize
}

/// The index of a name of the extern of this index, after so many methods.
pub fn extern_name_index(methods: u32, index: u32, part: ExternPart) -> usize
    ensures { result ≡ extern_name_index methods index part }
{
    NAMES.len() + methods as usize + 4 * index as usize + part.index()
}

/// The index of the name of the assembly. It is that of the class, where the two are the same.
#[tactic(auto, unfolding(crate::specs::Names::own_name_index))]
pub fn own_name_index(plan: &AsmPlan, assembly: &[u8], externs: &[Extern]) -> usize
    requires methods { length plan.now.methods.items < 2 ^ 24 }
    requires externs { length externs.now < 2 ^ 24 }
    ensures { result ≡ own_name_index (linked plan.now assembly.now externs.now) }
{
    if assembly == plan.class.as_slice() {
        Name::Class.index()
    } else {
        let methods = plan.methods.len() as u32;
        extern_name_index(methods, externs.len() as u32, ExternPart::Assembly)
    }
}

/// Appends the text of a name.
#[tactic(auto, unfolding(crate::specs::Names::name_text))]
fn append_text(out: &mut Vec<u8>, plan: &AsmPlan, name: Name) -> Result<(), AllocError>
    ensures { OnOk result (out.new.items ≡ out.old.items ++ name_text plan.now name) }
{
    match name {
        Name::Empty => Ok(()),
        Name::Object => out.extend_from_slice(b"Object"),
        Name::System => out.extend_from_slice(b"System"),
        Name::Int32 => out.extend_from_slice(b"Int32"),
        Name::Boolean => out.extend_from_slice(b"Boolean"),
        Name::Contract => out.extend_from_slice(b"Contract"),
        Name::Contracts => out.extend_from_slice(b"System.Diagnostics.Contracts"),
        Name::Global => out.extend_from_slice(b"<Module>"),
        Name::Requires => out.extend_from_slice(b"Requires"),
        Name::Ensures => out.extend_from_slice(b"Ensures"),
        Name::Assert => out.extend_from_slice(b"Assert"),
        Name::Assume => out.extend_from_slice(b"Assume"),
        Name::EndContractBlock => out.extend_from_slice(b"EndContractBlock"),
        Name::Result => out.extend_from_slice(b"Result"),
        Name::OldValue => out.extend_from_slice(b"OldValue"),
        Name::Mscorlib => out.extend_from_slice(b"mscorlib"),
        Name::Class => out.extend_from_slice(&plan.class),
        Name::Namespace => out.extend_from_slice(&plan.namespace),
        Name::File => {
            out.extend_from_slice(&plan.class)?;
            out.extend_from_slice(b".dll")
        }
    }
}

/// Appends a name and its zero.
#[tactic(auto, unfolding(crate::specs::Names::zero_ended))]
fn push_name(heap: &mut Packed, plan: &AsmPlan, name: Name) -> Result<(), AllocError>
    ensures { OnOk result (heap.new ≡ pushed heap.old (name_item plan.now name)) }
{
    heap.begin()?;
    append_text(&mut heap.bytes, plan, name)?;
    heap.bytes.push(0)?;
    Ok(())
}

/// Appends names, each with its zero.
#[tactic(auto, unfolding(crate::specs::Packing::pushed_all))]
fn push_names(heap: &mut Packed, plan: &AsmPlan, names: &[Name]) -> Result<(), AllocError>
    ensures { OnOk result (heap.new ≡ pushed_all heap.old (map (name_item plan.now) names.now)) }
{
    for name in names {
        push_name(heap, plan, *name)?;
    }
    Ok(())
}

/// Appends a text and its zero.
#[tactic(auto, unfolding(crate::specs::Names::zero_ended))]
fn push_text(heap: &mut Packed, text: &[u8]) -> Result<(), AllocError>
    ensures { OnOk result (heap.new ≡ pushed heap.old (zero_ended text.now)) }
{
    heap.begin()?;
    heap.bytes.extend_from_slice(text)?;
    heap.bytes.push(0)?;
    Ok(())
}

/// Appends the name of a method and its zero.
fn push_method_name(heap: &mut Packed, method: &MethodPlan) -> Result<(), AllocError>
    ensures { OnOk result (heap.new ≡ pushed heap.old (method_name_item method.now)) }
{
    push_text(heap, &method.name)
}

/// Appends the names of the methods, each with its zero.
#[tactic(auto, unfolding(crate::specs::Packing::pushed_all))]
fn push_method_names(heap: &mut Packed, plan: &AsmPlan) -> Result<(), AllocError>
    ensures { OnOk result
        (heap.new ≡ pushed_all heap.old (map method_name_item plan.now.methods.items)) }
{
    for method in &plan.methods {
        push_method_name(heap, method)?;
    }
    Ok(())
}

/// Appends the names of an extern, each with its zero.
#[tactic(auto, unfolding(crate::specs::Packing::pushed_all))]
fn push_extern(heap: &mut Packed, method: &Extern) -> Result<(), AllocError>
    ensures { OnOk result (heap.new ≡ pushed_all heap.old (extern_name_items method.now)) }
{
    push_text(heap, &method.assembly)?;
    push_text(heap, &method.namespace)?;
    push_text(heap, &method.class)?;
    push_text(heap, &method.name)
}

/// Appends the names of externs, each with its zero.
#[tactic(auto, unfolding(crate::specs::Packing::pushed_all))]
fn push_externs(heap: &mut Packed, externs: &[Extern]) -> Result<(), AllocError>
    ensures { OnOk result
        (heap.new ≡ pushed_all heap.old (flat_map extern_name_items externs.now)) }
{
    for method in externs {
        push_extern(heap, method)?;
    }
    Ok(())
}

/// Appends the name of the assembly and its zero, where it is not that of the class.
#[tactic(auto, unfolding(crate::specs::Packing::pushed_all, crate::specs::Names::own_name_items))]
fn push_own_name(heap: &mut Packed, plan: &AsmPlan, assembly: &[u8]) -> Result<(), AllocError>
    ensures { OnOk result
        (heap.new ≡ pushed_all heap.old (own_name_items plan.now assembly.now)) }
{
    if assembly == plan.class.as_slice() {
        return Ok(());
    }
    push_text(heap, assembly)
}

/// The heap `#Strings`.
pub fn strings_heap(
    alloc: Global,
    plan: &AsmPlan,
    assembly: &[u8],
    externs: &[Extern],
) -> Result<Packed, AllocError>
    ensures { IfOk result
        (λ heap. heap ≡ strings_heap (linked plan.now assembly.now externs.now)) }
{
    let mut heap = Packed::new(alloc);
    push_names(&mut heap, plan, &NAMES)?;
    push_method_names(&mut heap, plan)?;
    push_externs(&mut heap, externs)?;
    push_own_name(&mut heap, plan, assembly)?;
    heap.fill()?;
    Ok(heap)
}
