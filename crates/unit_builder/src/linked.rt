//! The units of several files that are linked.

ghost use Rattle.std.specs.Prelude.{◌≡◌, ◌<◌, IfOk};
ghost use Rattle.std.specs.List.{AllByRecursion};
ghost use Rattle.method_unit.specs.Units.{IsUnit};
ghost use Rattle.unit_builder.specs.Linked.{linked, linked_entries};
ghost use Rattle.unit_builder.specs.Outcomes.{IfAnalysed, entries_in, entry_in};
ghost use Rattle.unit_builder.specs.Slots.{AreAllSlots};
ghost use Rattle.unit_builder.specs.Sources.{files_of, scope_at};
ghost use Rattle.asm_image.specs.Rows.{methods_of};
ghost use Rattle.std.specs.Prelude.{slice_get, Some};

use crate::entry::MethodEntry;
use crate::slots::Slot;
use crate::sources::Sources;
use crate::units::{fresh_slots, outcome_at};
use asm_image::MethodRow;
use asm_links::Links;
use cc_base::NoMemory;
use cil_model::List;
use std::alloc::{AllocError, Global};

/// The entries of the methods of one file, in the order of the table MethodDef. Contracts see the list.
pub type FileEntries = List<MethodEntry>;

/// Slots for the methods of all files. Nothing is read yet.
#[tactic(auto, using(crate::proofs::SlotFacts::none_fresh, crate::proofs::SlotFacts::one_fresh, crate::proofs::SlotFacts::all_fresh))]
pub(crate) fn all_fresh(alloc: Global, links: &Links<'_>) -> Result<Vec<Vec<Slot>>, NoMemory>
    ensures { IfOk result (λ slots. AreAllSlots (linked links.now) slots.items) }
{
    let mut slots = Vec::new(alloc);
    for assembly in links.assemblies() {
        slots.push(fresh_slots(alloc, assembly)?)?;
    }
    Ok(slots)
}

/// The entry of a method of a file.
fn entry_at(
    alloc: Global,
    sources: &Sources<'_>,
    file: u32,
    slots: &mut [Vec<Slot>],
    index: usize,
    method: &MethodRow,
) -> Result<MethodEntry, NoMemory>
    requires file { file < (files_of sources.now).count }
    requires slots { AreAllSlots (files_of sources.now) slots.old }
    requires there { slice_get (methods_of (scope_at sources.now file).asm) index ≡ Some method.now }
    ensures slots { AreAllSlots (files_of sources.now) slots.new }
    ensures value { IfOk result (λ entry. entry ≡ entry_in (scope_at sources.now file) method.now) }
    ensures unit { IfOk result (λ entry. IfAnalysed entry.outcome IsUnit) }
{
    Ok(MethodEntry {
        token: method.token,
        name: List::from_vec(Vec::from_slice(alloc, method.name.as_slice())?),
        outcome: outcome_at(alloc, sources, file, slots, index, method)?,
    })
}

/// The methods of a file.
fn methods_in<'a>(sources: &Sources<'a>, file: u32) -> &'a [MethodRow]
    requires file { file < (files_of sources.now).count }
    ensures { result.now ≡ methods_of (scope_at sources.now file).asm }
{
    sources.assembly(file).methods()
}

/// The entries of a file.
fn file_entries(
    alloc: Global,
    sources: &Sources<'_>,
    file: u32,
    slots: &mut [Vec<Slot>],
) -> Result<FileEntries, NoMemory>
    requires file { file < (files_of sources.now).count }
    requires slots { AreAllSlots (files_of sources.now) slots.old }
    ensures slots { AreAllSlots (files_of sources.now) slots.new }
    ensures entries { IfOk result (λ entries. entries ≡ entries_in (files_of sources.now) file) }
    ensures units { IfOk result (AllByRecursion (λ entry. IfAnalysed entry.outcome IsUnit)) }
{
    let methods = methods_in(sources, file);
    let mut entries = Vec::new(alloc);
    for index in 0..methods.len() {
        entries.push(entry_at(alloc, sources, file, slots, index, &methods[index])?)?;
    }
    Ok(List::from_vec(entries))
}

/// The entries of all files.
#[tactic(auto, using(crate::proofs::Outcomes::linked_more))]
fn all_entries(
    alloc: Global,
    links: &Links<'_>,
    slots: &mut [Vec<Slot>],
) -> Result<Vec<FileEntries>, NoMemory>
    requires slots { AreAllSlots (linked links.now) slots.old }
    ensures entries { IfOk result (λ files. files.items ≡ linked_entries links.now) }
    ensures units { IfOk result (λ files. AllByRecursion (AllByRecursion (λ entry. IfAnalysed entry.outcome IsUnit)) files.items) }
{
    let sources = Sources::Linked(links);
    let mut files = Vec::new(alloc);
    for index in 0..links.assemblies().len() {
        let Ok(file) = u32::try_from(index) else {
            return Err(AllocError);
        };
        files.push(file_entries(alloc, &sources, file, slots)?)?;
    }
    Ok(files)
}

/// For each of linked files an entry for each of its methods: its unit, or the first reason why it is not analysed. A
/// call of another file's method counts as one of the file's own. What callers know of a method is read in its own
/// file.
///
/// Cost: the code of each method is read once, however many callers it has.
pub fn build_linked(alloc: Global, links: &Links<'_>) -> Result<Vec<FileEntries>, NoMemory>
    // One entry for each row of each file: its printed name, and its unit or the first reason that holds.
    ensures entries { IfOk result (λ files. files.items ≡ linked_entries links.now) }
    // Each unit is well formed, and its body can be run.
    ensures units { IfOk result (λ files. AllByRecursion (AllByRecursion (λ entry. IfAnalysed entry.outcome IsUnit)) files.items) }
{
    let mut slots = all_fresh(alloc, links)?;
    all_entries(alloc, links, &mut slots)
}
