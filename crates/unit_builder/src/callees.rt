//! What a unit knows of the methods that it calls.

ghost use Rattle.std.specs.Prelude.{◌≡◌, ◌<◌, ℕ, List, true, slice_get, Some, IfOk};
ghost use Rattle.std.specs.List.{list_all};
ghost use Rattle.asm_image.specs.Rows.{methods_of};
ghost use Rattle.cil_model.specs.WellFormed.{IsCallee};
ghost use Rattle.unit_builder.specs.Bodies.{clauses_of};
ghost use Rattle.unit_builder.specs.Callees.{info_with, no_info};
ghost use Rattle.unit_builder.specs.Making.{AreCallees, AreKnownOf};
ghost use Rattle.unit_builder.specs.Reasons.{has_short_name};
ghost use Rattle.unit_builder.specs.Rows.{IsRowOf};
ghost use Rattle.unit_builder.specs.Scopes.{info_in};
ghost use Rattle.unit_builder.specs.Slots.{AreAllSlots, AreSlots, IsSlotOf};
ghost use Rattle.unit_builder.specs.Sources.{files_of, scope_at};

use crate::names::unit_name;
use crate::slots::Slot;
use crate::sources::{Sources, file_of, token_in};
use asm_image::MethodRow;
use cc_base::NoMemory;
use cil_model::{CalleeInfo, Clause, List, Place, copy_clauses};
use signature_blobs::SigTypes;
use std::alloc::Global;

/// Returns what callers know of a method by its code, which is read where it was not read before.
#[tactic(auto, using(crate::proofs::ClauseFacts::known_of, crate::proofs::ClauseFacts::none_known, crate::proofs::SlotFacts::bodiless_clauses))]
fn clauses_known(
    alloc: Global,
    sources: &Sources<'_>,
    file: u32,
    method: &MethodRow,
    slot: &mut Slot,
) -> Result<Vec<Clause>, NoMemory>
    requires file { file < (files_of sources.now).count }
    requires slot { IsSlotOf (scope_at sources.now file) method.now slot.old }
    ensures slot { IsSlotOf (scope_at sources.now file) method.now slot.new }
    ensures value { IfOk result (λ clauses. clauses.items ≡ clauses_of (scope_at sources.now file) method.now) }
    ensures known { IfOk result (λ clauses. AreKnownOf method.now clauses.items) }
{
    if !method.has_il_body() {
        return Ok(Vec::new(alloc));
    }
    slot.read(alloc, sources, file, method)?;
    copy_clauses(alloc, slot.clauses())
}

/// The same of the method of an index, by the slots of its file.
#[tactic(auto, using(crate::proofs::SlotLists::slot_set, crate::proofs::SlotLists::slot_there, crate::proofs::SlotLists::slot_within))]
fn clauses_at(
    alloc: Global,
    sources: &Sources<'_>,
    file: u32,
    method: &MethodRow,
    slots: &mut [Slot],
    index: usize,
) -> Result<Vec<Clause>, NoMemory>
    requires file { file < (files_of sources.now).count }
    requires slots { AreSlots (scope_at sources.now file) slots.old }
    requires there { slice_get (methods_of (scope_at sources.now file).asm) index ≡ Some method.now }
    ensures slots { AreSlots (scope_at sources.now file) slots.new }
    ensures value { IfOk result (λ clauses. clauses.items ≡ clauses_of (scope_at sources.now file) method.now) }
    ensures known { IfOk result (λ clauses. AreKnownOf method.now clauses.items) }
{
    clauses_known(alloc, sources, file, method, &mut slots[index])
}

/// The same by the slots of all files.
#[tactic(auto, using(crate::proofs::SlotLists::file_set, crate::proofs::SlotLists::file_there, crate::proofs::SlotLists::file_within))]
fn clauses_in(
    alloc: Global,
    sources: &Sources<'_>,
    file: u32,
    method: &MethodRow,
    slots: &mut [Vec<Slot>],
    index: usize,
) -> Result<Vec<Clause>, NoMemory>
    requires file { file < (files_of sources.now).count }
    requires slots { AreAllSlots (files_of sources.now) slots.old }
    requires there { slice_get (methods_of (scope_at sources.now file).asm) index ≡ Some method.now }
    ensures slots { AreAllSlots (files_of sources.now) slots.new }
    ensures value { IfOk result (λ clauses. clauses.items ≡ clauses_of (scope_at sources.now file) method.now) }
    ensures known { IfOk result (λ clauses. AreKnownOf method.now clauses.items) }
{
    clauses_at(
        alloc,
        sources,
        file,
        method,
        &mut slots[file as usize],
        index,
    )
}

/// Returns what callers know of a method with these clauses.
fn info_with(
    alloc: Global,
    method: &MethodRow,
    clauses: Vec<Clause>,
) -> Result<CalleeInfo, NoMemory>
    requires row { (asm : List ℕ) × IsRowOf asm method.now }
    ensures { IfOk result (λ info. info ≡ info_with method.now clauses.items) }
{
    let (result, args) = match &method.sig.types {
        SigTypes::Known(signature) => (signature.result, signature.args.to_vec(alloc)?),
        SigTypes::Other => (Place::Void, Vec::new(alloc)),
    };
    Ok(CalleeInfo {
        name: List::from_vec(Vec::from_slice(alloc, unit_name(method))?),
        result,
        args: List::from_vec(args),
        clauses: List::from_vec(clauses),
    })
}

/// Returns what is known where there is no such method.
fn no_info(alloc: Global) -> CalleeInfo
    ensures { result ≡ no_info }
{
    CalleeInfo {
        name: List::from_vec(Vec::new(alloc)),
        result: Place::Void,
        args: List::from_vec(Vec::new(alloc)),
        clauses: List::from_vec(Vec::new(alloc)),
    }
}

/// Returns what callers know of the method of a key.
#[tactic(auto, using(crate::proofs::KeyFacts::key_there, crate::proofs::KeyFacts::key_some, crate::proofs::KeyFacts::file_there, crate::proofs::KeyFacts::key_row, crate::proofs::CalleeFacts::no_callee, crate::proofs::CalleeFacts::no_callee_fits, crate::proofs::CalleeFacts::callee_told, crate::proofs::CalleeFacts::callee_fits))]
fn callee_info(
    alloc: Global,
    sources: &Sources<'_>,
    slots: &mut [Vec<Slot>],
    key: u64,
) -> Result<CalleeInfo, NoMemory>
    requires slots { AreAllSlots (files_of sources.now) slots.old }
    ensures slots { AreAllSlots (files_of sources.now) slots.new }
    ensures value { IfOk result (λ info. info ≡ info_in (files_of sources.now) key) }
    ensures callee { IfOk result (λ info. has_short_name (info_in (files_of sources.now)) key ≡ true → IsCallee info) }
{
    let Some(method) = sources.method(key) else {
        return Ok(no_info(alloc));
    };
    let index = token_in(key).row() as usize - 1;
    let clauses = clauses_in(alloc, sources, file_of(key), method, slots, index)?;
    let info = info_with(alloc, method, clauses)?;
    Ok(info)
}

/// Returns what callers know of the methods of keys, in order.
#[tactic(auto, using(crate::proofs::CalleeFacts::short_at, crate::proofs::CalleeFacts::one_more, crate::proofs::CalleeFacts::all_callees))]
pub(crate) fn callee_infos(
    alloc: Global,
    sources: &Sources<'_>,
    slots: &mut [Vec<Slot>],
    keys: &[u64],
) -> Result<Vec<CalleeInfo>, NoMemory>
    requires slots { AreAllSlots (files_of sources.now) slots.old }
    requires short { list_all (has_short_name (info_in (files_of sources.now))) keys.now ≡ true }
    ensures slots { AreAllSlots (files_of sources.now) slots.new }
    ensures value { IfOk result (λ infos. AreCallees (info_in (files_of sources.now)) keys.now infos.items) }
{
    let mut infos = Vec::new(alloc);
    for key in keys {
        infos.push(callee_info(alloc, sources, slots, *key)?)?;
    }
    Ok(infos)
}
