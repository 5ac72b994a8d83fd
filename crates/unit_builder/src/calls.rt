//! The methods that a method calls.

ghost use Rattle.std.specs.Prelude.{◌≡◌, ◌<◌, map, slice_get, Contains, IfOk, Some};
ghost use Rattle.asm_image.specs.Rows.{methods_of};
ghost use Rattle.asm_image.specs.declared.method_row.MethodRow.{MethodRow};
ghost use Rattle.cil_model.specs.declared.unit.Unit.{Unit as MethodUnit};
ghost use Rattle.unit_builder.specs.Bodies.{callee_keys};
ghost use Rattle.unit_builder.specs.Meanings.{as_token};
ghost use Rattle.unit_builder.specs.Outcomes.{entry_of, outcome_in};
ghost use Rattle.unit_builder.specs.Scopes.{token_in};
ghost use Rattle.unit_builder.specs.Slots.{AreAllSlots, AreSlots, IsSlotOf};
ghost use Rattle.unit_builder.specs.Sources.{files_of, scope_at};
ghost use Rattle.unit_builder.specs.Walks.{body_calls, numbers};
ghost use Rattle.unit_builder.specs.declared.entry.Outcome.TheVariants.{Analysed};

use crate::entry::{MethodEntry, Outcome};
use crate::met::FIRST_METHOD;
use crate::slots::Slot;
use crate::sources::{Sources, token_in};
use asm_image::{Assembly, MethodRow};
use cc_base::{NoMemory, Token};
use std::alloc::Global;

/// The tokens of methods by their keys.
pub(crate) fn tokens_of(alloc: Global, keys: &[u64]) -> Result<Vec<Token>, NoMemory>
    ensures { IfOk result (λ tokens. tokens.items ≡ map (λ key. as_token (token_in key)) keys.now) }
{
    let mut tokens = Vec::new(alloc);
    for key in keys {
        tokens.push(token_in(*key))?;
    }
    Ok(tokens)
}

/// The keys of the methods that the code of a method calls. The code is read where it was not read before.
fn callees_in(
    alloc: Global,
    sources: &Sources<'_>,
    file: u32,
    method: &MethodRow,
    slot: &mut Slot,
) -> Result<Vec<u64>, NoMemory>
    requires file { file < (files_of sources.now).count }
    requires slot { IsSlotOf (scope_at sources.now file) method.now slot.old }
    ensures slot { IsSlotOf (scope_at sources.now file) method.now slot.new }
    ensures value { (unit : MethodUnit) → outcome_in (scope_at sources.now file) method.now ≡ Analysed unit
        → IfOk result (λ keys. keys.items ≡ callee_keys (scope_at sources.now file) method.now) }
{
    if !method.has_il_body() {
        return Ok(Vec::new(alloc));
    }
    slot.read(alloc, sources, file, method)?;
    Vec::from_slice(alloc, slot.callees())
}

/// The same of the method of an index, by the slots of its file.
#[tactic(auto, using(crate::proofs::SlotLists::slot_set, crate::proofs::SlotLists::slot_there, crate::proofs::SlotLists::slot_within))]
fn callees_at(
    alloc: Global,
    sources: &Sources<'_>,
    file: u32,
    method: &MethodRow,
    slots: &mut [Slot],
    index: usize,
) -> Result<Vec<u64>, NoMemory>
    requires file { file < (files_of sources.now).count }
    requires slots { AreSlots (scope_at sources.now file) slots.old }
    requires there { slice_get (methods_of (scope_at sources.now file).asm) index ≡ Some method.now }
    ensures slots { AreSlots (scope_at sources.now file) slots.new }
    ensures value { (unit : MethodUnit) → outcome_in (scope_at sources.now file) method.now ≡ Analysed unit
        → IfOk result (λ keys. keys.items ≡ callee_keys (scope_at sources.now file) method.now) }
{
    callees_in(alloc, sources, file, method, &mut slots[index])
}

/// The same by the slots of all files.
#[tactic(auto, using(crate::proofs::SlotLists::file_set, crate::proofs::SlotLists::file_there, crate::proofs::SlotLists::file_within))]
pub(crate) fn callees_of(
    alloc: Global,
    sources: &Sources<'_>,
    file: u32,
    method: &MethodRow,
    slots: &mut [Vec<Slot>],
    index: usize,
) -> Result<Vec<u64>, NoMemory>
    requires file { file < (files_of sources.now).count }
    requires slots { AreAllSlots (files_of sources.now) slots.old }
    requires there { slice_get (methods_of (scope_at sources.now file).asm) index ≡ Some method.now }
    ensures slots { AreAllSlots (files_of sources.now) slots.new }
    ensures value { (unit : MethodUnit) → outcome_in (scope_at sources.now file) method.now ≡ Analysed unit
        → IfOk result (λ keys. keys.items ≡ callee_keys (scope_at sources.now file) method.now) }
{
    callees_at(
        alloc,
        sources,
        file,
        method,
        &mut slots[file as usize],
        index,
    )
}

/// The methods that are called in the body of the method of an entry, each once, in order of first use; none where the
/// method is not analysed. The entry is one that `build_units` made of the same assembly.
///
/// Cost: what the method's code takes to be read.
pub fn callee_tokens(
    alloc: Global,
    assembly: &Assembly<'_>,
    entry: &MethodEntry,
) -> Result<Vec<Token>, NoMemory>
    ensures { (method : MethodRow) → Contains (methods_of assembly.now) method → entry.now ≡ entry_of assembly.now method
        → IfOk result (λ tokens. numbers tokens.items ≡ body_calls assembly.now method) }
{
    let Outcome::Analysed(_) = &entry.outcome else {
        return Ok(Vec::new(alloc));
    };
    let index = entry.token.0.saturating_sub(FIRST_METHOD);
    let Some(method) = assembly.methods().get(index as usize) else {
        return Ok(Vec::new(alloc));
    };
    let keys = callees_in(alloc, &Sources::One(assembly), 0, method, &mut Slot::Unread)?;
    tokens_of(alloc, &keys)
}
