//! The code that a unit takes.

ghost use Rattle.std.specs.Prelude.{◌≡◌, ◌<◌, true, IfOk, option_map, slice_get, Some};
ghost use Rattle.asm_image.specs.declared.method_row.MethodRow.{MethodRow};
ghost use Rattle.asm_image.specs.Bodies.{has_il_body};
ghost use Rattle.cc_base.specs.Tests.{first_of, JudgesOrNoMemory};
ghost use Rattle.method_code.specs.Reading.{AreContractsOf};
ghost use Rattle.unit_builder.specs.Bodies.{il_fault};
ghost use Rattle.unit_builder.specs.Making.{IsOwnCode};
ghost use Rattle.unit_builder.specs.Reasons.{code_tests, own_tests, unit_shape};
ghost use Rattle.asm_image.specs.Rows.{methods_of};
ghost use Rattle.unit_builder.specs.Scopes.{Scope};
ghost use Rattle.unit_builder.specs.Slots.{AreAllSlots, AreSlots, IsSlotOf, IsWhole};
ghost use Rattle.unit_builder.specs.Sources.{files_of, scope_at};
ghost use Rattle.unit_builder.specs.declared.reason.Reason.TheVariants as reasons;

use crate::code_checks::check_code;
use crate::reason::{Reason, UnitRefusal};
use crate::slots::Slot;
use crate::sources::Sources;
use asm_image::MethodRow;
use cc_base::Refusal;
use cil_model::{Instr, List, copy_clauses};
use contract_extract::Contracts;
use method_code::MethodCode;
use std::alloc::{AllocError, Global};
use std::mem;

/// The code of a unit, before what is known of its callees is asked.
#[derive(Drop)]
pub(crate) struct OwnCode {
    pub instrs: List<Instr>,
    /// The keys of the methods that the code calls, each once, in order of first use.
    pub callees: Vec<u64>,
    pub contracts: Contracts,
}

/// The code of a method, out of its slot.
fn take_code(
    alloc: Global,
    sources: &Sources<'_>,
    file: u32,
    method: &MethodRow,
    slot: &mut Slot,
) -> Result<MethodCode, UnitRefusal>
    requires file { file < (files_of sources.now).count }
    requires slot { IsSlotOf (scope_at sources.now file) method.now slot.old }
    requires body { has_il_body method.now ≡ true }
    ensures slot { IsSlotOf (scope_at sources.now file) method.now slot.new }
    ensures judged { JudgesOrNoMemory result (option_map reasons.Code (il_fault (scope_at sources.now file).asm method.now)) (IsWhole (scope_at sources.now file) method.now) }
{
    let taken = mem::replace(slot, Slot::Unread);
    match taken.into_found(alloc, sources, file, method)? {
        Ok(code) => Ok(code),
        Err(fault) => {
            *slot = Slot::Faulty(fault);
            Err(Refusal::Bad(Reason::Code(fault)))
        }
    }
}

/// Takes the instructions out of code. The rest of it stays in the slot.
fn take_instrs(alloc: Global, mut code: MethodCode, slot: &mut Slot) -> List<Instr>
    ensures instrs { result ≡ code.instrs }
    ensures slot { (scope : Scope) (method : MethodRow) → IsWhole scope method code → IsSlotOf scope method slot.new }
{
    let instrs = mem::replace(&mut code.instrs, List::from_vec(Vec::new(alloc)));
    *slot = Slot::Spent(code);
    instrs
}

/// A copy of contracts in memory of its own.
fn copy_contracts(alloc: Global, contracts: &Contracts) -> Result<Contracts, AllocError>
    ensures { IfOk result (λ copy. copy ≡ contracts.now) }
{
    Ok(Contracts {
        clauses: List::from_vec(copy_clauses(alloc, contracts.clauses.as_slice())?),
        body_start: contracts.body_start,
    })
}

/// Tests the code of a method, up to what depends on its callees, and answers a copy of its contracts.
#[tactic(auto, using(cc_base::proofs::TestLemmas::carried, crate::proofs::CodeFacts::code_lies, crate::proofs::CodeFacts::code_judged))]
fn own_contracts(
    alloc: Global,
    sources: &Sources<'_>,
    file: u32,
    method: &MethodRow,
    code: &MethodCode,
) -> Result<Contracts, UnitRefusal>
    requires whole { IsWhole (scope_at sources.now file) method.now code.now }
    ensures { JudgesOrNoMemory result (first_of (code_tests (scope_at sources.now file) (unit_shape (scope_at sources.now file) method.now) code.now.callees code.now.instrs)) (AreContractsOf method.now code.now.instrs) }
{
    let instrs = code.instrs.as_slice();
    let callees = code.callees.as_slice();
    let contracts = check_code(
        alloc,
        sources,
        file,
        method,
        instrs,
        callees,
        &code.contracts,
    )?;
    Ok(copy_contracts(alloc, contracts)?)
}

/// Tests the code of a method, up to what depends on its callees, and takes its instructions.
#[tactic(auto, using(cc_base::proofs::TestLemmas::carried, cc_base::proofs::TestLemmas::first_tests, crate::proofs::CodeFacts::own_fault), unfolding(crate::specs::Reasons::own_tests))]
fn own_code(
    alloc: Global,
    sources: &Sources<'_>,
    file: u32,
    method: &MethodRow,
    slot: &mut Slot,
) -> Result<OwnCode, UnitRefusal>
    requires file { file < (files_of sources.now).count }
    requires slot { IsSlotOf (scope_at sources.now file) method.now slot.old }
    requires body { has_il_body method.now ≡ true }
    ensures slot { IsSlotOf (scope_at sources.now file) method.now slot.new }
    ensures judged { JudgesOrNoMemory result (first_of (own_tests (scope_at sources.now file) method.now)) (IsOwnCode (scope_at sources.now file) method.now) }
{
    let code = take_code(alloc, sources, file, method, slot)?;
    let callees = Vec::from_slice(alloc, code.callees.as_slice())?;
    let contracts = own_contracts(alloc, sources, file, method, &code);
    let instrs = take_instrs(alloc, code, slot);
    Ok(OwnCode {
        contracts: contracts?,
        callees,
        instrs,
    })
}

/// The same of the method of an index, by the slots of its file.
#[tactic(auto, using(crate::proofs::SlotLists::slot_set, crate::proofs::SlotLists::slot_there, crate::proofs::SlotLists::slot_within))]
fn own_code_at(
    alloc: Global,
    sources: &Sources<'_>,
    file: u32,
    method: &MethodRow,
    slots: &mut [Slot],
    index: usize,
) -> Result<OwnCode, UnitRefusal>
    requires file { file < (files_of sources.now).count }
    requires slots { AreSlots (scope_at sources.now file) slots.old }
    requires there { slice_get (methods_of (scope_at sources.now file).asm) index ≡ Some method.now }
    requires body { has_il_body method.now ≡ true }
    ensures slots { AreSlots (scope_at sources.now file) slots.new }
    ensures judged { JudgesOrNoMemory result (first_of (own_tests (scope_at sources.now file) method.now)) (IsOwnCode (scope_at sources.now file) method.now) }
{
    own_code(alloc, sources, file, method, &mut slots[index])
}

/// The same by the slots of all files.
#[tactic(auto, using(crate::proofs::SlotLists::file_set, crate::proofs::SlotLists::file_there, crate::proofs::SlotLists::file_within))]
pub(crate) fn own_code_in(
    alloc: Global,
    sources: &Sources<'_>,
    file: u32,
    method: &MethodRow,
    slots: &mut [Vec<Slot>],
    index: usize,
) -> Result<OwnCode, UnitRefusal>
    requires file { file < (files_of sources.now).count }
    requires slots { AreAllSlots (files_of sources.now) slots.old }
    requires there { slice_get (methods_of (scope_at sources.now file).asm) index ≡ Some method.now }
    requires body { has_il_body method.now ≡ true }
    ensures slots { AreAllSlots (files_of sources.now) slots.new }
    ensures judged { JudgesOrNoMemory result (first_of (own_tests (scope_at sources.now file) method.now)) (IsOwnCode (scope_at sources.now file) method.now) }
{
    own_code_at(
        alloc,
        sources,
        file,
        method,
        &mut slots[file as usize],
        index,
    )
}
