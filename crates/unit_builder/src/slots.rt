//! The code of the methods, read once.

ghost use Rattle.std.specs.Prelude.{◌≡◌, ◌<◌, None, true, IfOk, OnOk};
ghost use Rattle.asm_image.specs.Bodies.{has_il_body};
ghost use Rattle.asm_image.specs.declared.method_row.MethodRow.{MethodRow};
ghost use Rattle.cc_base.specs.Tests.{Judges};
ghost use Rattle.unit_builder.specs.Bodies.{callee_keys, clauses_of, il_fault};
ghost use Rattle.unit_builder.specs.Scopes.{Scope};
ghost use Rattle.unit_builder.specs.Slots.{IsSlotOf, IsSpent, IsWhole, TellsClauses};
ghost use Rattle.unit_builder.specs.Sources.{files_of, scope_at, scope_with};

use crate::meaning::FileTokens;
use crate::sources::Sources;
use asm_image::{Assembly, MethodRow};
use cc_base::{NoMemory, Refusal};
use cil_model::{Clause, Instr, List};
use il_decoder::{IlFault, body_at};
use method_code::{MethodCode, read_code};
use std::alloc::{AllocError, Global};
use std::mem;

/// What is kept of the code of a method.
#[derive(Drop)]
pub(crate) enum Slot {
    /// It was not asked for yet.
    Unread,
    /// The code does not read.
    Faulty(IlFault),
    /// All of it.
    Whole(MethodCode),
    /// All but the instructions, which went into a unit.
    Spent(MethodCode),
}

/// The code of a method, or what is wrong with it.
pub(crate) type Found = Result<MethodCode, IlFault>;

/// Reads the code of a method of a file that is this assembly.
#[tactic(auto, using(crate::proofs::SlotFacts::body_faulty, crate::proofs::SlotFacts::code_faulty, crate::proofs::SlotFacts::code_whole))]
fn find_in(
    alloc: Global,
    sources: &Sources<'_>,
    file: u32,
    assembly: &Assembly<'_>,
    method: &MethodRow,
) -> Result<Found, NoMemory>
    requires body { has_il_body method.now ≡ true }
    ensures { IfOk result (λ found. Judges found (il_fault assembly.now method.now) (IsWhole (scope_with sources.now file assembly.now) method.now)) }
{
    let body = match body_at(assembly.image(), method.rva) {
        Ok(body) => body,
        Err(fault) => return Ok(Err(fault)),
    };
    match read_code(alloc, &FileTokens { sources, file }, method, body.code) {
        Ok(code) => Ok(Ok(code)),
        Err(Refusal::Bad(fault)) => Ok(Err(fault)),
        Err(Refusal::NoMemory) => Err(AllocError),
    }
}

/// Reads the code of a method.
fn find_code(
    alloc: Global,
    sources: &Sources<'_>,
    file: u32,
    method: &MethodRow,
) -> Result<Found, NoMemory>
    requires file { file < (files_of sources.now).count }
    requires body { has_il_body method.now ≡ true }
    ensures { IfOk result (λ found. Judges found (il_fault (scope_at sources.now file).asm method.now) (IsWhole (scope_at sources.now file) method.now)) }
{
    find_in(alloc, sources, file, sources.assembly(file), method)
}

impl Slot {
    /// Returns what is kept of code that was found.
    fn of(found: Found) -> Slot
        ensures { (scope : Scope) (method : MethodRow) → Judges found (il_fault scope.asm method) (IsWhole scope method) → TellsClauses scope method result }
    {
        match found {
            Ok(code) => Slot::Whole(code),
            Err(fault) => Slot::Faulty(fault),
        }
    }

    /// Reads the code, where it was not read before.
    pub(crate) fn read(
        &mut self,
        alloc: Global,
        sources: &Sources<'_>,
        file: u32,
        method: &MethodRow,
    ) -> Result<(), NoMemory>
        requires file { file < (files_of sources.now).count }
        requires slot { IsSlotOf (scope_at sources.now file) method.now self.old }
        requires body { has_il_body method.now ≡ true }
        ensures slot { IsSlotOf (scope_at sources.now file) method.now self.new }
        ensures told { OnOk result (TellsClauses (scope_at sources.now file) method.now self.new) }
    {
        if matches!(self, Slot::Unread) {
            *self = Slot::of(find_code(alloc, sources, file, method)?);
        }
        Ok(())
    }

    /// Returns what callers know of the method by its code: its clauses.
    pub(crate) fn clauses(&self) -> &[Clause]
        ensures { (scope : Scope) (method : MethodRow) → TellsClauses scope method self.now → result.now ≡ clauses_of scope method }
    {
        match self {
            Slot::Whole(code) | Slot::Spent(code) => code.clauses(),
            Slot::Unread | Slot::Faulty(_) => &[],
        }
    }

    /// The keys of the methods that the code calls, each once, in order of first use. None where the code does not
    /// read.
    #[tactic(auto, using(crate::proofs::CallFacts::whole_callees, crate::proofs::CallFacts::spent_callees))]
    pub(crate) fn callees(&self) -> &[u64]
        ensures { (scope : Scope) (method : MethodRow) → TellsClauses scope method self.now → il_fault scope.asm method ≡ None → result.now ≡ callee_keys scope method }
    {
        match self {
            Slot::Whole(code) => code.callees.as_slice(),
            Slot::Spent(code) => code.callees.as_slice(),
            Slot::Unread | Slot::Faulty(_) => &[],
        }
    }

    /// All of the code, also where its instructions went into a unit before: then it is read anew.
    pub(crate) fn into_found(
        self,
        alloc: Global,
        sources: &Sources<'_>,
        file: u32,
        method: &MethodRow,
    ) -> Result<Found, NoMemory>
        requires file { file < (files_of sources.now).count }
        requires slot { IsSlotOf (scope_at sources.now file) method.now self }
        requires body { has_il_body method.now ≡ true }
        ensures { IfOk result (λ found. Judges found (il_fault (scope_at sources.now file).asm method.now) (IsWhole (scope_at sources.now file) method.now)) }
    {
        match self {
            Slot::Whole(code) => Ok(Ok(code)),
            Slot::Faulty(fault) => Ok(Err(fault)),
            Slot::Unread | Slot::Spent(_) => find_code(alloc, sources, file, method),
        }
    }
}
