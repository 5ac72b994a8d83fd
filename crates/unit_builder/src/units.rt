//! The units of files, made on demand.

ghost use Rattle.std.specs.Prelude.{◌≡◌, ◌<◌, ◌≤◌, length, replicate, slice_get, Some, Err, IfOk};
ghost use Rattle.std.specs.List.{AllByRecursion};
ghost use Rattle.asm_image.specs.Rows.{methods_of};
ghost use Rattle.asm_image.specs.declared.method_row.MethodRow.{MethodRow};
ghost use Rattle.cc_base.specs.Tests.{first_of, Judges, JudgesOrNoMemory};
ghost use Rattle.cil_model.specs.declared.unit.Unit.{Unit as MethodUnit};
ghost use Rattle.unit_builder.specs.Bodies.{callee_tokens};
ghost use Rattle.il_decoder.specs.Body.{header_at};
ghost use Rattle.method_code.specs.OfMethods.{args_of};
ghost use Rattle.unit_builder.specs.Making.{AreVariablesOf, HasParts, IsMade};
ghost use Rattle.method_unit.specs.Units.{IsUnit};
ghost use Rattle.unit_builder.specs.Outcomes.{IfAnalysed, entries_of, entry_of, outcome_in, outcome_of};
ghost use Rattle.unit_builder.specs.Reasons.{header_tests, reason_tests};
ghost use Rattle.unit_builder.specs.Rows.{IsRowOf};
ghost use Rattle.unit_builder.specs.Scopes.{Scope};
ghost use Rattle.unit_builder.specs.Slots.{AreAllSlots};
ghost use Rattle.unit_builder.specs.Sources.{files_of, scope_at};
ghost use Rattle.unit_builder.specs.declared.slots.Slot.TheVariants.{Unread};
ghost use Rattle.unit_builder.specs.declared.entry.Outcome.TheVariants.{Analysed};

use crate::calls::{callees_of, tokens_of};
use crate::entry::{MethodEntry, Outcome};
use crate::header::{Variables, read_variables};
use crate::making::make_unit;
use crate::own_code::own_code_in;
use crate::reason::{Reason, UnitRefusal};
use crate::row::check_row;
use crate::slots::Slot;
use crate::sources::Sources;
use asm_image::{Assembly, MethodRow};
use cc_base::{NoMemory, Refusal, Token};
use cil_model::List;
use stack_typer::TypedUnit;
use std::alloc::{AllocError, Global};
use std::marker::Model;

/// The units of an assembly. Contracts see the assembly's file.
///
/// The code of a method is read when it is first asked for, be it for its own unit or for a caller's, and not again as
/// long as each unit is asked for once.
#[derive(Drop)]
pub struct Units<'a> {
    assembly: &'a Assembly<'a>,
    /// Those of the one file: for each method, in the order of the table MethodDef.
    slots: Vec<Vec<Slot>>,
}

impl<'a> Model for Units<'a> {
    ghost use Rattle.std.specs.Prelude.{List, ℕ};

    ghost Value = { List ℕ };

    ghost view = { λ units. units.assembly.now };

    ghost use Rattle.unit_builder.specs.Scopes.{alone};
    ghost use Rattle.unit_builder.specs.Slots.{AreAllSlots};

    ghost invariant = { λ units. AreAllSlots (alone units.assembly.now) units.slots.items };
}

/// Tests the header of a method of a file with so many arguments, and then the method's name.
fn variables_in(
    sources: &Sources<'_>,
    file: u32,
    method: &MethodRow,
    args: usize,
) -> Result<Variables, Reason>
    requires file { file < (files_of sources.now).count }
    requires row { IsRowOf (scope_at sources.now file).asm method.now }
    requires args { args ≡ length (args_of method.now.sig.types) }
    requires few { args ≤ 256 }
    ensures judged { Judges result (first_of (header_tests (scope_at sources.now file).asm method.now (header_at (scope_at sources.now file).asm method.now.rva)))
        (AreVariablesOf (scope_at sources.now file).asm method.now) }
{
    read_variables(sources.assembly(file), method, args)
}

/// Returns the unit of the method of an index, made of its parts, or the first reason why it has none.
#[tactic(auto, using(cc_base::proofs::TestLemmas::carried, cc_base::proofs::TestLemmas::appended, crate::proofs::RowFacts::indexed_row, crate::proofs::TestParts::row_body, crate::proofs::TestParts::own_short), unfolding(crate::specs::Reasons::reason_tests))]
fn parts_at(
    alloc: Global,
    sources: &Sources<'_>,
    file: u32,
    slots: &mut [Vec<Slot>],
    index: usize,
    method: &MethodRow,
) -> Result<TypedUnit, UnitRefusal>
    requires file { file < (files_of sources.now).count }
    requires slots { AreAllSlots (files_of sources.now) slots.old }
    requires there { slice_get (methods_of (scope_at sources.now file).asm) index ≡ Some method.now }
    ensures slots { AreAllSlots (files_of sources.now) slots.new }
    ensures judged { JudgesOrNoMemory result (first_of (reason_tests (scope_at sources.now file) method.now)) (HasParts (scope_at sources.now file) method.now) }
{
    let signature = check_row(method)?;
    let variables = variables_in(sources, file, method, signature.args.len())?;
    let own = own_code_in(alloc, sources, file, method, slots, index)?;
    make_unit(
        alloc, sources, file, slots, method, signature, &variables, own,
    )
}

/// The same, as the rest of the project takes units.
fn unit_at(
    alloc: Global,
    sources: &Sources<'_>,
    file: u32,
    slots: &mut [Vec<Slot>],
    index: usize,
    method: &MethodRow,
) -> Result<TypedUnit, UnitRefusal>
    requires file { file < (files_of sources.now).count }
    requires slots { AreAllSlots (files_of sources.now) slots.old }
    requires there { slice_get (methods_of (scope_at sources.now file).asm) index ≡ Some method.now }
    ensures slots { AreAllSlots (files_of sources.now) slots.new }
    ensures judged { JudgesOrNoMemory result (first_of (reason_tests (scope_at sources.now file) method.now)) (IsMade (scope_at sources.now file) method.now) }
{
    parts_at(alloc, sources, file, slots, index, method)
}

/// Returns what comes of a method that has no unit.
fn skipped(refusal: UnitRefusal) -> Result<Outcome, NoMemory>
    ensures value { (scope : Scope) (method : MethodRow) → JudgesOrNoMemory (Err refusal) (first_of (reason_tests scope method)) (IsMade scope method)
        → IfOk result (λ outcome. outcome ≡ outcome_in scope method) }
    ensures unit { IfOk result (λ outcome. IfAnalysed outcome IsUnit) }
{
    match refusal {
        Refusal::Bad(reason) => Ok(Outcome::Skipped(reason)),
        Refusal::NoMemory => Err(AllocError),
    }
}

/// Returns what comes of a method that has a unit or not.
fn outcome_of(unit: Result<TypedUnit, UnitRefusal>) -> Result<Outcome, NoMemory>
    ensures value { (scope : Scope) (method : MethodRow) → JudgesOrNoMemory unit (first_of (reason_tests scope method)) (IsMade scope method)
        → IfOk result (λ outcome. outcome ≡ outcome_in scope method) }
    ensures unit { (scope : Scope) (method : MethodRow) → JudgesOrNoMemory unit (first_of (reason_tests scope method)) (IsMade scope method)
        → IfOk result (λ outcome. IfAnalysed outcome IsUnit) }
{
    match unit {
        Ok(unit) => Ok(Outcome::Analysed(unit)),
        Err(refusal) => skipped(refusal),
    }
}

/// Returns what comes of the method of an index in a file.
pub(crate) fn outcome_at(
    alloc: Global,
    sources: &Sources<'_>,
    file: u32,
    slots: &mut [Vec<Slot>],
    index: usize,
    method: &MethodRow,
) -> Result<Outcome, NoMemory>
    requires file { file < (files_of sources.now).count }
    requires slots { AreAllSlots (files_of sources.now) slots.old }
    requires there { slice_get (methods_of (scope_at sources.now file).asm) index ≡ Some method.now }
    ensures slots { AreAllSlots (files_of sources.now) slots.new }
    ensures value { IfOk result (λ outcome. outcome ≡ outcome_in (scope_at sources.now file) method.now) }
    ensures unit { IfOk result (λ outcome. IfAnalysed outcome IsUnit) }
{
    outcome_of(unit_at(alloc, sources, file, slots, index, method))
}

/// A slot for each method of a file. Nothing is read yet.
pub(crate) fn fresh_slots(alloc: Global, assembly: &Assembly<'_>) -> Result<Vec<Slot>, NoMemory>
    ensures { IfOk result (λ slots. slots.items ≡ replicate (length (methods_of assembly.now)) Unread) }
{
    let mut slots = Vec::new(alloc);
    for _method in assembly.methods() {
        slots.push(Slot::Unread)?;
    }
    Ok(slots)
}

impl<'a> Units<'a> {
    /// The units of an assembly. Nothing is read yet.
    pub fn of(alloc: Global, assembly: &'a Assembly<'a>) -> Result<Units<'a>, NoMemory>
        ensures { IfOk result (λ units. units ≡ assembly.now) }
    {
        let mut slots = Vec::new(alloc);
        slots.push(fresh_slots(alloc, assembly)?)?;
        Ok(Units { assembly, slots })
    }

    /// The assembly.
    pub fn assembly(&self) -> &'a Assembly<'a>
        ensures { result.now ≡ self.now }
    {
        self.assembly
    }

    /// Returns what comes of the method of an index, counted from 0: its unit, or the first reason why it is not
    /// analysed.
    ///
    /// Cost: what its code and the code of its callees take to be read, where nobody asked for them before; and besides
    /// the passes that find kinds. The unit takes the instructions with it: who asks for the same unit again pays for
    /// the code again.
    #[tactic(auto, unfolding(crate::specs::Outcomes::outcome_of))]
    pub fn outcome(&mut self, alloc: Global, index: usize) -> Result<Outcome, NoMemory>
        requires there { index < length (methods_of self.old) }
        ensures same { self.new ≡ self.old }
        ensures value { (method : MethodRow) → slice_get (methods_of self.old) index ≡ Some method → IfOk result (λ outcome. outcome ≡ outcome_of self.old method) }
        ensures unit { IfOk result (λ outcome. IfAnalysed outcome IsUnit) }
    {
        let method = &self.assembly.methods()[index];
        outcome_at(
            alloc,
            &Sources::One(self.assembly),
            0,
            &mut self.slots,
            index,
            method,
        )
    }

    /// The methods that are called in the body of the analysed method of an index, each once, in order of first use.
    pub(crate) fn callees(&mut self, alloc: Global, index: usize) -> Result<Vec<Token>, NoMemory>
        requires there { index < length (methods_of self.old) }
        ensures same { self.new ≡ self.old }
        ensures value { (method : MethodRow) (unit : MethodUnit) → slice_get (methods_of self.old) index ≡ Some method
            → outcome_of self.old method ≡ Analysed unit → IfOk result (λ tokens. tokens.items ≡ callee_tokens self.old method) }
    {
        let method = &self.assembly.methods()[index];
        let keys = callees_of(
            alloc,
            &Sources::One(self.assembly),
            0,
            method,
            &mut self.slots,
            index,
        )?;
        tokens_of(alloc, &keys)
    }
}

/// The entry of a method.
fn entry_at(
    alloc: Global,
    units: &mut Units<'_>,
    index: usize,
    method: &MethodRow,
) -> Result<MethodEntry, NoMemory>
    requires there { slice_get (methods_of units.old) index ≡ Some method.now }
    ensures same { units.new ≡ units.old }
    ensures value { IfOk result (λ entry. entry ≡ entry_of units.old method.now) }
    ensures unit { IfOk result (λ entry. IfAnalysed entry.outcome IsUnit) }
{
    Ok(MethodEntry {
        token: method.token,
        name: List::from_vec(Vec::from_slice(alloc, method.name.as_slice())?),
        outcome: units.outcome(alloc, index)?,
    })
}

/// An entry for each method of an assembly, in the order of the table MethodDef.
///
/// Cost: the code of each method is read once, however many callers it has.
pub fn build_units(alloc: Global, assembly: &Assembly<'_>) -> Result<Vec<MethodEntry>, NoMemory>
    // One entry for each row: its printed name, and its unit or the first reason that holds.
    ensures entries { IfOk result (λ entries. entries.items ≡ entries_of assembly.now) }
    // Each unit is well formed, and its body can be run.
    ensures units { IfOk result (λ entries. AllByRecursion (λ entry. IfAnalysed entry.outcome IsUnit) entries.items) }
{
    let mut units = Units::of(alloc, assembly)?;
    let mut entries = Vec::new(alloc);
    for index in 0..assembly.methods().len() {
        entries.push(entry_at(alloc, &mut units, index, &assembly.methods()[index])?)?;
    }
    Ok(entries)
}
