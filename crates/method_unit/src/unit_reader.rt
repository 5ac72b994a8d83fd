//! Units, read from their files.

ghost use Rattle.std.specs.Prelude.{◌≡◌, ℕ, ◌+◌, ◌<◌, ◌≤◌, ◌^◌, length, List, IfOk};
ghost use Rattle.std.specs.List.{AllByRecursion};
ghost use Rattle.cc_base.specs.LittleEndian.{IsBytes};
ghost use Rattle.cc_base.specs.Tests.{first_of, GivesOnly, JudgesOrNoMemory};
ghost use Rattle.cil_model.specs.Bodies.{HasBody};
ghost use Rattle.cil_model.specs.FitKinds.{AreDecoded, NeverStuck};
ghost use Rattle.cil_model.specs.Passes.{KindsOf, Stacks};
ghost use Rattle.cil_model.specs.TreeKinds.{IsNumberClause};
ghost use Rattle.cil_model.specs.WellFormed.{ClausesWithinLimits};
ghost use Rattle.cil_model.specs.declared.unit.Unit.{Unit as MethodUnit};
ghost use Rattle.contract_extract.specs.Extracting.{AreContracts};
ghost use Rattle.unit_form.specs.FieldsRead.{fields_told, IsCodeWithin};
ghost use Rattle.unit_form.specs.Spelling.{IsSpelledBy, unit_bytes};
ghost use Rattle.unit_form.specs.UnitFields.{unit_fields};
ghost use Rattle.il_decoder.specs.Decoding.{instructions_of};
ghost use Rattle.method_unit.specs.UnitFile.{code_tests_of, field_test, first_unit_fault, instr_tests, unit_of};
ghost use Rattle.method_unit.specs.UnitOf.{IsRead, IsUnitIn, IsUnitOf};
ghost use Rattle.method_unit.specs.Units.{AreDecodedOf, IsUnit};

use crate::callee_order::check_order;
use crate::unit_clauses::{check_added, check_blocks, read_contracts, with_added};
use crate::unit_code::{check_count, check_numbers, decode_code};
use crate::unit_kinds::find_kinds;
use cil_model::{Clause, Instr, List, Shape, Unit};
use contract_extract::Contracts;
use stack_typer::{Kinds, TypedUnit};
use std::alloc::Global;
use unit_form::{UnitFields, UnitRefusal, read_fields};

/// The fields of a unit file.
#[tactic(auto, unfolding(crate::specs::UnitFile::field_test))]
fn fields_of(alloc: Global, bytes: &[u8]) -> Result<UnitFields<'_>, UnitRefusal>
    requires short { length bytes.now ≤ 2147483647 }
    ensures judged { JudgesOrNoMemory result (field_test bytes.now) (λ fields. fields_told fields ≡ (unit_fields bytes.now).value) }
    ensures code { IfOk result (IsCodeWithin bytes.now) }
    ensures added { IfOk result (λ fields. ClausesWithinLimits fields.added.items) }
{
    read_fields(alloc, bytes)
}

/// Tests the instructions of a unit to whose clauses these were added, and answers its other clauses and the start of
/// its body, and the kinds of its code.
#[tactic(auto, using(cc_base::proofs::TestLemmas::carried, cc_base::proofs::TestLemmas::appended, cc_base::proofs::TestLemmas::first_tests), unfolding(crate::specs::UnitFile::instr_tests))]
fn check_instrs(
    alloc: Global,
    instrs: &[Instr],
    shape: &Shape,
    offsets: &[u32],
    base: u32,
    added: &[Clause],
    added_offset: u32,
) -> Result<(Contracts, Kinds), UnitRefusal>
    requires small { base + 65536 < 2 ^ 32 }
    requires within { ClausesWithinLimits added.now }
    requires decoded { (code : List ℕ) × AreDecodedOf base code instrs.now }
    ensures judged { JudgesOrNoMemory result (first_of (instr_tests base shape.now offsets.now added.now added_offset instrs.now))
        (λ found. AreContracts instrs.now found.0.clauses found.0.body_start) }
    ensures kinds { IfOk result (λ found. KindsOf shape.now instrs.now found.1) }
    ensures limits { IfOk result (λ found. ClausesWithinLimits found.0.clauses) }
    ensures numbers { (stacks : Stacks) → AreDecoded instrs.now → KindsOf shape.now instrs.now stacks
        → IfOk result (λ found. AllByRecursion (IsNumberClause shape.now.args shape.now.result) found.0.clauses) }
    ensures body { (stacks : Stacks) → AreDecoded instrs.now → KindsOf shape.now instrs.now stacks
        → IfOk result (λ found. HasBody instrs.now stacks found.0.body_start) }
{
    check_count(instrs, base)?;
    check_numbers(instrs, base, shape.callees.as_slice().len())?;
    let contracts = read_contracts(alloc, instrs, shape, base)?;
    check_added(contracts.clauses.as_slice(), added, added_offset)?;
    check_blocks(alloc, instrs, contracts.body_start, base)?;
    check_order(instrs, offsets)?;
    let kinds = find_kinds(alloc, instrs, shape, base)?;
    Ok((contracts, kinds))
}

/// The unit of fields that were read.
#[tactic(auto, using(cc_base::proofs::TestLemmas::carried, cc_base::proofs::TestLemmas::appended, cc_base::proofs::TestLemmas::first_tests), unfolding(crate::specs::UnitFile::code_tests_of))]
fn unit_at(alloc: Global, fields: UnitFields<'_>) -> Result<TypedUnit, UnitRefusal>
    requires short { length fields.code.now ≤ 65536 }
    requires small { fields.code_offset + 65536 < 2 ^ 32 }
    requires added { ClausesWithinLimits fields.added.items }
    ensures judged { JudgesOrNoMemory result (first_of (code_tests_of (fields_told fields.entry)))
        (λ unit. IsUnitOf (fields_told fields.entry) (instructions_of fields.entry.code.now) unit) }
{
    let base = fields.code_offset;
    let instrs = decode_code(alloc, fields.code, base)?;
    let shape = Shape {
        result: fields.result,
        args: List::from_vec(fields.args),
        locals: List::from_vec(fields.locals),
        max_stack: fields.max_stack,
        callees: List::from_vec(fields.callees),
    };
    let offsets = fields.callee_offsets;
    let added = fields.added;
    let at = fields.added_offset;
    let tested = check_instrs(alloc, &instrs, &shape, &offsets, base, &added, at)?;
    let (contracts, kinds) = tested;
    let unit = Unit {
        name: List::from_vec(Vec::from_slice(alloc, fields.name)?),
        result: shape.result,
        args: shape.args,
        locals: shape.locals,
        max_stack: fields.max_stack,
        callees: shape.callees,
        code: List::from_vec(Vec::from_slice(alloc, fields.code)?),
        clauses: with_added(contracts.clauses, added)?,
        body_start: contracts.body_start,
        instrs: List::from_vec(instrs),
    };
    Ok(TypedUnit::of(unit, kinds))
}

/// The unit of a file, or the first fault of the file.
#[tactic(auto, using(cc_base::proofs::TestLemmas::first_tests), unfolding(crate::specs::UnitFile::first_unit_fault))]
fn read_first(alloc: Global, bytes: &[u8]) -> Result<TypedUnit, UnitRefusal>
    requires short { length bytes.now ≤ 2147483647 }
    ensures { JudgesOrNoMemory result (first_unit_fault bytes.now) (IsUnitIn bytes.now) }
{
    let fields = fields_of(alloc, bytes)?;
    unit_at(alloc, fields)
}

/// The same, as what the bytes spell.
fn read_known(alloc: Global, bytes: &[u8]) -> Result<TypedUnit, UnitRefusal>
    requires short { length bytes.now ≤ 2147483647 }
    ensures { JudgesOrNoMemory result (first_unit_fault bytes.now) (IsRead bytes.now) }
{
    read_first(alloc, bytes)
}

/// The unit that the bytes of a file spell in one of the forms, with the kinds of its code, or the first fault of
/// the file.
///
/// Cost: linear in the length of the file, but for the passes that find kinds, the sorting of the blocks and the walk
/// over the contract block, all over 4,096 instructions at most.
#[tactic(auto)]
pub fn read_unit(alloc: Global, bytes: &[u8]) -> Result<TypedUnit, UnitRefusal>
    requires short { length bytes.now ≤ 2147483647 }
    // What is read is the one unit that the bytes spell, in one of the forms.
    ensures unit { IfOk result IsUnit }
    ensures spelled { IfOk result (λ unit. IsSpelledBy unit bytes.now) }
    // A unit that is spelled so is read, unless memory runs out.
    ensures only { (unit : MethodUnit) → IsUnit unit → IsSpelledBy unit bytes.now → GivesOnly result (λ found. found ≡ unit) }
    // What `unit_bytes` writes spells the unit, so it is read back. It is a list of bytes, and that of no other unit.
    ensures written { (unit : MethodUnit) → IsUnit unit → IsSpelledBy unit (unit_bytes unit) }
    ensures bytes { (unit : MethodUnit) → IsUnit unit → IsBytes (unit_bytes unit) }
    ensures one { (a b : MethodUnit) → IsUnit a → IsUnit b → unit_bytes a ≡ unit_bytes b → a ≡ b }
    // It is read where no test of the list fails; a fault is that of the first test that does.
    ensures judged { JudgesOrNoMemory result (first_unit_fault bytes.now) (λ unit. unit ≡ unit_of bytes.now) }
    // No run of it ever comes where nothing is defined.
    ensures runs { IfOk result NeverStuck }
{
    read_known(alloc, bytes)
}
