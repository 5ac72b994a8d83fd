//! The fields of a whole unit file.

ghost use Rattle.std.specs.Prelude.{◌≡◌, ◌+◌, ◌≤◌, ⊤, length, IfOk};
ghost use Rattle.cc_base.specs.Tests.{first_of, GivesOnly, Judges, JudgesOrNoMemory};
ghost use Rattle.cil_model.specs.Limits.{MAX_CODE_BYTES, MAX_VARIABLES};
ghost use Rattle.cil_model.specs.WellFormed.{ClausesWithinLimits};
ghost use Rattle.unit_form.specs.FieldsRead.{fields_told, HasRead, IsCodeWithin};
ghost use Rattle.cil_model.specs.declared.unit.Unit.{Unit as MethodUnit};
ghost use Rattle.unit_form.specs.Forms.{form_of};
ghost use Rattle.unit_form.specs.Parses.{IsRead};
ghost use Rattle.unit_form.specs.Spelling.{HasFields, IsSpelledBy};
ghost use Rattle.unit_form.specs.UnitFields.{added_field, code_field, end_tests, fields_in, magic_tests, max_stack_field, unit_fields};

use crate::callees::read_callees;
use crate::clause_list::ClauseList;
use crate::clauses::read_clauses;
use crate::form::UnitForm;
use crate::names::read_name;
use crate::numbers::{bytes_field, count_field, skip_field, u16_field, u32_field};
use crate::places::{read_place, read_variables};
use crate::unit_fault::{UnitFault, UnitRefusal};
use cil_model::{CalleeInfo, Clause, MAX_CODE_BYTES, MAX_VARIABLES, Place};
use std::alloc::Global;

/// What stands in a unit file.
#[derive(Drop)]
pub struct UnitFields<'a> {
    /// The printed name, up to the parameter list.
    pub name: &'a [u8],
    pub result: Place,
    pub args: Vec<Place>,
    pub locals: Vec<Place>,
    /// The number of values that the stack holds at most.
    pub max_stack: u16,
    /// The methods that the code calls.
    pub callees: Vec<CalleeInfo>,
    /// Where each of them begins in the file.
    pub callee_offsets: Vec<u32>,
    pub code: &'a [u8],
    /// Where the code begins in the file.
    pub code_offset: u32,
    /// The clauses that were added to those of the code.
    pub added: Vec<Clause>,
    /// Where they begin in the file, or would begin: the offset after the code.
    pub added_offset: u32,
}

/// The form of the file, by its first four bytes, `CCU1`, `CCU2` or `CCU3`.
#[tactic(auto, using(cc_base::proofs::TestLemmas::first_tests), unfolding(crate::specs::UnitFields::magic_tests, crate::specs::Forms::form_of))]
fn read_magic(bytes: &[u8]) -> Result<UnitForm, UnitFault>
    ensures { Judges result (first_of (magic_tests bytes.now)) (λ form. form ≡ form_of bytes.now) }
{
    skip_field(bytes, 0, 4)?;
    if bytes[0] != b'C' {
        return Err(UnitFault::Form(0));
    }
    if bytes[1] != b'C' {
        return Err(UnitFault::Form(1));
    }
    if bytes[2] != b'U' {
        return Err(UnitFault::Form(2));
    }
    match UnitForm::of_number(bytes[3]) {
        Some(form) => Ok(form),
        None => Err(UnitFault::Version(3)),
    }
}

/// The size of the stack of a method with so many arguments and locals, and the offset after it.
#[tactic(auto, using(cc_base::proofs::TestLemmas::appended, cc_base::proofs::TestLemmas::first_tests), unfolding(crate::specs::UnitFields::max_stack_field))]
fn read_max_stack(
    form: UnitForm,
    bytes: &[u8],
    at: u32,
    variables: usize,
) -> Result<(u16, u32), UnitFault>
    requires short { length bytes.now ≤ 2147483647 }
    requires few { variables ≤ MAX_VARIABLES }
    ensures { Judges result (first_of (max_stack_field form variables bytes.now at).tests) (λ read. IsRead bytes.now (max_stack_field form variables bytes.now at) read.0 read.1) }
{
    let (size, next) = count_field(form, bytes, at)?;
    if variables + usize::from(size) > MAX_VARIABLES {
        return Err(UnitFault::Form(at));
    }
    Ok((size, next))
}

/// The code, after its length, and the offset after it.
#[tactic(auto, using(cc_base::proofs::TestLemmas::appended, cc_base::proofs::TestLemmas::first_tests), unfolding(crate::specs::UnitFields::code_field))]
fn read_code(bytes: &[u8], at: u32) -> Result<(&[u8], u32), UnitFault>
    requires short { length bytes.now ≤ 2147483647 }
    ensures { Judges result (first_of (code_field bytes.now at).tests)
        (λ read. IsRead bytes.now (code_field bytes.now at) read.0.now read.1 × (length read.0.now ≤ MAX_CODE_BYTES) × (at + 4 + length read.0.now ≤ length bytes.now)) }
{
    let count = u32_field(bytes, at)?;
    if count as usize > MAX_CODE_BYTES {
        return Err(UnitFault::Form(at));
    }
    let start = at + 4;
    let code = bytes_field(bytes, start, count)?;
    Ok((code, start + count))
}

/// The clauses of a method of these arguments and this result that were added to those of its code, and the offset
/// after them. A file of another form than the third has none.
#[tactic(auto, unfolding(cc_base::specs::Tests::first_of, crate::specs::UnitFields::added_field))]
fn read_added(
    alloc: Global,
    form: UnitForm,
    bytes: &[u8],
    at: u32,
    args: &[Place],
    result_place: Place,
) -> Result<(Vec<Clause>, u32), UnitRefusal>
    requires short { length bytes.now ≤ 2147483647 }
    requires inside { at ≤ length bytes.now }
    ensures { JudgesOrNoMemory result (first_of (added_field form args.now result_place bytes.now at).tests)
        (λ read. IsRead bytes.now (added_field form args.now result_place bytes.now at) read.0.items read.1) }
{
    match form {
        UnitForm::First | UnitForm::Second => Ok((Vec::new(alloc), at)),
        UnitForm::Third => {
            read_clauses(
                alloc,
                ClauseList::Added,
                form,
                bytes,
                at,
                args,
                result_place,
            )
        }
    }
}

/// Tests that nothing stands from this offset on.
#[tactic(auto, using(cc_base::proofs::TestLemmas::first_tests), unfolding(crate::specs::UnitFields::end_tests))]
fn check_end(bytes: &[u8], at: u32) -> Result<(), UnitFault>
    ensures { Judges result (first_of (end_tests bytes.now at)) (λ _. ⊤) }
{
    if bytes.len() > at as usize {
        return Err(UnitFault::Form(at));
    }
    Ok(())
}

/// The fields behind the magic of this form, or the first fault among them.
#[tactic(auto, using(cc_base::proofs::TestLemmas::appended, cc_base::proofs::TestLemmas::carried), unfolding(crate::specs::UnitFields::fields_in))]
fn read_in(alloc: Global, form: UnitForm, bytes: &[u8]) -> Result<UnitFields<'_>, UnitRefusal>
    requires short { length bytes.now ≤ 2147483647 }
    ensures judged { JudgesOrNoMemory result (first_of (fields_in form bytes.now).tests) (λ fields. fields_told fields ≡ (fields_in form bytes.now).value) }
    ensures code { IfOk result (IsCodeWithin bytes.now) }
{
    let (name, at) = read_name(bytes, 4)?;
    let result = read_place(bytes, at)?;
    let (args, at) = read_variables(alloc, form, bytes, at + 1, 0)?;
    let (locals, at) = read_variables(alloc, form, bytes, at, args.len())?;
    let (max_stack, at) = read_max_stack(form, bytes, at, args.len() + locals.len())?;
    let count = u16_field(bytes, at)?;
    let (callees, callee_offsets, at) = read_callees(alloc, form, bytes, at + 2, count)?;
    let code_offset = at + 4;
    let (code, added_offset) = read_code(bytes, at)?;
    let (added, end) = read_added(alloc, form, bytes, added_offset, &args, result)?;
    check_end(bytes, end)?;
    Ok(UnitFields {
        name,
        result,
        args,
        locals,
        max_stack,
        callees,
        callee_offsets,
        code,
        code_offset,
        added,
        added_offset,
    })
}

/// The magic and the fields, or the first fault among them.
#[tactic(auto, using(cc_base::proofs::TestLemmas::appended, cc_base::proofs::TestLemmas::carried), unfolding(crate::specs::UnitFields::unit_fields))]
fn read_first(alloc: Global, bytes: &[u8]) -> Result<UnitFields<'_>, UnitRefusal>
    requires short { length bytes.now ≤ 2147483647 }
    ensures judged { JudgesOrNoMemory result (first_of (unit_fields bytes.now).tests) (λ fields. fields_told fields ≡ (unit_fields bytes.now).value) }
    ensures code { IfOk result (IsCodeWithin bytes.now) }
{
    let form = read_magic(bytes)?;
    read_in(alloc, form, bytes)
}

/// The fields of a unit file in one of the forms, or the first fault among them.
///
/// Cost: linear in the length of the file. The name and the code are not copied.
pub fn read_fields(alloc: Global, bytes: &[u8]) -> Result<UnitFields<'_>, UnitRefusal>
    requires short { length bytes.now ≤ 2147483647 }
    // They are read where no test of the list fails; a fault is that of the first test that does.
    ensures judged { JudgesOrNoMemory result (first_of (unit_fields bytes.now).tests) (λ fields. fields_told fields ≡ (unit_fields bytes.now).value) }
    // The code lies in the file, and is not too long.
    ensures code { IfOk result (IsCodeWithin bytes.now) }
    // The added clauses keep the limits together.
    ensures added { IfOk result (λ fields. ClausesWithinLimits fields.added.items) }
    // What is read is spelled by the bytes, in one of the forms.
    ensures spelled { IfOk result (λ fields. (unit : MethodUnit) → HasRead unit (fields_told fields) → IsSpelledBy unit bytes.now × HasFields unit) }
    // Where the bytes spell a unit in one of the forms, its fields are read, unless memory runs out.
    ensures only { (unit : MethodUnit) → HasFields unit → IsSpelledBy unit bytes.now → GivesOnly result (λ fields. HasRead unit (fields_told fields)) }
{
    read_first(alloc, bytes)
}
