//! Places of results and of variables.

ghost use Rattle.std.specs.Prelude.{◌≡◌, ◌+◌, ◌≤◌, length};
ghost use Rattle.cc_base.specs.Tests.{first_of, Judges, JudgesOrNoMemory};
ghost use Rattle.unit_form.specs.Fields.{place_field, variable_field, variable_fields, variables_field};
ghost use Rattle.cil_model.specs.Limits.{MAX_VARIABLES};
ghost use Rattle.unit_form.specs.Parses.{IsRead};

use crate::form::UnitForm;
use crate::numbers::{count_field, u8_field};
use crate::unit_fault::{UnitFault, UnitRefusal};
use cil_model::{MAX_VARIABLES, Place};
use std::alloc::Global;

/// The place of a result, in one byte.
#[tactic(auto, using(cc_base::proofs::TestLemmas::appended, cc_base::proofs::TestLemmas::first_tests), unfolding(crate::specs::Fields::place_field, crate::specs::Fields::u8_field))]
pub fn read_place(bytes: &[u8], at: u32) -> Result<Place, UnitFault>
    ensures { Judges result (first_of (place_field bytes.now at).tests) (λ place. IsRead bytes.now (place_field bytes.now at) place (at + 1)) }
{
    let number = u8_field(bytes, at)?;
    match Place::of_number(number) {
        Some(place) => Ok(place),
        None => Err(UnitFault::Form(at)),
    }
}

/// The place of a variable, in one byte. It is not void.
#[tactic(auto, using(cc_base::proofs::TestLemmas::appended, cc_base::proofs::TestLemmas::first_tests), unfolding(crate::specs::Fields::variable_field))]
fn read_variable(bytes: &[u8], at: u32) -> Result<Place, UnitFault>
    ensures { Judges result (first_of (variable_field bytes.now at).tests) (λ place. IsRead bytes.now (variable_field bytes.now at) place (at + 1)) }
{
    let place = read_place(bytes, at)?;
    if place == Place::Void {
        return Err(UnitFault::Form(at));
    }
    Ok(place)
}

/// The places of so many variables, and the offset after them.
#[tactic(auto, using(crate::proofs::Counted::read_next, crate::proofs::Counted::read_fault, crate::proofs::Counted::all_read, crate::proofs::Counted::none_read))]
fn read_each(
    alloc: Global,
    bytes: &[u8],
    start: u32,
    count: u16,
) -> Result<(Vec<Place>, u32), UnitRefusal>
    requires short { length bytes.now ≤ 2147483647 }
    requires inside { start ≤ length bytes.now }
    ensures { JudgesOrNoMemory result (first_of (variable_fields count bytes.now start).tests)
        (λ read. IsRead bytes.now (variable_fields count bytes.now start) read.0.items read.1 × (length read.0.items ≡ count)) }
{
    let mut places = Vec::with_capacity(alloc, usize::from(count))?;
    let mut at = start;
    for _variable in 0..count {
        places.push(read_variable(bytes, at)?)?;
        at += 1;
    }
    Ok((places, at))
}

/// The places of variables, after their count, and the offset after them. There are so many other variables of the
/// method.
#[tactic(auto, using(cc_base::proofs::TestLemmas::appended, cc_base::proofs::TestLemmas::first_tests, cc_base::proofs::TestLemmas::carried), unfolding(crate::specs::Fields::variables_field))]
pub fn read_variables(
    alloc: Global,
    form: UnitForm,
    bytes: &[u8],
    at: u32,
    others: usize,
) -> Result<(Vec<Place>, u32), UnitRefusal>
    requires short { length bytes.now ≤ 2147483647 }
    requires few { others ≤ MAX_VARIABLES }
    ensures { JudgesOrNoMemory result (first_of (variables_field form others bytes.now at).tests)
        (λ read. IsRead bytes.now (variables_field form others bytes.now at) read.0.items read.1 × (others + length read.0.items ≤ MAX_VARIABLES)) }
{
    let (count, start) = count_field(form, bytes, at)?;
    if others + usize::from(count) > MAX_VARIABLES {
        return Err(UnitFault::Form(at).into());
    }
    read_each(alloc, bytes, start, count)
}
