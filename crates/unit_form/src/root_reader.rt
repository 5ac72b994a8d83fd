//! Roots of trees, as they stand in a unit file.

ghost use Rattle.std.specs.Prelude.{◌≡◌, ◌+◌, ◌≤◌, length, option_map, slice_index, take, drop};
ghost use Rattle.cc_base.specs.Tests.{first_of, Judges};
ghost use Rattle.cc_base.specs.LittleEndian.{little_number};
ghost use Rattle.cil_model.specs.Arithmetic.{signed};
ghost use Rattle.unit_form.specs.Forms.{count_size};
ghost use Rattle.unit_form.specs.Parses.{IsRead};
ghost use Rattle.unit_form.specs.Roots.{told};
ghost use Rattle.unit_form.specs.TreeFields.{bare_root, is_tag, operand_field, operand_size, root_field, root_of};

use crate::form::UnitForm;
use crate::numbers::{bytes_field, u8_field};
use crate::root::{Root, operator_of_byte, unary_of_byte};
use crate::unit_fault::UnitFault;
use cil_model::Place;

/// Returns how many bytes a count has.
fn count_size(form: UnitForm) -> u32
    ensures { result ≡ count_size form }
{
    match form {
        UnitForm::First => 1,
        UnitForm::Second | UnitForm::Third => 2,
    }
}

/// Returns how many bytes the operand after a tag has.
fn operand_size(form: UnitForm, tag: u8) -> u32
    ensures { result ≡ operand_size form tag }
{
    match tag {
        1 => 4,
        2 => count_size(form),
        6..=8 => 1,
        _ => 0,
    }
}

/// The root of a tag without an operand.
fn bare_root(tag: u8) -> Option<Root>
    ensures { option_map told result ≡ bare_root tag }
{
    match tag {
        3 => Some(Root::Null),
        4 => Some(Root::Result),
        5 => Some(Root::Len),
        9 => Some(Root::Old),
        10 => Some(Root::Cond),
        _ => None,
    }
}

/// The number in four bytes.
#[tactic(auto, unfolding(cc_base::specs::LittleEndian::u32_at))]
fn const_of(operand: &[u8]) -> i32
    requires { length operand.now ≡ 4 }
    ensures { result ≡ signed (little_number 4 operand.now) }
{
    cc_base::u32_at(operand, 0).cast_signed()
}

/// The argument whose number these bytes are.
#[tactic(auto, unfolding(cc_base::specs::LittleEndian::u16_at))]
fn arg_of(form: UnitForm, operand: &[u8]) -> u16
    requires { length operand.now ≡ count_size form }
    ensures { result ≡ little_number (count_size form) operand.now }
{
    match form {
        UnitForm::First => u16::from(operand[0]),
        UnitForm::Second | UnitForm::Third => cc_base::u16_at(operand, 0),
    }
}

/// The root of a tag with an operand of its size, or none where the operand breaks the form.
fn root_of(form: UnitForm, tag: u8, operand: &[u8]) -> Option<Root>
    requires { length operand.now ≡ operand_size form tag }
    ensures { option_map told result ≡ root_of form tag operand.now }
{
    match tag {
        1 => Some(Root::Const(const_of(operand))),
        2 => Some(Root::Arg(arg_of(form, operand))),
        6 => Some(Root::Elem(Place::of_number(operand[0])?)),
        7 => Some(Root::Bin(operator_of_byte(operand[0])?)),
        8 => Some(Root::Un(unary_of_byte(operand[0])?)),
        _ => bare_root(tag),
    }
}

/// The root of a tag whose operand stands at this offset, and the offset after it.
#[tactic(auto, using(crate::proofs::Operands::operand_cut, crate::proofs::Operands::operand_broken, crate::proofs::Operands::operand_read))]
fn read_operand(form: UnitForm, bytes: &[u8], at: u32, tag: u8) -> Result<(Root, u32), UnitFault>
    requires short { length bytes.now ≤ 2147483647 }
    ensures { Judges result (first_of (operand_field form tag bytes.now at).tests) (λ read. IsRead bytes.now (operand_field form tag bytes.now at) (told read.0) read.1) }
{
    let size = operand_size(form, tag);
    let operand = bytes_field(bytes, at, size)?;
    match root_of(form, tag, operand) {
        Some(root) => Ok((root, at + size)),
        None => Err(UnitFault::Form(at)),
    }
}

/// Returns whether a byte is the tag of a root.
fn is_tag(tag: u8) -> bool
    ensures { result ≡ is_tag tag }
{
    tag >= 1 && tag <= 10
}

/// The root at this offset, and the offset after it.
#[tactic(auto, using(cc_base::proofs::TestLemmas::appended, cc_base::proofs::TestLemmas::first_tests), unfolding(crate::specs::TreeFields::root_field))]
pub fn read_root(form: UnitForm, bytes: &[u8], at: u32) -> Result<(Root, u32), UnitFault>
    requires short { length bytes.now ≤ 2147483647 }
    ensures { Judges result (first_of (root_field form bytes.now at).tests) (λ read. IsRead bytes.now (root_field form bytes.now at) (told read.0) read.1) }
{
    let tag = u8_field(bytes, at)?;
    if !is_tag(tag) {
        return Err(UnitFault::Form(at));
    }
    read_operand(form, bytes, at + 1, tag)
}
