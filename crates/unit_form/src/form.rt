//! The forms of unit files.
//!
//! A unit is written and kept in one form: in the third where clauses were added to it, and else in the second. So one
//! unit has one key. The first form is read as before, under the limits of today, and the code does not write it.

ghost use Rattle.std.specs.Prelude.{◌≡◌, Some, None, if◌then◌else◌};
ghost use Rattle.unit_form.specs.Forms.{form_numbered, is_form_number};

/// A form of unit files. They differ in the size of a place list's count, of the stack's size and of an argument's
/// number, and in whether clauses follow the code.
#[derive(Clone, Copy, Debug, PartialEq, Eq)]
pub enum UnitForm {
    /// `CCU1`: one byte each.
    First,
    /// `CCU2`: two bytes each.
    Second,
    /// `CCU3`: two bytes each, and after the code the clauses that were added to those of the code.
    Third,
}

impl UnitForm {
    /// The form that the last byte of a magic names.
    pub fn of_number(number: u8) -> Option<UnitForm>
        ensures { result ≡ if is_form_number number then Some (form_numbered number) else None }
    {
        match number {
            b'1' => Some(UnitForm::First),
            b'2' => Some(UnitForm::Second),
            b'3' => Some(UnitForm::Third),
            _ => None,
        }
    }
}
