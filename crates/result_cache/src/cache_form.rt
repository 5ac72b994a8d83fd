//! The forms of cache files.

ghost use Rattle.std.specs.Prelude.{◌≡◌, Some, None, if◌then◌else◌};
ghost use Rattle.result_cache.specs.Forms.{form_numbered, is_form_number};

/// A form of cache files. They differ in the form of the units that are their keys.
#[derive(Clone, Copy, Debug, PartialEq, Eq)]
pub enum CacheForm {
    /// `CCK1`: a key is the first form of a unit.
    First,
    /// `CCK2`: a key is the second form of a unit, or the third where clauses were added to it.
    Second,
}

impl CacheForm {
    /// The form that the last byte of a magic names.
    pub(crate) fn of_number(number: u8) -> Option<CacheForm>
        ensures { result ≡ if is_form_number number then Some (form_numbered number) else None }
    {
        match number {
            b'1' => Some(CacheForm::First),
            b'2' => Some(CacheForm::Second),
            _ => None,
        }
    }
}
