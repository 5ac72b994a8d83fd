//! The table of references.

ghost use Rattle.std.specs.Prelude.{◌≡◌};
ghost use Rattle.frame_names.specs.Frames.{are_one_place, length_at, nullness_at, place_at};

use alias_facts::Nullness;
use cil_model::Place;
use domain_api::Expr;

/// What is known of a reference: it is null, or an array of this type. Null has the length 0.
///
/// Reference r stands at place r - 1 of a table. Reference 0 is null and has no entry.
#[derive(Clone, Copy, Debug, PartialEq, Eq)]
pub struct Reference {
    /// The type of the array.
    pub place: Place,
    /// Whether it may be null.
    pub nullness: Nullness,
    /// The length.
    pub length: Expr,
}

/// The length of a reference: 0 where it has no entry.
pub(crate) fn length_of(references: &[Reference], reference: u32) -> Expr
    ensures { result ≡ length_at references.now reference }
{
    let zero = Expr { sym: 0, k: 0 };
    if reference == 0 {
        return zero;
    }
    match references.get(reference as usize - 1) {
        None => zero,
        Some(known) => known.length,
    }
}

/// What is known of a reference being null. One without an entry is null.
pub(crate) fn nullness_of(references: &[Reference], reference: u32) -> Nullness
    ensures { result ≡ nullness_at references.now reference }
{
    if reference == 0 {
        return Nullness::Null;
    }
    match references.get(reference as usize - 1) {
        None => Nullness::Null,
        Some(known) => known.nullness,
    }
}

/// The type of a reference, if it has an entry.
pub(crate) fn place_of(references: &[Reference], reference: u32) -> Option<Place>
    ensures { result ≡ place_at references.now reference }
{
    if reference == 0 {
        return None;
    }
    match references.get(reference as usize - 1) {
        None => None,
        Some(known) => Some(known.place),
    }
}

/// Returns whether both are there and the same.
pub(crate) fn are_one_place(a: Option<Place>, b: Option<Place>) -> bool
    ensures { result ≡ are_one_place a b }
{
    match (a, b) {
        (Some(a), Some(b)) => a.number() == b.number(),
        _ => false,
    }
}
