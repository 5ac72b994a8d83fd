//! Which kinds of values places, comparisons and tests take (ECMA-335 III.1.5 and III.1.8.1.2).

ghost use Rattle.std.specs.Prelude.{◌≡◌};
ghost use Rattle.cil_model.specs.Comparisons.{comparison_of};
ghost use Rattle.cil_model.specs.Kinds.{kind_of, takes, is_number, is_reference, is_array_of, address_kind, is_address_of, are_comparable, is_equality, compares_kinds, pushes_comparison, is_tested};
ghost use Rattle.cil_model.specs.Passes.{merged_kind};

use crate::instruction::{BinOp, CmpOp};
use crate::place::{Kind, Place};

/// Returns what is pushed of a place: none of void.
pub fn kind_of(place: Place) -> Option<Kind>
    ensures { result ≡ kind_of place }
{
    match place {
        Place::Void => None,
        Place::Bool | Place::Int => Some(Kind::Int),
        Place::Bools => Some(Kind::Bools),
        Place::Ints => Some(Kind::Ints),
    }
}

/// Returns whether a place takes a value of the kind. Null fits both kinds of arrays.
pub fn takes(place: Place, kind: Kind) -> bool
    ensures { result ≡ takes place kind }
{
    match place {
        Place::Void => false,
        Place::Bool | Place::Int => matches!(kind, Kind::Int),
        Place::Bools => matches!(kind, Kind::Bools | Kind::NullRef),
        Place::Ints => matches!(kind, Kind::Ints | Kind::NullRef),
    }
}

/// Returns whether the kind is that of numbers.
pub fn is_number(kind: Kind) -> bool
    ensures { result ≡ is_number kind }
{
    matches!(kind, Kind::Int | Kind::Native)
}

/// Returns whether the kind is that of references.
pub fn is_reference(kind: Kind) -> bool
    ensures { result ≡ is_reference kind }
{
    matches!(kind, Kind::Ints | Kind::Bools | Kind::NullRef)
}

/// Returns whether an array of this type may be of the kind, or null.
pub fn is_array_of(place: Place, kind: Kind) -> bool
    ensures { result ≡ is_array_of place kind }
{
    is_reference(kind) && takes(place, kind)
}

/// Returns the kind of the addresses of items of such an array: none where the type is none of arrays.
pub fn address_kind(place: Place) -> Option<Kind>
    ensures { result ≡ address_kind place }
{
    match place {
        Place::Bools => Some(Kind::AddrBools),
        Place::Ints => Some(Kind::AddrInts),
        Place::Void | Place::Bool | Place::Int => None,
    }
}

/// Returns whether the kind is that of addresses of items of such an array.
pub fn is_address_of(place: Place, kind: Kind) -> bool
    ensures { result ≡ is_address_of place kind }
{
    matches!(
        (place, kind),
        (Place::Bools, Kind::AddrBools) | (Place::Ints, Kind::AddrInts)
    )
}

/// Returns whether they are references to arrays of one type, or one of them null.
fn are_comparable(a: Kind, b: Kind) -> bool
    ensures { result ≡ are_comparable a b }
{
    match (a, b) {
        (Kind::Ints, Kind::Ints) | (Kind::Bools, Kind::Bools) => true,
        (Kind::NullRef, other) | (other, Kind::NullRef) => is_reference(other),
        _ => false,
    }
}

fn is_equality(op: CmpOp) -> bool
    ensures { result ≡ is_equality op }
{
    matches!(op, CmpOp::Eq | CmpOp::NeUn)
}

/// Returns whether a branch may compare values of these kinds.
pub fn compares_kinds(op: CmpOp, a: Kind, b: Kind) -> bool
    ensures { result ≡ compares_kinds op a b }
{
    (is_number(a) && is_number(b)) || (is_equality(op) && are_comparable(a, b))
}

/// Returns whether an instruction may push such a comparison.
pub fn pushes_comparison(op: CmpOp, a: Kind, b: Kind) -> bool
    ensures { result ≡ pushes_comparison op a b }
{
    match (op, b) {
        (CmpOp::GtUn, Kind::NullRef) => is_reference(a),
        _ => compares_kinds(op, a, b),
    }
}

/// Returns whether a branch may test a value of the kind.
pub fn is_tested(kind: Kind) -> bool
    ensures { result ≡ is_tested kind }
{
    is_number(kind) || is_reference(kind)
}

/// The comparison that an operator is.
pub fn comparison_of(operator: BinOp) -> Option<CmpOp>
    ensures { result ≡ comparison_of operator }
{
    match operator {
        BinOp::Ceq => Some(CmpOp::Eq),
        BinOp::Cgt => Some(CmpOp::Gt),
        BinOp::CgtUn => Some(CmpOp::GtUn),
        BinOp::Clt => Some(CmpOp::Lt),
        BinOp::CltUn => Some(CmpOp::LtUn),
        _ => None,
    }
}

/// Returns what two kinds merge to: a kind with itself to itself, and null with an array to the array.
pub fn merged_kind(a: Kind, b: Kind) -> Option<Kind>
    ensures { result ≡ merged_kind a b }
{
    match (a, b) {
        (Kind::Int, Kind::Int) => Some(Kind::Int),
        (Kind::Native, Kind::Native) => Some(Kind::Native),
        (Kind::Text, Kind::Text) => Some(Kind::Text),
        (Kind::NullRef, Kind::NullRef) => Some(Kind::NullRef),
        (Kind::Ints, Kind::Ints | Kind::NullRef) | (Kind::NullRef, Kind::Ints) => Some(Kind::Ints),
        (Kind::Bools, Kind::Bools | Kind::NullRef) | (Kind::NullRef, Kind::Bools) => {
            Some(Kind::Bools)
        }
        (Kind::AddrInts, Kind::AddrInts) => Some(Kind::AddrInts),
        (Kind::AddrBools, Kind::AddrBools) => Some(Kind::AddrBools),
        _ => None,
    }
}
