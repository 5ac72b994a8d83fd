//! What the calls in a unit's code name.

ghost use Rattle.std.specs.Prelude.{◌≡◌};
ghost use Rattle.cil_model.specs.UnitCalls.{unit_call, condition_call, place_call, array_place, is_assert};

use crate::place::Place;

/// What a call in the code of a unit names, in place of a token of the metadata.
#[derive(Clone, Copy, Debug, PartialEq, Eq)]
pub enum UnitCall {
    /// `Contract.Requires`. The flag says of this and the next three whether a message stands beside the
    /// condition.
    Requires(bool),
    /// `Contract.Ensures`.
    Ensures(bool),
    /// `Contract.Assert`.
    Assert(bool),
    /// `Contract.Assume`.
    Assume(bool),
    /// `Contract.EndContractBlock`.
    EndContractBlock,
    /// `Contract.Result` of this type.
    Result(Place),
    /// `Contract.OldValue` of this type.
    OldValue(Place),
    /// A method: the index of its entry among the unit's callees.
    Callee(u32),
}

/// The number of the first callee.
const FIRST_CALLEE: u32 = 100;

/// The calls that take a condition, by their numbers.
fn condition_call(number: u32) -> Option<UnitCall>
    ensures { result ≡ condition_call number }
{
    match number {
        1 => Some(UnitCall::Requires(false)),
        2 => Some(UnitCall::Requires(true)),
        3 => Some(UnitCall::Ensures(false)),
        4 => Some(UnitCall::Ensures(true)),
        5 => Some(UnitCall::Assert(false)),
        6 => Some(UnitCall::Assert(true)),
        7 => Some(UnitCall::Assume(false)),
        8 => Some(UnitCall::Assume(true)),
        _ => None,
    }
}

/// The calls that have a type, by their numbers.
fn place_call(number: u32) -> Option<UnitCall>
    ensures { result ≡ place_call number }
{
    match number {
        11 => Some(UnitCall::Result(Place::Bool)),
        12 => Some(UnitCall::Result(Place::Int)),
        13 => Some(UnitCall::Result(Place::Bools)),
        14 => Some(UnitCall::Result(Place::Ints)),
        21 => Some(UnitCall::OldValue(Place::Bool)),
        22 => Some(UnitCall::OldValue(Place::Int)),
        23 => Some(UnitCall::OldValue(Place::Bools)),
        24 => Some(UnitCall::OldValue(Place::Ints)),
        _ => None,
    }
}

/// Returns what a call of this number names, if it names anything.
#[tactic(auto, unfolding(crate::specs::UnitCalls::unit_call))]
pub fn unit_call(number: u32) -> Option<UnitCall>
    ensures { result ≡ unit_call number }
{
    if number >= FIRST_CALLEE {
        return Some(UnitCall::Callee(number - FIRST_CALLEE));
    }
    match number {
        0..=8 => condition_call(number),
        9 => Some(UnitCall::EndContractBlock),
        _ => place_call(number),
    }
}

/// Returns whether a call of this number is `Contract.Assert` without a message.
pub fn is_assert(number: u32) -> bool
    ensures { result ≡ is_assert (unit_call number) }
{
    matches!(unit_call(number), Some(UnitCall::Assert(false)))
}

/// The type of the arrays that a `newarr` of this number makes, and that a `ldelema` of it takes: `bool[]` or
/// `int32[]`.
pub fn array_place(number: u32) -> Option<Place>
    ensures { result ≡ array_place number }
{
    match number {
        1 => Some(Place::Bools),
        2 => Some(Place::Ints),
        _ => None,
    }
}
