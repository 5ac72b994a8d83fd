//! Types in a signature (II.23.2.12), as places.
//!
//! Each reader answers None at a type outside the profile.

ghost use Rattle.std.specs.Prelude.{◌≡◌, ℕ, ◌≤◌, length, IfErr, IfOk, IfSome, ◌≢◌};
ghost use Rattle.cil_model.specs.Limits.{MAX_VARIABLES};
ghost use Rattle.cil_model.specs.declared.place.Place.TheVariants.{Void};
ghost use Rattle.cc_base.specs.Slices.{IsShort};
ghost use Rattle.signature_blobs.specs.Faults.{offset_of};
ghost use Rattle.signature_blobs.specs.Spelling.{Stands, StandFrom, AreValues, SpellsPlaces, type_bytes};
ghost use Rattle.signature_blobs.specs.Types.{type_at, result_at, types_at};

use crate::fault::SigFault;
use crate::number::byte_at;
use crate::places::Places;
use cil_model::Place;

/// ELEMENT_TYPE_VOID (II.23.1.16).
const VOID: u8 = 0x01;

/// ELEMENT_TYPE_BOOLEAN.
const BOOLEAN: u8 = 0x02;

/// ELEMENT_TYPE_I4.
const I4: u8 = 0x08;

/// ELEMENT_TYPE_SZARRAY.
const SZARRAY: u8 = 0x1d;

/// The type of a parameter or local at an offset, and the offset after it.
#[tactic(auto, using(crate::proofs::Standing::pair_stands), unfolding(crate::specs::Types::type_at))]
pub fn type_at(blob: &[u8], at: u32) -> Result<Option<(Place, u32)>, SigFault>
    requires { IsShort blob.now }
    ensures exact { result ≡ type_at blob.now at }
    ensures within { IfErr result (λ fault. offset_of fault ≤ length blob.now) }
    ensures value { IfOk result (λ found. IfSome found (λ read. read.0 ≢ Void)) }
    ensures found { IfOk result (λ found. IfSome found (λ read.
        Stands (type_bytes read.0) blob.now at read.1)) }
{
    match byte_at(blob, at)? {
        BOOLEAN => Ok(Some((Place::Bool, at + 1))),
        I4 => Ok(Some((Place::Int, at + 1))),
        SZARRAY => match byte_at(blob, at + 1)? {
            BOOLEAN => Ok(Some((Place::Bools, at + 2))),
            I4 => Ok(Some((Place::Ints, at + 2))),
            _ => Ok(None),
        },
        _ => Ok(None),
    }
}

/// The type of a result at an offset, and the offset after it.
#[tactic(auto, unfolding(crate::specs::Types::result_at))]
pub fn result_at(blob: &[u8], at: u32) -> Result<Option<(Place, u32)>, SigFault>
    requires { IsShort blob.now }
    ensures exact { result ≡ result_at blob.now at }
    ensures found { IfOk result (λ found. IfSome found (λ read.
        Stands (type_bytes read.0) blob.now at read.1)) }
    ensures within { IfErr result (λ fault. offset_of fault ≤ length blob.now) }
{
    match byte_at(blob, at)? {
        VOID => Ok(Some((Place::Void, at + 1))),
        _ => type_at(blob, at),
    }
}

/// So many types from an offset on, one after another.
#[tactic(auto, using(crate::proofs::Loop::goes_on, crate::proofs::Loop::fails, crate::proofs::Loop::leaves, crate::proofs::Loop::is_done, crate::proofs::TypeLaws::types))]
pub fn types_at(blob: &[u8], at: u32, count: u32) -> Result<Option<Places>, SigFault>
    requires blob { IsShort blob.now }
    requires room { count ≤ MAX_VARIABLES }
    ensures exact { result ≡ types_at blob.now at count }
    ensures number { IfOk result (λ found. IfSome found (λ places. length places ≡ count)) }
    ensures found { IfOk result (λ found. IfSome found (λ places.
        StandFrom (SpellsPlaces places) blob.now at)) }
    ensures within { IfErr result (λ fault. offset_of fault ≤ length blob.now) }
{
    let mut places = Places::new();
    let mut next = at;
    for _ in 0..count {
        let Some((place, after)) = type_at(blob, next)? else {
            return Ok(None);
        };
        places.push(place);
        next = after;
    }
    Ok(Some(places))
}
