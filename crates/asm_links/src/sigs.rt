//! Signatures as they are read: compared, hashed and copied.

ghost use Rattle.std.specs.Prelude.{◌≡◌, fold};
ghost use Rattle.asm_links.specs.Keys.{number_in, places_input, same_place, same_places, same_sig, same_types, sig_input, types_input};

use cil_model::Place;
use signature_blobs::{MethodSig, Places, SigTypes, Signature};
use std::hash::{Hash, Hasher};

/// Returns whether two types are one.
fn same_place(a: Place, b: Place) -> bool
    ensures { result ≡ same_place a b }
{
    a.number() == b.number()
}

/// The number of the type of an index, 0 after the last.
fn number_at(places: &Places, index: usize) -> u8
    ensures { result ≡ number_in places.now index }
{
    match places.get(index) {
        Some(place) => place.number(),
        None => 0,
    }
}

/// Returns whether two signatures take the same types.
#[tactic(auto, using(crate::proofs::PlaceLists::long_differ, crate::proofs::PlaceLists::same_here, crate::proofs::PlaceLists::differ_here, crate::proofs::PlaceLists::same_to_end))]
fn same_places(a: &Places, b: &Places) -> bool
    ensures { result ≡ same_places a.now b.now }
{
    if a.len() != b.len() {
        return false;
    }
    for index in 0..a.len() {
        if number_at(a, index) != number_at(b, index) {
            return false;
        }
    }
    true
}

/// Returns whether the types of two methods are the same.
fn same_types(a: &SigTypes, b: &SigTypes) -> bool
    ensures { result ≡ same_types a.now b.now }
{
    match (a, b) {
        (SigTypes::Known(a), SigTypes::Known(b)) => {
            same_place(a.result, b.result) && same_places(&a.args, &b.args)
        }
        (SigTypes::Other, SigTypes::Other) => true,
        (SigTypes::Known(_), SigTypes::Other) | (SigTypes::Other, SigTypes::Known(_)) => false,
    }
}

/// Returns whether two signatures are the same.
pub(crate) fn same_sig(a: &MethodSig, b: &MethodSig) -> bool
    ensures { result ≡ same_sig a.now b.now }
{
    a.has_this == b.has_this && a.generic == b.generic && same_types(&a.types, &b.types)
}

/// Feeds the types that a method takes to a hash function.
#[tactic(auto, using(crate::proofs::PlaceLists::fed_here, crate::proofs::PlaceLists::fed_to_end))]
fn hash_places<H: Hasher>(places: &Places, state: &mut H)
    ensures { state.new ≡ fold H.write state.old (places_input places.now) }
{
    for index in 0..places.len() {
        state.write_u8(number_at(places, index));
    }
}

/// Feeds the types of a method.
fn hash_types<H: Hasher>(types: &SigTypes, state: &mut H)
    ensures { state.new ≡ fold H.write state.old (types_input types.now) }
{
    match types {
        SigTypes::Known(signature) => {
            state.write_u8(signature.result.number());
            hash_places(&signature.args, state);
        }
        SigTypes::Other => {}
    }
}

/// Feeds a signature.
pub(crate) fn hash_sig<H: Hasher>(sig: &MethodSig, state: &mut H)
    ensures { state.new ≡ fold H.write state.old (sig_input sig.now) }
{
    sig.has_this.hash(state);
    sig.generic.hash(state);
    hash_types(&sig.types, state);
}

/// A copy of places. They stand in fixed room, so it takes no memory.
#[tactic(auto, using(crate::proofs::PlaceLists::copied, crate::proofs::PlaceLists::not_copied, crate::proofs::PlaceLists::copy_room, crate::proofs::PlaceLists::copied_all))]
fn copy_places(places: &Places) -> Places
    ensures { result ≡ places.now }
{
    let mut copy = Places::new();
    for index in 0..places.len() {
        let Some(place) = places.get(index) else {
            continue;
        };
        copy.push(place);
    }
    copy
}

/// A copy of the types of a method.
fn copy_types(types: &SigTypes) -> SigTypes
    ensures { result ≡ types.now }
{
    match types {
        SigTypes::Known(signature) => SigTypes::Known(Signature {
            result: signature.result,
            args: copy_places(&signature.args),
        }),
        SigTypes::Other => SigTypes::Other,
    }
}

/// A copy of a signature.
pub(crate) fn copy_sig(sig: &MethodSig) -> MethodSig
    ensures { result ≡ sig.now }
{
    MethodSig {
        has_this: sig.has_this,
        generic: sig.generic,
        types: copy_types(&sig.types),
    }
}
