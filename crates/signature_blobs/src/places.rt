//! The places of a signature, in fixed room.

ghost use Rattle.std.specs.Prelude.{◌≡◌, ◌≢◌, ◌<◌, ◌≤◌, ℕ, [], ◌∷◌, ◌++◌, length, slice_get, Some, IfOk, IfSome};
ghost use Rattle.cil_model.specs.declared.place.Place.TheVariants.{Void};
ghost use Rattle.signature_blobs.specs.Places.{bits_at, place_of_bits};

use cil_model::Place;
use std::alloc::{AllocError, Global};
use std::marker::Model;

/// At most 256 places of values, which contracts see as the list of them. `Place::Void` is none.
///
/// They stand in the value itself, which has 66 bytes, so making one takes no memory.
#[derive(Drop)]
pub struct Places {
    bytes: [u8; 64],
    len: u16,
}

impl Model for Places {
    ghost use Rattle.std.specs.Prelude.{◌≤◌, List};
    ghost use Rattle.cil_model.specs.declared.place.Place.{Place};
    ghost use Rattle.signature_blobs.specs.Places.{places_of};

    ghost Value = { List Place };

    ghost view = { λ places. places_of places.bytes places.len };

    ghost invariant = { λ places. places.len ≤ 256 };
}

impl Places {
    /// No places.
    pub fn new() -> Places
        ensures { result ≡ [] }
    {
        Places {
            bytes: [0; 64],
            len: 0,
        }
    }

    /// Returns how many places there are.
    #[tactic(auto, using(crate::proofs::PlaceLemmas::packed))]
    pub fn len(&self) -> usize
        ensures count { result ≡ length self.now }
        ensures few { result ≤ 256 }
    {
        usize::from(self.len)
    }

    /// The place of an index from 0 on, none after the last.
    #[tactic(auto, using(crate::proofs::PlaceLemmas::packed))]
    pub fn get(&self, index: usize) -> Option<Place>
        ensures place { result ≡ slice_get self.now index }
        ensures value { IfSome result (λ place. place ≢ Void) }
    {
        if index < usize::from(self.len) {
            Some(self.at(index))
        } else {
            None
        }
    }

    /// The place of an index that there is.
    #[tactic(auto, using(crate::proofs::PlaceLemmas::packed), unfolding(crate::specs::Places::place_at))]
    fn at(&self, index: usize) -> Place
        requires { index < length self.now }
        ensures some { slice_get self.now index ≡ Some result }
        ensures value { result ≢ Void }
    {
        place_of_bits(bits_at(self.bytes[index / 4], index % 4))
    }

    /// Appends the place of a value.
    #[tactic(auto, using(crate::proofs::PlaceLemmas::packed))]
    pub fn push(&mut self, place: Place)
        requires room { length self.old < 256 }
        requires value { place ≢ Void }
        ensures { self.new ≡ self.old ++ place ∷ [] }
    {
        let index = usize::from(self.len);
        let byte = self.bytes[index / 4];
        self.bytes[index / 4] = with_bits(byte, index % 4, bits_of(place));
        self.len += 1;
    }

    /// The places in a vector.
    #[tactic(auto, using(crate::proofs::PlaceLemmas::packed))]
    pub fn to_vec(&self, alloc: Global) -> Result<Vec<Place>, AllocError>
        ensures { IfOk result (λ places. places.items ≡ self.now) }
    {
        let mut places = Vec::new(alloc);
        for index in 0..usize::from(self.len) {
            places.push(self.at(index))?;
        }
        Ok(places)
    }
}

/// The two bits of a byte that stand for a place.
fn bits_at(byte: u8, slot: usize) -> u8
    requires { slot < 4 }
    ensures { result ≡ bits_at byte slot }
{
    match slot {
        0 => byte % 4,
        1 => byte / 4 % 4,
        2 => byte / 16 % 4,
        _ => byte / 64 % 4,
    }
}

/// The byte with these two bits in place of those of a slot, and with the same bits below them.
#[tactic(auto, using(crate::proofs::PlaceLemmas::packed))]
fn with_bits(byte: u8, slot: usize, bits: u8) -> u8
    requires slot { slot < 4 }
    requires bits { bits < 4 }
    ensures there { bits_at result slot ≡ bits }
    ensures below { (k : ℕ) → k < slot → bits_at result k ≡ bits_at byte k }
{
    match slot {
        0 => bits,
        1 => byte % 4 + 4 * bits,
        2 => byte % 16 + 16 * bits,
        _ => byte % 64 + 64 * bits,
    }
}

/// The two bits that stand for a place.
fn bits_of(place: Place) -> u8
    requires { place ≢ Void }
    ensures small { result < 4 }
    ensures back { place_of_bits result ≡ place }
{
    match place {
        Place::Void | Place::Bool => 0,
        Place::Int => 1,
        Place::Bools => 2,
        Place::Ints => 3,
    }
}

/// The place that two bits stand for.
fn place_of_bits(bits: u8) -> Place
    ensures place { result ≡ place_of_bits bits }
    ensures value { result ≢ Void }
{
    match bits {
        0 => Place::Bool,
        1 => Place::Int,
        2 => Place::Bools,
        _ => Place::Ints,
    }
}
