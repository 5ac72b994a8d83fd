//! Instantiations of generic methods (II.23.2.15).

ghost use Rattle.std.specs.Prelude.{◌≡◌, ℕ, ◌≤◌, length, IfOk, IfSome, IfErr};
ghost use Rattle.cc_base.specs.Slices.{IsShort};
ghost use Rattle.signature_blobs.specs.Faults.{offset_of};
ghost use Rattle.cil_model.specs.declared.place.Place.{Place};
ghost use Rattle.signature_blobs.specs.Spelling.{StandFrom, Begins, SpellsArgument, SpellsInstance};
ghost use Rattle.signature_blobs.specs.Signatures.{argument_at, spec_signature};

use crate::fault::SigFault;
use crate::number::compressed;
use crate::types::type_at;
use cil_model::Place;

/// The first byte of an instantiation, GENRICINST in the standard.
const GENERIC_INST: u8 = 0x0a;

/// The type argument of an instantiation that has one.
#[tactic(auto, using(crate::proofs::SignatureLaws::stand), unfolding(crate::specs::Signatures::argument_at))]
fn argument_at(blob: &[u8]) -> Result<Option<Place>, SigFault>
    requires { IsShort blob.now }
    ensures exact { result ≡ argument_at blob.now }
    ensures within { IfErr result (λ fault. offset_of fault ≤ length blob.now) }
    ensures found { IfOk result (λ read. IfSome read (λ place.
        StandFrom (SpellsArgument place) blob.now 1)) }
{
    let (count, at) = compressed(blob, 1)?;
    if count != 1 {
        return Ok(None);
    }
    match type_at(blob, at)? {
        Some((place, _)) => Ok(Some(place)),
        None => Ok(None),
    }
}

/// The first byte and the type argument.
#[tactic(auto, using(crate::proofs::SignatureLaws::stand), unfolding(crate::specs::Signatures::spec_signature))]
fn spec_of(blob: &[u8]) -> Result<Option<Place>, SigFault>
    requires { IsShort blob.now }
    ensures exact { result ≡ spec_signature blob.now }
    ensures within { IfErr result (λ fault. offset_of fault ≤ length blob.now) }
    ensures found { IfOk result (λ read. IfSome read (λ place. Begins (SpellsInstance place) blob.now)) }
{
    match blob {
        [] => Err(SigFault::Short(0)),
        [GENERIC_INST, ..] => argument_at(blob),
        [_, ..] => Err(SigFault::Form(0)),
    }
}

/// The type argument that a MethodSpec's blob gives a generic method.
///
/// None where there are more of them or none, or where its type is outside the profile. Bytes after it
/// are not read. Another first byte than that of an instantiation is `Form` at 0, a blob that ends too
/// early `Short` at its end.
pub fn spec_sig(blob: &[u8]) -> Result<Option<Place>, SigFault>
    requires { IsShort blob.now }
    // What the blob says, or the first fault.
    ensures exact { result ≡ spec_signature blob.now }
    // The blob begins with a spelling of the instantiation.
    ensures found { IfOk result (λ read. IfSome read (λ place. Begins (SpellsInstance place) blob.now)) }
    // An instantiation whose spelling begins the blob is read.
    ensures only { (place : Place) → Begins (SpellsInstance place) blob.now → result ≡ Ok (Some place) }
    // The first fault is in the blob or at its end.
    ensures within { IfErr result (λ fault. offset_of fault ≤ length blob.now) }
{
    spec_of(blob)
}
