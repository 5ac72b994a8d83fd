//! Signatures of local variables (II.23.2.6).

ghost use Rattle.std.specs.Prelude.{◌≡◌, ℕ, IfSome, ◌≤◌, List, length, IfOk, IfErr};
ghost use Rattle.cc_base.specs.Slices.{IsShort};
ghost use Rattle.signature_blobs.specs.Faults.{offset_of};
ghost use Rattle.cil_model.specs.declared.place.Place.{Place};
ghost use Rattle.signature_blobs.specs.Spelling.{StandFrom, Begins, SpellsList, SpellsLocals, IfKnownLocals};
ghost use Rattle.signature_blobs.specs.Signatures.{locals_at, local_signature};

use crate::fault::SigFault;
use crate::number::count_at;
use crate::places::Places;
use crate::types::types_at;

/// The first byte of a signature of locals.
const LOCAL_SIG: u8 = 0x07;

/// The locals of a method, as far as the profile has them.
#[derive(Drop)]
pub enum LocalSig {
    /// The types of the locals, in order.
    Known(Places),
    /// More than 256 locals, or a type outside the profile.
    Other,
}

/// The number of locals and their types.
#[tactic(auto, using(crate::proofs::SignatureLaws::stand), unfolding(crate::specs::Signatures::locals_at))]
fn locals_at(blob: &[u8]) -> Result<Option<Places>, SigFault>
    requires { IsShort blob.now }
    ensures exact { result ≡ locals_at blob.now }
    ensures within { IfErr result (λ fault. offset_of fault ≤ length blob.now) }
    ensures found { IfOk result (λ found. IfSome found (λ places.
        StandFrom (SpellsList places) blob.now 1)) }
{
    match count_at(blob, 1)? {
        Some((count, at)) => types_at(blob, at, count),
        None => Ok(None),
    }
}

/// The first byte and the locals.
#[tactic(auto, using(crate::proofs::SignatureLaws::stand), unfolding(crate::specs::Signatures::local_signature))]
fn locals_of(blob: &[u8]) -> Result<LocalSig, SigFault>
    requires { IsShort blob.now }
    ensures exact { result ≡ local_signature blob.now }
    ensures within { IfErr result (λ fault. offset_of fault ≤ length blob.now) }
    ensures found { IfOk result (λ local. IfKnownLocals local (λ places. Begins (SpellsLocals places) blob.now)) }
{
    match blob {
        [] => Err(SigFault::Short(0)),
        [LOCAL_SIG, ..] => match locals_at(blob)? {
            Some(places) => Ok(LocalSig::Known(places)),
            None => Ok(LocalSig::Other),
        },
        [_, ..] => Err(SigFault::Form(0)),
    }
}

/// The signature of locals that a blob says.
///
/// A type outside the profile ends the reading, as more than 256 locals do, and bytes after the last
/// type are not read. Another first byte than that of a signature of locals is `Form` at 0, a blob that
/// ends too early `Short` at its end.
pub fn local_sig(blob: &[u8]) -> Result<LocalSig, SigFault>
    requires { IsShort blob.now }
    // What the blob says, or the first fault.
    ensures exact { result ≡ local_signature blob.now }
    // The blob begins with a spelling of the locals that are known.
    ensures found { IfOk result (λ local. IfKnownLocals local (λ places. Begins (SpellsLocals places) blob.now)) }
    // Locals whose spelling begins the blob are known.
    ensures only { (places : List Place) → Begins (SpellsLocals places) blob.now → result ≡ Ok (LocalSig.Known places) }
    // The first fault is in the blob or at its end.
    ensures within { IfErr result (λ fault. offset_of fault ≤ length blob.now) }
{
    locals_of(blob)
}
