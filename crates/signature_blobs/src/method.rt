//! Signatures of methods (II.23.2.1).

ghost use Rattle.std.specs.Prelude.{◌≡◌, ℕ, ◌%◌, IfSome, ◌≤◌, Bool, length, IfOk, IfErr};
ghost use Rattle.cc_base.specs.Slices.{IsShort};
ghost use Rattle.signature_blobs.specs.Faults.{offset_of};
ghost use Rattle.signature_blobs.specs.Spelling.{SomeStand, StandFrom, Begins, SpellsTypeCount, SpellsTypes, SpellsMethod, IfKnown, is_generic};
ghost use Rattle.signature_blobs.specs.declared.method.Signature.{Signature};
ghost use Rattle.signature_blobs.specs.Signatures.{parameters_at, signature_at, types_of, method_signature};

use crate::fault::SigFault;
use crate::number::{compressed, count_at};
use crate::places::Places;
use crate::types::{result_at, types_at};
use cil_model::Place;

/// The bit of a convention byte that is set where the method has a `this`.
const HASTHIS: u8 = 0x20;

/// The bit of a convention byte that is set where the method has type parameters.
const GENERIC: u8 = 0x10;

/// The bits of a convention byte that name the convention.
const CONVENTION_MASK: u8 = 0x0f;

/// The convention of methods with a fixed number of parameters.
const DEFAULT: u8 = 0;

/// The greatest number of a convention.
const LAST_CONVENTION: u8 = 5;

/// What a method takes and gives.
#[derive(Drop)]
pub struct Signature {
    /// The type of the result.
    pub result: Place,
    /// The types of the parameters, without `this`.
    pub args: Places,
}

/// The types of a method, as far as the profile has them.
#[derive(Drop)]
pub enum SigTypes {
    /// Each type is in the profile.
    Known(Signature),
    /// A convention, a number of parameters or a type is outside the profile.
    Other,
}

/// The signature of a method.
#[derive(Drop)]
pub struct MethodSig {
    /// The method has a `this`.
    pub has_this: bool,
    /// The method has type parameters.
    pub generic: bool,
    /// What it takes and gives.
    pub types: SigTypes,
}

/// The offset after the convention byte and, of a generic method, the number of its type parameters.
#[tactic(auto, using(crate::proofs::SignatureLaws::stand), unfolding(crate::specs::Signatures::parameters_at))]
fn parameters_at(blob: &[u8], generic: bool) -> Result<u32, SigFault>
    requires { IsShort blob.now }
    ensures exact { result ≡ parameters_at blob.now generic }
    ensures found { IfOk result (λ after. SomeStand (SpellsTypeCount generic) blob.now 1 after) }
    ensures within { IfErr result (λ fault. offset_of fault ≤ length blob.now) }
{
    if !generic {
        return Ok(1);
    }
    let (_, at) = compressed(blob, 1)?;
    Ok(at)
}

/// The number of parameters, the result and the parameters.
#[tactic(auto, using(crate::proofs::SignatureLaws::stand), unfolding(crate::specs::Signatures::signature_at))]
fn signature_at(blob: &[u8], generic: bool) -> Result<Option<Signature>, SigFault>
    requires { IsShort blob.now }
    ensures exact { result ≡ signature_at blob.now generic }
    ensures found { IfOk result (λ found. IfSome found (λ signature.
        StandFrom (SpellsTypes generic signature) blob.now 1)) }
    ensures within { IfErr result (λ fault. offset_of fault ≤ length blob.now) }
{
    let at = parameters_at(blob, generic)?;
    let Some((count, at)) = count_at(blob, at)? else {
        return Ok(None);
    };
    let Some((result, at)) = result_at(blob, at)? else {
        return Ok(None);
    };
    let Some(args) = types_at(blob, at, count)? else {
        return Ok(None);
    };
    Ok(Some(Signature { result, args }))
}

/// The types of a method with this convention byte.
#[tactic(auto, using(crate::proofs::SignatureLaws::stand), unfolding(crate::specs::Signatures::types_of))]
fn types_of(blob: &[u8], convention: u8) -> Result<SigTypes, SigFault>
    requires { IsShort blob.now }
    ensures exact { result ≡ types_of blob.now convention }
    ensures default { IfOk result (λ types. IfKnown types (λ _. convention % 16 ≡ 0)) }
    ensures found { IfOk result (λ types. IfKnown types (λ signature.
        StandFrom (SpellsTypes (is_generic convention) signature) blob.now 1)) }
    ensures within { IfErr result (λ fault. offset_of fault ≤ length blob.now) }
{
    if convention & CONVENTION_MASK != DEFAULT {
        return Ok(SigTypes::Other);
    }
    match signature_at(blob, convention & GENERIC != 0)? {
        Some(signature) => Ok(SigTypes::Known(signature)),
        None => Ok(SigTypes::Other),
    }
}

/// The convention byte and the types.
#[tactic(auto, using(crate::proofs::SignatureLaws::stand), unfolding(crate::specs::Signatures::method_signature))]
fn method_of(blob: &[u8]) -> Result<MethodSig, SigFault>
    requires { IsShort blob.now }
    ensures exact { result ≡ method_signature blob.now }
    ensures within { IfErr result (λ fault. offset_of fault ≤ length blob.now) }
    ensures found { IfOk result (λ method. IfKnown method.types (λ signature.
        Begins (SpellsMethod method.has_this method.generic signature) blob.now)) }
{
    let [convention, ..] = blob else {
        return Err(SigFault::Short(0));
    };
    if convention & CONVENTION_MASK > LAST_CONVENTION {
        return Err(SigFault::Form(0));
    }
    Ok(MethodSig {
        has_this: convention & HASTHIS != 0,
        generic: convention & GENERIC != 0,
        types: types_of(blob, *convention)?,
    })
}

/// The signature of a method that a blob says.
///
/// A convention or a type outside the profile ends the reading, as more than 256 parameters do, and
/// bytes after the last type are not read. A convention byte that names no convention is `Form` at 0,
/// a blob that ends too early `Short` at its end.
pub fn method_sig(blob: &[u8]) -> Result<MethodSig, SigFault>
    requires { IsShort blob.now }
    // What the blob says, or the first fault.
    ensures exact { result ≡ method_signature blob.now }
    // The blob begins with a spelling of the types that are known.
    ensures found { IfOk result (λ method. IfKnown method.types (λ signature.
        Begins (SpellsMethod method.has_this method.generic signature) blob.now)) }
    // A signature whose spelling begins the blob is known.
    ensures only { (this generic : Bool) (signature : Signature) → Begins (SpellsMethod this generic signature) blob.now →
        result ≡ Ok (record { has_this = this; generic = generic; types = SigTypes.Known signature }) }
    // The first fault is in the blob or at its end.
    ensures within { IfErr result (λ fault. offset_of fault ≤ length blob.now) }
{
    method_of(blob)
}
