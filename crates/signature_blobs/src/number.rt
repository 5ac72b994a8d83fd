//! Bytes and compressed numbers at an offset in a blob.

ghost use Rattle.std.specs.Prelude.{◌≡◌, ◌≤◌, ◌+◌, ℕ, List, [], ◌∷◌, length, Ok, IfOk, IfErr, IfSome};
ghost use Rattle.cc_base.specs.Compressed.{SpellsNumber};
ghost use Rattle.cc_base.specs.Slices.{IsShort};
ghost use Rattle.cil_model.specs.Limits as limits;
ghost use Rattle.signature_blobs.specs.Faults.{offset_of};
ghost use Rattle.signature_blobs.specs.Numbers.{compressed_at, count_at};
ghost use Rattle.signature_blobs.specs.Spelling.{Stands, SomeStand};
ghost use Rattle.signature_blobs.specs.Reading.{byte_at};

use crate::fault::SigFault;
use cc_base::{CompressedFault, compressed_number};
use cil_model::MAX_VARIABLES;

/// The byte at an offset.
#[tactic(auto, using(crate::proofs::Standing::byte_stands))]
pub fn byte_at(blob: &[u8], at: u32) -> Result<u8, SigFault>
    requires { IsShort blob.now }
    ensures exact { result ≡ byte_at blob.now at }
    ensures found { IfOk result (λ byte. Stands (byte ∷ []) blob.now at (at + 1)) }
    ensures within { IfErr result (λ fault. offset_of fault ≤ length blob.now) }
{
    match blob.get(at as usize) {
        Some(byte) => Ok(*byte),
        None => Err(SigFault::Short(blob.len() as u32)),
    }
}

/// The compressed number at an offset, without its laws.
#[tactic(auto, unfolding(crate::specs::Numbers::compressed_at))]
fn number_at(blob: &[u8], at: u32) -> Result<(u32, u32), SigFault>
    requires { IsShort blob.now }
    ensures exact { result ≡ compressed_at blob.now at }
    ensures within { IfErr result (λ fault. offset_of fault ≤ length blob.now) }
{
    let start = blob.len().min(at as usize);
    match compressed_number(&blob[start..]) {
        Ok(found) => Ok((found.number, at + found.width)),
        Err(CompressedFault::Cut) => Err(SigFault::Short(blob.len() as u32)),
        Err(CompressedFault::Form) => Err(SigFault::Form(at)),
    }
}

/// The compressed number at an offset, and the offset after it (II.23.2).
///
/// A number that the blob's end cuts is `Short` at the first byte that is not there, which is the
/// blob's length. A first byte that begins no number is `Form` at that byte. A number may stand in
/// more bytes than it needs.
pub fn compressed(blob: &[u8], at: u32) -> Result<(u32, u32), SigFault>
    requires { IsShort blob.now }
    // The number at the offset, or the fault.
    ensures exact { result ≡ compressed_at blob.now at }
    // A spelling of the number stands between the two offsets.
    ensures found { IfOk result (λ number. SomeStand (SpellsNumber number.0) blob.now at number.1) }
    // A number whose spelling stands there is read.
    ensures only { (n after : ℕ) (bytes : List ℕ) → SpellsNumber n bytes → Stands bytes blob.now at after → result ≡ Ok (n, after) }
    ensures within { IfErr result (λ fault. offset_of fault ≤ length blob.now) }
{
    number_at(blob, at)
}

/// A number of parameters or locals at an offset, and the offset after it. None where they are more
/// than a signature keeps.
#[tactic(auto, unfolding(crate::specs::Numbers::count_at))]
pub fn count_at(blob: &[u8], at: u32) -> Result<Option<(u32, u32)>, SigFault>
    requires { IsShort blob.now }
    ensures exact { result ≡ count_at blob.now at }
    ensures within { IfErr result (λ fault. offset_of fault ≤ length blob.now) }
    ensures room { IfOk result (λ found. IfSome found (λ count. count.0 ≤ limits.MAX_VARIABLES)) }
    ensures found { IfOk result (λ found. IfSome found (λ count.
        SomeStand (SpellsNumber count.0) blob.now at count.1)) }
{
    let (count, after) = compressed(blob, at)?;
    if count as usize > MAX_VARIABLES {
        return Ok(None);
    }
    Ok(Some((count, after)))
}
