//! Proof files, read.

ghost use Rattle.std.specs.Prelude.{◌≡◌, ◌≤◌, ℕ, List, length, option_map, IfErr, IfOk};
ghost use Rattle.cc_base.specs.Tests.{GivesOnly};
ghost use Rattle.proof_files.specs.Held.{entries_held, entries_told};
ghost use Rattle.proof_files.specs.Proofs.{Entry, IsProofOf};
ghost use Rattle.proof_files.specs.Reading.{IsFaultOf, IsProofRead, IsRefusalOf, ProofRead};
ghost use Rattle.proof_files.specs.Steps.{BeginsProof, IsBehindFirst};
ghost use Rattle.proof_files.specs.declared.proof_fault.ProofFault.TheVariants.{Form};

use crate::cuts::find_end;
use crate::known_entries::KnownEntries;
use crate::proof_entry::ProofEntry;
use crate::proof_fault::{ProofFault, ProofRefusal};
use crate::{FIRST_LINE, MAX_PROOF_BYTES};
use std::alloc::Global;

/// What stands behind the first line of a proof file.
fn behind_first_line(bytes: &[u8]) -> Option<&[u8]>
    ensures { IsBehindFirst bytes.now (option_map (λ rest. rest.now) result) }
{
    bytes.strip_prefix(FIRST_LINE)
}

/// The entries of a proof file behind its first line.
fn read_entries(alloc: Global, bytes: &[u8]) -> Result<KnownEntries, ProofRefusal>
    requires size { length bytes.now ≤ 67108864 }
    requires begins { BeginsProof bytes.now }
    ensures ok { IfOk result (λ known. IsProofOf (entries_held known) bytes.now) }
    ensures err { IfErr result (IsRefusalOf bytes.now) }
{
    let mut known = KnownEntries::none(alloc);
    let mut at = FIRST_LINE.len();
    while at < bytes.len() {
        let rest = &bytes[at..];
        let Some(end) = find_end(rest) else {
            return Err(ProofFault::Form(bytes.len() as u32).into());
        };
        if !known.read_next(alloc, &rest[..end])? {
            return Err(ProofFault::Form(at as u32).into());
        }
        at += end + 4;
    }
    Ok(known)
}

/// The entries of a proof file.
fn read_known(alloc: Global, bytes: &[u8]) -> Result<KnownEntries, ProofRefusal>
    ensures ok { IfOk result (λ known. IsProofOf (entries_held known) bytes.now) }
    ensures err { IfErr result (IsRefusalOf bytes.now) }
{
    if bytes.len() > MAX_PROOF_BYTES {
        return Err(ProofFault::Large.into());
    }
    match behind_first_line(bytes) {
        Some(_behind) => read_entries(alloc, bytes),
        None => Err(ProofFault::Version.into()),
    }
}

/// The same, without the bytes of units.
fn read_all(alloc: Global, bytes: &[u8]) -> Result<Vec<ProofEntry>, ProofRefusal>
    ensures ok { IfOk result (λ entries. IsProofOf (entries_told entries.items) bytes.now) }
    ensures err { IfErr result (IsRefusalOf bytes.now) }
{
    let known = read_known(alloc, bytes)?;
    Ok(known.entries)
}

/// The entries of a proof file. The bytes are the whole text of them, up to the last byte.
///
/// # Errors
///
/// The first fault of the bytes. `Large`: there are more than 67,108,864. `Version`: they begin with another line than
/// the first one of a proof file. `Form`: the text that begins there, up to the next line `end`, is not that of a unit
/// in the second or the third form and of an invariant of its shape, or a unit of the same bytes stands before it.
/// Where text without such a line is left behind the last entry, `Form` names the end of the file. `NoMemory` where
/// memory runs out.
///
/// Cost: linear in the number of bytes, but for what it costs to read units and to find their graphs. No number of the
/// text takes memory. The bytes of units are held beside the entries until the last is read.
pub fn read_proof(alloc: Global, bytes: &[u8]) -> Result<Vec<ProofEntry>, ProofRefusal>
    // What is read is what the bytes are the text of.
    ensures ok { IfOk result (λ entries. IsProofOf (entries_told entries.items) bytes.now) }
    ensures err { IfErr result (IsRefusalOf bytes.now) }
    // No byte string has two readings.
    ensures one { (a b : ProofRead) → IsProofRead bytes.now a → IsProofRead bytes.now b → a ≡ b }
    // The text of entries is read, unless memory runs out.
    ensures only { (entries : List Entry) → IsProofOf entries bytes.now → GivesOnly result
        (λ read. entries_told read.items ≡ entries) }
    // A fault stands in the bytes, or at their end.
    ensures within { (at : ℕ) → IsFaultOf bytes.now (Form at) → at ≤ length bytes.now }
{
    read_all(alloc, bytes)
}
