//! Bytes that a case tells, and what reading a proof file of them gives.

use case_reader::bytes_of_hex;
use cc_base::{NoMemory, Refusal, put_hex, put_number};
use proof_files::{ProofEntry, ProofFault, proof_bytes, read_proof};
use rule_text::Failure;
use std::alloc::{AllocError, Global};

/// The bytes that a case tells in hexadecimal digits, or `-` for none.
pub fn told_bytes(alloc: Global, hex: &str) -> Result<Vec<u8>, Failure> {
    if hex == "-" {
        return Ok(Vec::new(alloc));
    }
    bytes_of_hex(alloc, hex)?.ok_or(Failure::Unread("bytes"))
}

/// The first line of a proof file, and then zeros up to so many bytes.
pub fn filled_bytes(alloc: Global, count: usize) -> Result<Vec<u8>, NoMemory> {
    let mut bytes = Vec::with_capacity(alloc, count)?;
    bytes.extend_from_slice(b"cccheck proof 1\n")?;
    for _ in bytes.len()..count {
        bytes.push(0)?;
    }
    Ok(bytes)
}

/// A fault as a case tells it: its name, and its offset where it has one.
fn fault_text(alloc: Global, fault: ProofFault) -> Result<Vec<u8>, NoMemory> {
    match fault {
        ProofFault::Version => Vec::from_slice(alloc, b"version"),
        ProofFault::Form(at) => {
            let mut text = Vec::from_slice(alloc, b"form ")?;
            put_hex(alloc, &mut text, at, 8)?;
            Ok(text)
        }
        ProofFault::Large => Vec::from_slice(alloc, b"too large"),
    }
}

/// Entries as a case tells them: their number, and whether they are written as the bytes of which they were read.
fn entries_text(alloc: Global, entries: &[ProofEntry], again: bool) -> Result<Vec<u8>, NoMemory> {
    let mut text = Vec::from_slice(alloc, b"ok ")?;
    put_number(alloc, &mut text, entries.len() as i64)?;
    if !again {
        text.extend_from_slice(b", written otherwise")?;
    }
    Ok(text)
}

/// What reading a file gives, as a case tells it: `ok` and the number of its entries, or the fault.
pub fn reading(alloc: Global, bytes: &[u8]) -> Result<Vec<u8>, NoMemory> {
    match read_proof(alloc, bytes) {
        Ok(entries) => {
            let written = proof_bytes(alloc, &entries)?;
            entries_text(alloc, &entries, written.as_slice() == bytes)
        }
        Err(Refusal::Bad(fault)) => fault_text(alloc, fault),
        Err(Refusal::NoMemory) => Err(AllocError),
    }
}
