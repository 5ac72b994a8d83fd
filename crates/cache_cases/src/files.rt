//! Bytes that a case tells, and what reading a file of them gives.

ghost use Rattle.std.specs.Prelude.{◌≤◌, length, IfOk};

use case_reader::bytes_of_hex;
use cc_base::{NoMemory, Refusal, put_hex};
use result_cache::{Cache, CacheFault};
use rule_text::Failure;
use std::alloc::{AllocError, Global};

/// The most bytes that a case tells.
const MOST_BYTES: usize = 65_536;

/// The bytes that a case tells in hexadecimal digits, or `-` for none.
pub fn told_bytes(alloc: Global, hex: &str) -> Result<Vec<u8>, Failure>
    ensures few { IfOk result (λ bytes. length bytes.items ≤ 65536) }
{
    if hex == "-" {
        return Ok(Vec::new(alloc));
    }
    let Some(bytes) = bytes_of_hex(alloc, hex)? else {
        return Err(Failure::Unread("bytes"));
    };
    if bytes.len() > MOST_BYTES {
        return Err(Failure::Unread("fewer bytes"));
    }
    Ok(bytes)
}

/// A fault that has an offset, as a case tells it.
fn text_at(alloc: Global, name: &[u8], at: u32) -> Result<Vec<u8>, NoMemory> {
    let mut text = Vec::from_slice(alloc, name)?;
    put_hex(alloc, &mut text, at, 8)?;
    Ok(text)
}

/// A fault as a case tells it: its name, and its offset where it has one.
fn fault_text(alloc: Global, fault: CacheFault) -> Result<Vec<u8>, NoMemory> {
    match fault {
        CacheFault::Version => Vec::from_slice(alloc, b"version"),
        CacheFault::Short(at) => text_at(alloc, b"short ", at),
        CacheFault::Form(at) => text_at(alloc, b"form ", at),
        CacheFault::Large => Vec::from_slice(alloc, b"too large"),
    }
}

/// What reading a file gives, as a case tells it: `ok`, or the fault.
pub fn reading(alloc: Global, bytes: &[u8]) -> Result<Vec<u8>, NoMemory> {
    match Cache::read(alloc, bytes) {
        Ok(_) => Vec::from_slice(alloc, b"ok"),
        Err(Refusal::Bad(fault)) => fault_text(alloc, fault),
        Err(Refusal::NoMemory) => Err(AllocError),
    }
}

/// The cache of a file.
pub fn read_cache(alloc: Global, bytes: &[u8]) -> Result<Cache, Failure> {
    match Cache::read(alloc, bytes) {
        Ok(cache) => Ok(cache),
        Err(_) => Err(Failure::Unmet("the file is read")),
    }
}
