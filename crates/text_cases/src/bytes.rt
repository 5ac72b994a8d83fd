//! The bytes of states, read and written.

ghost use Rattle.std.specs.Prelude.{◌≤◌, length, IfOk};

use abs_state::{AbsState, Invariant};
use case_reader::bytes_of_hex;
use cc_base::{Refusal, put_hex};
use invariant_codec::{InvFault, invariant_bytes, read_invariant};
use rule_text::{Failure, asked, check, check_yes};
use std::alloc::{AllocError, Global};

/// The most bytes that a case tells.
const MOST_BYTES: usize = 65_536;

/// The bytes that a case tells.
fn told_bytes(alloc: Global, hex: &str) -> Result<Vec<u8>, Failure>
    ensures few { IfOk result (λ bytes. length bytes.items ≤ 65536) }
{
    let Some(bytes) = bytes_of_hex(alloc, hex)? else {
        return Err(Failure::Unread("bytes"));
    };
    if bytes.len() > MOST_BYTES {
        return Err(Failure::Unread("fewer bytes"));
    }
    Ok(bytes)
}

/// A fault as a case tells it: its name, and its offset.
fn fault_text(alloc: Global, fault: InvFault) -> Result<Vec<u8>, AllocError> {
    let (name, at) = match fault {
        InvFault::Short(at) => (b"short ".as_slice(), at),
        InvFault::Form(at) => (b"form ".as_slice(), at),
    };
    let mut text = Vec::from_slice(alloc, name)?;
    put_hex(alloc, &mut text, at, 8)?;
    Ok(text)
}

/// What reading bytes gives, as a case tells it: `ok` where they are those of states, which are written so again.
fn reading(alloc: Global, bytes: &[u8]) -> Result<Vec<u8>, AllocError>
    requires short { length bytes.now ≤ 65536 }
{
    match read_invariant(alloc, bytes) {
        Ok(invariant) => {
            let again = invariant_bytes(alloc, &invariant)?;
            let is_same = again.as_slice() == bytes;
            Vec::from_slice(alloc, if is_same { b"ok" } else { b"other bytes" })
        }
        Err(Refusal::Bad(fault)) => fault_text(alloc, fault),
        Err(Refusal::NoMemory) => Err(AllocError),
    }
}

/// `read HEX = ok`, or the fault, as `short 00000003` or `form 00000002`: what reading these bytes gives.
pub fn test_reading(alloc: Global, argument: &str) -> Result<(), Failure> {
    let (hex, told) = asked(argument)?;
    let bytes = told_bytes(alloc, hex)?;
    match String::from_utf8(reading(alloc, &bytes)?) {
        Ok(found) => check(found, told),
        Err(_) => Err(Failure::Unread("a text")),
    }
}

/// The invariant that bytes spell, if they spell any.
fn invariant_told(alloc: Global, bytes: &[u8]) -> Result<Option<Invariant>, AllocError>
    requires short { length bytes.now ≤ 65536 }
{
    match read_invariant(alloc, bytes) {
        Ok(invariant) => Ok(Some(invariant)),
        Err(Refusal::Bad(_)) => Ok(None),
        Err(Refusal::NoMemory) => Err(AllocError),
    }
}

/// Returns whether these are the same states.
fn are_same(states: &[AbsState], others: &[AbsState]) -> bool {
    if states.len() != others.len() {
        return false;
    }
    for place in 0..states.len() {
        let Some(other) = others.get(place) else {
            return false;
        };
        if !states[place].same(other) {
            return false;
        }
    }
    true
}

/// `bytes HEX`: the bytes of these states: they are read of them, and what is read is written so.
pub fn test_bytes(alloc: Global, states: &[AbsState], hex: &str) -> Result<(), Failure> {
    let told = told_bytes(alloc, hex)?;
    let is_read = match invariant_told(alloc, &told)? {
        Some(read) => are_same(&read.states, states),
        None => false,
    };
    let found = reading(alloc, &told)?;
    check_yes(
        alloc,
        is_read && found.as_slice() == b"ok".as_slice(),
        "yes",
    )
}
