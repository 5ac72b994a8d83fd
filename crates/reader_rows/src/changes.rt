//! Bytes that are made of others.

use std::alloc::{AllocError, Global};
use std::process::Abort;

/// Bytes to stand at an offset.
pub type Change = (usize, &'static [u8]);

/// Puts other bytes at an offset of the file, where it has room for them there, and tells whether it has.
pub fn put(file: &mut [u8], at: usize, bytes: &[u8]) -> bool {
    let is_there = at <= file.len() && bytes.len() <= file.len() - at;
    if is_there {
        file[at..at + bytes.len()].copy_from_slice(bytes);
    }
    is_there
}

/// Makes all changes, one after another.
pub fn change(rt: &impl Abort, file: &mut [u8], changes: &[Change]) {
    for (at, bytes) in changes {
        assert!(rt; put(file, *at, bytes), "no room at {at}");
    }
}

/// So many zeros with these changes.
pub fn zeros_with(
    rt: &impl Abort,
    alloc: Global,
    length: usize,
    changes: &[Change],
) -> Result<Vec<u8>, AllocError> {
    let mut file = vec![in alloc; 0; length]?;
    change(rt, &mut file, changes);
    Ok(file)
}
