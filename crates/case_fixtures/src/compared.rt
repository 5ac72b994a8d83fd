//! Where two texts differ.

use std::alloc::{AllocError, Global};

/// What a stream has in place of what it must have: the first line that differs, in both.
pub fn difference(
    alloc: Global,
    stream: &str,
    wanted: &[u8],
    found: &[u8],
) -> Result<String, AllocError> {
    let mut number = 1u64;
    let mut wanted = wanted.split(|it| *it == b'\n');
    let mut found = found.split(|it| *it == b'\n');
    for _ in 0..u64::MAX {
        let (want, have) = (wanted.next(), found.next());
        if want != have || want.is_none() {
            let want = shown(alloc, want)?;
            let have = shown(alloc, have)?;
            return format!(in alloc; "{stream} line {number} is {have} and must be {want}");
        }
        number = number.saturating_add(1);
    }
    format!(in alloc; "{stream} differs")
}

/// A line as text, or that there is none.
fn shown(alloc: Global, line: Option<&[u8]>) -> Result<String, AllocError> {
    match line {
        None => String::from_str(alloc, "missing"),
        Some(bytes) => match std::str::from_utf8(bytes) {
            Ok(text) => format!(in alloc; "{text:?}"),
            Err(_) => format!(in alloc; "{bytes:?}"),
        },
    }
}
