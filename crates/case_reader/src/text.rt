//! Bytes as text.

use crate::hex::digit;
use std::alloc::{AllocError, Global};

/// The bytes of a text, where a backslash and two hexadecimal digits stand for a byte: `\5c` for a backslash, `\0a` for
/// a line feed. `None` where other characters follow a backslash.
pub fn bytes_of_text(alloc: Global, text: &str) -> Result<Option<Vec<u8>>, AllocError> {
    let mut bytes = Vec::with_capacity(alloc, text.len())?;
    let mut rest = text.as_bytes().iter();
    while let Some(byte) = rest.next() {
        if *byte != b'\\' {
            bytes.push(*byte)?;
            continue;
        }
        let high = rest.next().and_then(|it| digit(*it));
        let low = rest.next().and_then(|it| digit(*it));
        match (high, low) {
            (Some(high), Some(low)) => bytes.push(high << 4 | low)?,
            _ => return Ok(None),
        }
    }
    Ok(Some(bytes))
}
