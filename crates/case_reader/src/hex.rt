//! Bytes as hexadecimal text.

use std::alloc::{AllocError, Global};

/// The most copies of a byte that `*` makes: no file of a case is larger than those that the program reads.
const MOST_COPIES: usize = 67_108_865;

/// The bytes of a text of pairs of hexadecimal digits. Blanks may stand between pairs, and `*N` after a pair puts that
/// byte N times in place of once. `None` where the text is none of these.
pub fn bytes_of_hex(alloc: Global, text: &str) -> Result<Option<Vec<u8>>, AllocError> {
    let mut bytes = Vec::with_capacity(alloc, text.len() / 2)?;
    for group in text.split(' ') {
        if !append_group(&mut bytes, group)? {
            return Ok(None);
        }
    }
    Ok(Some(bytes))
}

/// Appends the bytes of pairs of digits, of which the last may be repeated. Answers whether the text is of that form.
fn append_group(bytes: &mut Vec<u8>, group: &str) -> Result<bool, AllocError> {
    let (pairs, copies) = match group.split_once('*') {
        None => (group, 1),
        Some((pairs, count)) => match count.parse::<usize>() {
            Ok(copies) if copies <= MOST_COPIES => (pairs, copies),
            _ => return Ok(false),
        },
    };
    if !append_pairs(bytes, pairs.as_bytes())? {
        return Ok(false);
    }
    if copies != 1 {
        let Some(last) = bytes.pop() else {
            return Ok(false);
        };
        for _ in 0..copies {
            bytes.push(last)?;
        }
    }
    Ok(true)
}

/// Appends the bytes of pairs of digits. Answers whether the text is of that form.
fn append_pairs(bytes: &mut Vec<u8>, digits: &[u8]) -> Result<bool, AllocError> {
    for pair in digits.chunks(2) {
        match pair {
            [high, low] => match (digit(*high), digit(*low)) {
                (Some(high), Some(low)) => bytes.push(high << 4 | low)?,
                _ => return Ok(false),
            },
            _ => return Ok(false),
        }
    }
    Ok(true)
}

/// The value of a hexadecimal digit.
pub fn digit(byte: u8) -> Option<u8> {
    match byte {
        b'0'..=b'9' => Some(byte - b'0'),
        b'a'..=b'f' => Some(byte - b'a' + 10),
        b'A'..=b'F' => Some(byte - b'A' + 10),
        _ => None,
    }
}
