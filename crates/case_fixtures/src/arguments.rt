//! The arguments of the lines of a case.

use crate::wrong::{Stop, stop_at};
use case_reader::{Field, bytes_of_hex, bytes_of_text};
use std::alloc::Global;
use std::str::from_utf8;

/// The two parts of a line's argument, around its first blank.
pub fn two_parts<'a>(alloc: Global, field: Field<'a>) -> Result<(&'a str, &'a str), Stop> {
    match field.argument.split_once(' ') {
        Some(parts) => Ok(parts),
        None => Err(stop_at(alloc, field.line, "an argument is missing")),
    }
}

/// A name and what follows its blank, which is nothing where no blank follows.
pub fn name_and_rest<'a>(field: Field<'a>) -> (&'a str, &'a str) {
    field
        .argument
        .split_once(' ')
        .unwrap_or((field.argument, ""))
}

/// The bytes of a text of hexadecimal digits. Those in brackets stand after their number, which has four bytes.
pub fn bytes_of(alloc: Global, line: u64, text: &str) -> Result<Vec<u8>, Stop> {
    let Some((before, rest)) = text.split_once('[') else {
        return spelled_bytes(alloc, line, text);
    };
    let mut bytes = spelled_bytes(alloc, line, before)?;
    for part in rest.split('[') {
        append_sized(alloc, &mut bytes, line, part)?;
    }
    Ok(bytes)
}

/// Appends the bytes before a closing bracket, after their number, and those behind it.
fn append_sized(alloc: Global, bytes: &mut Vec<u8>, line: u64, text: &str) -> Result<(), Stop> {
    let Some((sized, rest)) = text.split_once(']') else {
        return Err(stop_at(alloc, line, "a bracket that is not closed"));
    };
    let sized = spelled_bytes(alloc, line, sized)?;
    let rest = spelled_bytes(alloc, line, rest)?;
    bytes.extend_from_slice(&(sized.len() as u64).to_le_bytes()[..4])?;
    bytes.extend_from_slice(&sized)?;
    bytes.extend_from_slice(&rest)?;
    Ok(())
}

/// The bytes that hexadecimal text spells.
fn spelled_bytes(alloc: Global, line: u64, text: &str) -> Result<Vec<u8>, Stop> {
    match bytes_of_hex(alloc, text)? {
        Some(bytes) => Ok(bytes),
        None => Err(stop_at(alloc, line, "not hexadecimal")),
    }
}

/// The bytes of a text, in which a backslash and two digits stand for a byte.
pub fn text_of(alloc: Global, line: u64, text: &str) -> Result<Vec<u8>, Stop> {
    match bytes_of_text(alloc, text)? {
        Some(bytes) => Ok(bytes),
        None => Err(stop_at(alloc, line, "a backslash without two hexadecimal digits")),
    }
}

/// Appends the bytes of a text, and a line feed.
pub fn append_line(alloc: Global, bytes: &mut Vec<u8>, line: u64, text: &str) -> Result<(), Stop> {
    bytes.extend_from_slice(&text_of(alloc, line, text)?)?;
    bytes.push(b'\n')?;
    Ok(())
}

/// A name or a word of the program.
pub fn word_of(alloc: Global, line: u64, text: &str) -> Result<String, Stop> {
    let bytes = text_of(alloc, line, text)?;
    match from_utf8(&bytes) {
        Ok(word) => Ok(String::from_str(alloc, word)?),
        Err(_) => Err(stop_at(alloc, line, "a word that is not UTF-8")),
    }
}

/// A decimal number.
pub fn number_of(alloc: Global, line: u64, text: &str) -> Result<usize, Stop> {
    match text.parse::<usize>() {
        Ok(number) => Ok(number),
        Err(_) => Err(stop_at(alloc, line, "not a number")),
    }
}

/// A decimal number of a byte.
pub fn small_number_of(alloc: Global, line: u64, text: &str) -> Result<u8, Stop> {
    match text.parse::<u8>() {
        Ok(number) => Ok(number),
        Err(_) => Err(stop_at(alloc, line, "not a number of a byte")),
    }
}

/// A decimal number of two bytes.
pub fn short_number_of(alloc: Global, line: u64, text: &str) -> Result<u16, Stop> {
    match text.parse::<u16>() {
        Ok(number) => Ok(number),
        Err(_) => Err(stop_at(alloc, line, "not a number of two bytes")),
    }
}
