//! The texts of answers.

use cc_base::Token;
use cil_model::World;
use std::alloc::{AllocError, Global};
use unit_builder::{MethodEntry, Outcome};

/// Bytes as pairs of hexadecimal digits.
pub fn hex_text(alloc: Global, bytes: &[u8]) -> Result<String, AllocError> {
    let mut text = String::new(alloc);
    for byte in bytes {
        write!(text, "{byte:02x}")?;
    }
    Ok(text)
}

/// Appends a printed name.
fn append_name(text: &mut String, name: &[u8]) -> Result<(), AllocError> {
    for byte in name {
        text.push(char::from(*byte))?;
    }
    Ok(())
}

/// Appends `06000001 N.C::f(int32) unit`, or in place of `unit` the reason why there is none.
fn append_entry(text: &mut String, entry: &MethodEntry) -> Result<(), AllocError> {
    write!(text, "{:08x} ", entry.token.0)?;
    append_name(text, entry.name.as_slice())?;
    match &entry.outcome {
        Outcome::Analysed(_) => text.push_str(" unit"),
        Outcome::Skipped(reason) => write!(text, " {reason:?}"),
    }
}

/// The text of entries, in their order, or `none`.
pub fn entries_text(alloc: Global, entries: &[MethodEntry]) -> Result<String, AllocError> {
    let mut text = String::new(alloc);
    for entry in entries {
        if !text.is_empty() {
            text.push_str(" | ")?;
        }
        append_entry(&mut text, entry)?;
    }
    if text.is_empty() {
        text.push_str("none")?;
    }
    Ok(text)
}

/// The text of tokens, in their order, or `none`.
pub fn tokens_text(alloc: Global, tokens: &[Token]) -> Result<String, AllocError> {
    let mut text = String::new(alloc);
    for token in tokens {
        if !text.is_empty() {
            text.push_str(" ")?;
        }
        write!(text, "{:08x}", token.0)?;
    }
    if text.is_empty() {
        text.push_str("none")?;
    }
    Ok(text)
}

/// Appends numbers, each after a blank.
fn append_indexes(text: &mut String, indexes: &[u32]) -> Result<(), AllocError> {
    for index in indexes {
        write!(text, " {index}")?;
    }
    Ok(())
}

/// The text of a world.
pub fn world_text(alloc: Global, world: &World) -> Result<String, AllocError> {
    let mut text = String::new(alloc);
    for (unit, callees) in world.units.as_slice().iter().zip(world.callee.as_slice()) {
        if !text.is_empty() {
            text.push_str(" | ")?;
        }
        append_name(&mut text, unit.name.as_slice())?;
        append_indexes(&mut text, callees.as_slice())?;
    }
    Ok(text)
}
