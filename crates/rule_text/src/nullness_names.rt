//! The words of what is known of whether a reference is null.

use crate::failure::Failure;
use alias_facts::Nullness;

/// What is known of a reference, by its name.
pub fn nullness(name: &str) -> Result<Nullness, Failure> {
    match name {
        "may-be-null" => Ok(Nullness::May),
        "not-null" => Ok(Nullness::NotNull),
        "null" => Ok(Nullness::Null),
        _ => Err(Failure::Unread("what is known of a reference")),
    }
}

/// The name of what is known of a reference.
pub fn nullness_name(known: Nullness) -> &'static str {
    match known {
        Nullness::May => "may-be-null",
        Nullness::NotNull => "not-null",
        Nullness::Null => "null",
    }
}
