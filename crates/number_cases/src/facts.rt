//! The text of what is known of numbers.

use number_facts::{Definitions, Numbers};
use pentagon_domain::Bounds;
use rule_text::{
    Fact, Failure, add_range, append_bounds, append_definitions, append_ranges, read_fact,
};
use std::alloc::{AllocError, Global};

/// Nothing is known.
pub fn nothing(alloc: Global) -> Numbers {
    Numbers {
        ranges: Vec::new(alloc),
        definitions: Definitions::new(alloc),
        bounds: Bounds::new(alloc),
    }
}

/// Adds the fact of a text.
fn add_fact(numbers: &mut Numbers, text: &str) -> Result<(), Failure> {
    match read_fact(text)? {
        Fact::Range(s, range) => add_range(&mut numbers.ranges, s, range)?,
        Fact::Bound(row) => numbers.bounds.add_bound(row.s, row.t, row.k)?,
        Fact::Definition(s, def) => numbers.definitions.push(s, def)?,
    }
    Ok(())
}

/// What a text tells, each fact behind a `;`. `none` where there is none.
pub fn facts(alloc: Global, text: &str) -> Result<Numbers, Failure> {
    let mut numbers = nothing(alloc);
    if text == "none" {
        return Ok(numbers);
    }
    for text in text.split(';') {
        add_fact(&mut numbers, text.trim())?;
    }
    Ok(numbers)
}

/// The text of what is known: ranges, then bounds, then definitions.
pub fn facts_text(alloc: Global, numbers: &Numbers) -> Result<String, AllocError> {
    let mut text = String::new(alloc);
    append_ranges(&mut text, numbers.ranges.as_slice())?;
    append_bounds(&mut text, numbers.bounds.rows())?;
    append_definitions(&mut text, numbers.definitions.rows())?;
    if text.is_empty() {
        text.push_str("none")?;
    }
    Ok(text)
}
