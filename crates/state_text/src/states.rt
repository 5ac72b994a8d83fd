//! The text of states.

use abs_state::{AbsState, Contents, Parts, Reference, Segs, Var};
use cil_model::Place;
use domain_api::{Expr, Values};
use interval_domain::Range;
use rule_text::{
    Fact, Failure, add_range, append_bounds, append_definitions, append_number, append_ranges,
    append_reference, append_segments, expr, nullness, nullness_name, operand, place, read_fact,
    reference, segments, separate_fact,
};
use std::alloc::{AllocError, Global};

/// Whether a word is one of a reference.
fn is_reference(word: &str) -> bool {
    word == "null" || word.starts_with('r')
}

/// The reference and the index in the word of an address, as `r1[s2+1]`.
fn address_words(word: &str) -> Option<(&str, &str)> {
    word.strip_suffix(']')?.split_once('[')
}

/// The value of a word: a number, a reference, an address, or `text`.
pub fn value(word: &str) -> Result<Var, Failure> {
    if word == "text" {
        return Ok(Var::Text);
    }
    if let Some((r, index)) = address_words(word) {
        return Ok(Var::Address(reference(r)?, expr(index)?));
    }
    if is_reference(word) {
        return Ok(Var::Reference(reference(word)?));
    }
    Ok(Var::Number(expr(word)?))
}

/// The number of a word. A range is a new symbol.
fn number(parts: &mut Parts, word: &str) -> Result<Expr, Failure> {
    match operand(&mut parts.ranges, word)? {
        Some(e) => Ok(e),
        None => Err(Failure::Unread("a variable")),
    }
}

/// What the word of a variable stands for. A range is a new symbol.
fn variable(parts: &mut Parts, word: &str) -> Result<Var, Failure> {
    if let Some((r, index)) = address_words(word) {
        return Ok(Var::Address(reference(r)?, number(parts, index)?));
    }
    if word == "text" || is_reference(word) {
        return value(word);
    }
    Ok(Var::Number(number(parts, word)?))
}

/// Reads the variables of a state.
fn read_variables(parts: &mut Parts, text: &str) -> Result<(), Failure> {
    if text.trim().is_empty() {
        return Err(Failure::Unread("a state"));
    }
    for word in text.split_whitespace() {
        match word {
            "unreachable" => parts.reached = false,
            "empty" => {}
            _ => {
                let v = variable(parts, word)?;
                parts.variables.push(v)?;
            }
        }
    }
    Ok(())
}

/// What is known of the next reference: `r1 is int32[] not-null length s1`.
fn next_reference(count: usize, text: &str) -> Result<Reference, Failure> {
    let mut words = text.split_whitespace();
    let (Some(r), Some("is"), Some(of), Some(known), Some("length"), Some(length), None) = (
        words.next(),
        words.next(),
        words.next(),
        words.next(),
        words.next(),
        words.next(),
        words.next(),
    ) else {
        return Err(Failure::Unread("what is known of a reference"));
    };
    let r = reference(r)?;
    if r == 0 || r as usize - 1 != count {
        return Err(Failure::Unread("the next reference"));
    }
    Ok(Reference {
        place: place(of).ok_or(Failure::Unread("a type"))?,
        nullness: nullness(known)?,
        length: expr(length)?,
    })
}

/// All that an item of an array of this type may be.
fn all_items(place: Place) -> Range {
    match (place, Range::new(0, 255)) {
        (Place::Bools, Some(bytes)) => bytes,
        _ => Range::full(),
    }
}

/// The segments of an array of whose items nothing is known.
fn unknown_segments(alloc: Global, place: Place, length: Expr) -> Result<Segs<Range>, AllocError> {
    Segs::whole(alloc, length, all_items(place), true)
}

/// Adds the next reference, with its segments where these are told: `r1 is int32[] not-null length s1 {0} 0..9 {s1}`.
fn add_reference(parts: &mut Parts, text: &str) -> Result<(), Failure> {
    let (text, told) = match text.split_once('{') {
        None => (text, None),
        Some((text, told)) => (text, Some(told)),
    };
    let next = next_reference(parts.references.len(), text)?;
    let alloc = *parts.references.allocator();
    let segs = match told {
        None => unknown_segments(alloc, next.place, next.length)?,
        Some(told) => segments(alloc, told)?,
    };
    parts.contents.segments.push(segs)?;
    parts.references.push(next)?;
    Ok(())
}

/// Adds a fact: one of symbols, what is known of a reference, or `r1 apart r2`.
fn add_fact(parts: &mut Parts, text: &str) -> Result<(), Failure> {
    if let Some((r, q)) = text.split_once(" apart ") {
        parts.apart.push((reference(r)?, reference(q)?))?;
        return Ok(());
    }
    if text.starts_with('r') {
        return add_reference(parts, text);
    }
    match read_fact(text)? {
        Fact::Range(s, range) => add_range(&mut parts.ranges, s, range)?,
        Fact::Bound(row) => parts.bounds.push(row)?,
        Fact::Definition(s, def) => parts.definitions.push((s, def))?,
    }
    Ok(())
}

/// No list has anything.
fn nothing_listed(alloc: Global) -> Parts {
    Parts {
        reached: true,
        variables: Vec::new(alloc),
        ranges: Vec::new(alloc),
        definitions: Vec::new(alloc),
        bounds: Vec::new(alloc),
        references: Vec::new(alloc),
        apart: Vec::new(alloc),
        contents: Contents::new(alloc),
    }
}

/// Adds facts, each behind a `;`.
fn add_facts(parts: &mut Parts, facts: &str) -> Result<(), Failure> {
    for fact in facts.split(';') {
        add_fact(parts, fact.trim())?;
    }
    Ok(())
}

/// Adds what a text tells.
fn read_parts(parts: &mut Parts, text: &str) -> Result<(), Failure> {
    match text.split_once(';') {
        None => read_variables(parts, text),
        Some((variables, facts)) => {
            read_variables(parts, variables)?;
            add_facts(parts, facts)
        }
    }
}

/// The lists that a text tells: variables, then facts, each behind a `;`. They may be those of no state.
pub fn parts(alloc: Global, text: &str) -> Result<Parts, Failure> {
    let mut parts = nothing_listed(alloc);
    read_parts(&mut parts, text)?;
    Ok(parts)
}

/// The state of a text.
pub fn state(alloc: Global, text: &str) -> Result<AbsState, Failure> {
    let parts = parts(alloc, text)?;
    match AbsState::of_parts(alloc, &parts)? {
        Some(state) => Ok(state),
        None => Err(Failure::Unread("a state")),
    }
}

/// Appends the address of an item.
fn append_address(text: &mut String, r: u32, index: Expr) -> Result<(), AllocError> {
    append_reference(text, r)?;
    text.push('[')?;
    append_number(text, index)?;
    text.push(']')
}

/// Appends what a variable has.
pub fn append_value(text: &mut String, v: Var) -> Result<(), AllocError> {
    match v {
        Var::Number(e) => append_number(text, e),
        Var::Reference(r) => append_reference(text, r),
        Var::Text => text.push_str("text"),
        Var::Address(r, index) => append_address(text, r, index),
    }
}

/// Appends what each variable has.
fn append_variables(text: &mut String, variables: &[Var]) -> Result<(), AllocError> {
    if variables.is_empty() {
        text.push_str("empty")?;
    }
    for (index, v) in variables.iter().enumerate() {
        if index > 0 {
            text.push(' ')?;
        }
        append_value(text, *v)?;
    }
    Ok(())
}

/// The name of a type.
fn place_name(place: Place) -> &'static str {
    match place {
        Place::Void => "void",
        Place::Bool => "bool",
        Place::Int => "int32",
        Place::Bools => "bool[]",
        Place::Ints => "int32[]",
    }
}

/// The text of segments.
fn segments_text(alloc: Global, segs: &Segs<Range>) -> Result<String, AllocError> {
    let mut text = String::new(alloc);
    append_segments(&mut text, segs)?;
    Ok(text)
}

/// Whether segments tell nothing of the items of an array.
fn tell_nothing(alloc: Global, known: &Reference, segs: &Segs<Range>) -> Result<bool, AllocError> {
    let unknown = unknown_segments(alloc, known.place, known.length)?;
    let unknown = segments_text(alloc, &unknown)?;
    Ok(segments_text(alloc, segs)? == unknown)
}

/// Appends the segments of a reference, unless they are those of an array of whose items nothing is known.
fn append_contents(
    alloc: Global,
    text: &mut String,
    known: &Reference,
    segs: &Segs<Range>,
) -> Result<(), AllocError> {
    if tell_nothing(alloc, known, segs)? {
        return Ok(());
    }
    text.push(' ')?;
    append_segments(text, segs)
}

/// Appends what is known of a reference, but for its segments.
fn append_known(text: &mut String, index: usize, known: &Reference) -> Result<(), AllocError> {
    write!(text, "r{} is ", index.saturating_add(1))?;
    text.push_str(place_name(known.place))?;
    text.push(' ')?;
    text.push_str(nullness_name(known.nullness))?;
    text.push_str(" length ")?;
    append_number(text, known.length)
}

/// Appends what is known of each reference.
fn append_references(alloc: Global, text: &mut String, parts: &Parts) -> Result<(), AllocError> {
    for (index, known) in parts.references.iter().enumerate() {
        separate_fact(text)?;
        append_known(text, index, known)?;
        if let Some(segs) = parts.contents.segments.get(index) {
            append_contents(alloc, text, known, segs)?;
        }
    }
    Ok(())
}

/// Appends which references are apart.
fn append_apart(text: &mut String, pairs: &[(u32, u32)]) -> Result<(), AllocError> {
    for (r, q) in pairs {
        separate_fact(text)?;
        append_reference(text, *r)?;
        text.push_str(" apart ")?;
        append_reference(text, *q)?;
    }
    Ok(())
}

/// Appends the variables, and then each fact.
fn append_parts(alloc: Global, text: &mut String, parts: &Parts) -> Result<(), AllocError> {
    append_variables(text, parts.variables.as_slice())?;
    append_ranges(text, parts.ranges.as_slice())?;
    append_bounds(text, parts.bounds.as_slice())?;
    append_definitions(text, parts.definitions.as_slice())?;
    append_references(alloc, text, parts)?;
    append_apart(text, parts.apart.as_slice())
}

/// The text of the lists of a state.
fn parts_text(alloc: Global, parts: &Parts) -> Result<String, AllocError> {
    if !parts.reached {
        return String::from_str(alloc, "unreachable");
    }
    let mut text = String::new(alloc);
    append_parts(alloc, &mut text, parts)?;
    Ok(text)
}

/// The text of a state.
pub fn state_text(alloc: Global, state: &AbsState) -> Result<String, AllocError> {
    let parts = state.parts(alloc)?;
    parts_text(alloc, &parts)
}
