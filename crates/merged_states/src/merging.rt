//! Two states as one, and one in the names of its own first uses.

ghost use Rattle.std.specs.Prelude.{◌≡◌, ◌+◌, [], length, map, IfOk, Some, option_map};
ghost use Rattle.std.specs.Option.{ForSome};
ghost use Rattle.array_contents.specs.Makings as makings;
ghost use Rattle.frame_names.specs.ApartPairs as apart_pairs;
ghost use Rattle.frame_names.specs.Frames.{AreAlike};
ghost use Rattle.frame_names.specs.MergedReferences.{merged_references};
ghost use Rattle.frame_names.specs.PairedFrames.{paired_frames};
ghost use Rattle.merged_numbers.specs.Known.{known};
ghost use Rattle.merged_numbers.specs.Meaning.{AreMeasured};
ghost use Rattle.merged_numbers.specs.Merging as outcomes;
ghost use Rattle.state_facts.specs.Forms.{HasForm};
ghost use Rattle.symbolic_values.specs.OwnNames.{own_names};
ghost use Rattle.merged_states.specs.Alike.{AreComparable};
ghost use Rattle.merged_states.specs.Following.{Follows};
ghost use Rattle.merged_states.specs.Merging as states;
ghost use Rattle.merged_states.specs.Rules as merges;
ghost use Rattle.merged_states.specs.Parts as parts;
ghost use Rattle.merged_states.specs.Parts.{numbers_known};

use crate::definitions::{definitions_of_both, renamed_definitions};
use crate::items::{contents_of_both, contents_of_one};
use crate::sides::{frame_of, side_of};
use alias_facts::Apart;
use array_contents::{Contents, Making};
use domain_api::{Expr, NoMemory};
use frame_names::{
    MergedReference, PairedFrames, Reference, joined_apart, kept_apart, merged_references,
    name_frame, pair_frames,
};
use merged_numbers::{Merged, Side, joined, normed, widened};
use number_facts::{Definitions, Numbers};
use state_facts::Known;
use std::alloc::Global;
use symbolic_values::Key;

/// How two states become one.
#[derive(Clone, Copy)]
pub enum Merging {
    /// What either may be.
    Join,
    /// What either may be, with ends that settle.
    Widening,
}

impl Merging {
    /// What both states know of numbers.
    fn numbers(
        self,
        alloc: Global,
        keys: &[Key],
        a: &Side,
        b: &Side,
    ) -> Result<Option<Merged>, NoMemory>
        requires first { AreMeasured a.now.spans.now }
        requires second { AreMeasured b.now.spans.now }
        ensures { IfOk result (λ made. made ≡ (merges.rule_of self).numbers keys.now (known a.now) (known b.now)) }
    {
        match self {
            Merging::Join => joined(alloc, keys, a, b),
            Merging::Widening => widened(alloc, keys, a, b),
        }
    }

    /// How two ranges of items become one.
    fn making(self) -> Making
        ensures { makings.making result ≡ (merges.rule_of self).making }
    {
        match self {
            Merging::Join => Making::Hull,
            Merging::Widening => Making::Widening,
        }
    }
}

/// What the table has of a merged reference.
fn entry_of(merged: &MergedReference) -> Reference
    ensures { result ≡ parts.entry_of merged.now }
{
    Reference {
        place: merged.place,
        nullness: merged.nullness,
        length: merged.length,
    }
}

/// What is known of each new reference.
fn references_of(
    alloc: Global,
    frames: &PairedFrames,
    a: &[Reference],
    b: &[Reference],
) -> Result<Vec<Reference>, NoMemory>
    ensures { IfOk result (λ references. references.items ≡
        map parts.entry_of (merged_references a.now b.now frames.now.references.keys frames.now.lengths)) }
{
    let merged = merged_references(alloc, frames, a, b)?;
    merged.iter().map(|one| entry_of(one)).collect(alloc)
}

/// What is known in new names, beside the numbers' ranges and bounds.
#[derive(Drop)]
struct Tables {
    definitions: Definitions,
    references: Vec<Reference>,
    apart: Apart,
    contents: Contents,
}

impl Tables {
    /// Those in which nothing is known.
    fn nothing(alloc: Global) -> Tables
        ensures definitions { result.definitions ≡ [] }
        ensures references { result.references.items ≡ [] }
        ensures apart { result.apart ≡ [] }
        ensures contents { result.contents ≡ [] }
    {
        Tables {
            definitions: Definitions::new(alloc),
            references: Vec::new(alloc),
            apart: Apart::new(alloc),
            contents: Contents::new(alloc),
        }
    }
}

/// What is known of new symbols and references.
fn known_of(frames: PairedFrames, numbers: Merged, tables: Tables) -> Known
    ensures { result ≡ record {
      variables = frames.vars;
      facts = record { ranges = numbers.ranges; definitions = tables.definitions; bounds = numbers.bounds };
      references = tables.references.items;
      apart = tables.apart;
      contents = tables.contents;
    } }
{
    Known {
        variables: frames.vars,
        numbers: Numbers {
            ranges: numbers.ranges,
            definitions: tables.definitions,
            bounds: numbers.bounds,
        },
        references: tables.references,
        apart: tables.apart,
        contents: tables.contents,
    }
}

/// What both states know of numbers. None: nothing is reached.
#[tactic(auto, using(crate::proofs::Handed::measured))]
fn numbers_of_both(
    alloc: Global,
    rule: Merging,
    keys: &[Key],
    a: &Known,
    b: &Known,
) -> Result<Option<Merged>, NoMemory>
    ensures { IfOk result (λ made. made ≡
        (merges.rule_of rule).numbers keys.now (numbers_known a.now.facts) (numbers_known b.now.facts)) }
{
    let first = a.numbers.spans(alloc)?;
    let second = b.numbers.spans(alloc)?;
    rule.numbers(
        alloc,
        keys,
        &side_of(a, first.as_slice()),
        &side_of(b, second.as_slice()),
    )
}

/// The definitions that both states have, in the names of their frames.
fn shared_definitions(
    alloc: Global,
    frames: &PairedFrames,
    a: &Known,
    b: &Known,
) -> Result<Definitions, NoMemory>
    ensures { IfOk result (λ definitions. definitions ≡ parts.definitions_from
        (parts.def_of_both frames.now a.now.facts.definitions b.now.facts.definitions) 1 frames.now.numbers.keys) }
{
    let (first, second) = (a.numbers.definitions.rows(), b.numbers.definitions.rows());
    let rows = definitions_of_both(alloc, frames, first, second)?;
    Definitions::of_rows(alloc, rows)
}

/// What both states know in the names of their frames, beside the numbers' ranges and bounds.
fn merged_tables(
    alloc: Global,
    rule: Merging,
    frames: &PairedFrames,
    a: &Known,
    b: &Known,
) -> Result<Tables, NoMemory>
    requires first { HasForm a.now }
    requires second { HasForm b.now }
    requires alike { AreAlike a.now.variables b.now.variables }
    requires paired { paired_frames a.now.variables a.now.references b.now.variables b.now.references
        ≡ Some frames.now }
    ensures definitions { IfOk result (λ tables. tables.definitions ≡ parts.definitions_from
        (parts.def_of_both frames.now a.now.facts.definitions b.now.facts.definitions) 1 frames.now.numbers.keys) }
    ensures references { IfOk result (λ tables. tables.references.items ≡
        map parts.entry_of (merged_references a.now.references b.now.references frames.now.references.keys frames.now.lengths)) }
    ensures apart { IfOk result (λ tables. tables.apart ≡
        apart_pairs.joined_apart frames.now.references.keys a.now.references a.now.apart b.now.references b.now.apart) }
    ensures contents { IfOk result (λ tables. tables.contents ≡ parts.if_numbered frames.now
        (parts.contents_of_both (merges.rule_of rule).making frames.now a.now.contents b.now.contents)) }
{
    let (first, second) = (a.references.as_slice(), b.references.as_slice());
    let references = references_of(alloc, frames, first, second)?;
    let keys = frames.references.pairs.keys.as_slice();
    let apart = joined_apart(alloc, keys, first, &a.apart, second, &b.apart)?;
    let definitions = shared_definitions(alloc, frames, a, b)?;
    let contents = contents_of_both(alloc, rule.making(), frames, a, b)?;
    Ok(Tables {
        definitions,
        references,
        apart,
        contents,
    })
}

/// What both states know in the names of their frames, given what they know of numbers.
fn merged_as(
    alloc: Global,
    rule: Merging,
    frames: PairedFrames,
    numbers: Merged,
    a: &Known,
    b: &Known,
) -> Result<Known, NoMemory>
    requires first { HasForm a.now }
    requires second { HasForm b.now }
    requires alike { AreAlike a.now.variables b.now.variables }
    requires paired { paired_frames a.now.variables a.now.references b.now.variables b.now.references ≡ Some frames }
    ensures { IfOk result (λ known. known ≡
        states.merged_as (merges.rule_of rule).making a.now b.now frames numbers) }
{
    let tables = merged_tables(alloc, rule, &frames, a, b)?;
    Ok(known_of(frames, numbers, tables))
}

/// What both states know.
fn known_of_both(
    alloc: Global,
    rule: Merging,
    a: &Known,
    b: &Known,
) -> Result<Option<Known>, NoMemory>
    requires first { HasForm a.now }
    requires second { HasForm b.now }
    requires alike { AreAlike a.now.variables b.now.variables }
    ensures { IfOk result (λ known. known ≡ states.merged_known (merges.rule_of rule) a.now b.now) }
{
    let Some(frames) = pair_frames(alloc, &frame_of(a), &frame_of(b))? else {
        return Ok(None);
    };
    let pairs = &frames.numbers;
    let Some(numbers) = numbers_of_both(alloc, rule, pairs.keys.as_slice(), a, b)? else {
        return Ok(None);
    };
    let known = merged_as(alloc, rule, frames, numbers, a, b)?;
    Ok(Some(known))
}

/// What both states know, where both are reached. None: nothing is reached.
///
/// Cost: that of naming the frames and of merging what is known of numbers, a pass over the definitions of both states
/// for each new symbol, and a look at each two new references. `NoMemory` where memory runs out, and where a symbol or
/// a reference would need more than 32 bits.
pub fn merged(alloc: Global, rule: Merging, a: &Known, b: &Known) -> Result<Option<Known>, NoMemory>
    requires first { HasForm a.now }
    requires second { HasForm b.now }
    requires alike { AreAlike a.now.variables b.now.variables }
    ensures value { IfOk result (λ known. known ≡ states.merged_known (merges.rule_of rule) a.now b.now) }
    ensures form { IfOk result (λ known. ForSome known HasForm) }
    ensures left { AreComparable a.now b.now → IfOk result (Follows (Some a.now)) }
    ensures right { AreComparable a.now b.now → IfOk result (Follows (Some b.now)) }
{
    known_of_both(alloc, rule, a, b)
}

/// What one state knows of numbers. None: nothing is reached.
#[tactic(auto, using(crate::proofs::Handed::measured))]
fn numbers_of_one(alloc: Global, keys: &[Key], a: &Known) -> Result<Option<Merged>, NoMemory>
    ensures { IfOk result (λ made. made ≡ outcomes.normed keys.now (numbers_known a.now.facts)) }
{
    let spans = a.numbers.spans(alloc)?;
    normed(alloc, keys, &side_of(a, spans.as_slice()))
}

/// The definitions of a state in the names of its frame, given the names of its symbols.
fn own_definitions(
    alloc: Global,
    frames: &PairedFrames,
    names: &[Option<Expr>],
    a: &Known,
) -> Result<Definitions, NoMemory>
    requires names { names.now ≡ own_names frames.now.numbers (length a.now.facts.ranges + 1) }
    ensures { IfOk result (λ definitions. definitions ≡ parts.definitions_from
        (parts.def_of_one frames.now (length a.now.facts.ranges + 1) (length a.now.references + 1)
        a.now.facts.definitions) 1 frames.now.numbers.keys) }
{
    let rows = renamed_definitions(alloc, frames, names, a)?;
    Definitions::of_rows(alloc, rows)
}

/// What a state knows in the names of its frame, beside the numbers' ranges and bounds.
fn named_tables(alloc: Global, frames: &PairedFrames, a: &Known) -> Result<Tables, NoMemory>
    requires form { HasForm a.now }
    requires paired { paired_frames a.now.variables a.now.references a.now.variables a.now.references
        ≡ Some frames.now }
    ensures definitions { IfOk result (λ tables. tables.definitions ≡ parts.definitions_from
        (parts.def_of_one frames.now (length a.now.facts.ranges + 1) (length a.now.references + 1)
        a.now.facts.definitions) 1 frames.now.numbers.keys) }
    ensures references { IfOk result (λ tables. tables.references.items ≡
        map parts.entry_of (merged_references a.now.references a.now.references frames.now.references.keys frames.now.lengths)) }
    ensures apart { IfOk result (λ tables. tables.apart ≡ apart_pairs.kept_apart frames.now.references.keys a.now.apart) }
    ensures contents { IfOk result (λ tables. tables.contents ≡ parts.if_numbered frames.now
        (parts.contents_of_one frames.now (length a.now.facts.ranges + 1) a.now.contents)) }
{
    let keys = frames.references.pairs.keys.as_slice();
    if keys.is_empty() && a.numbers.definitions.rows().is_empty() {
        return Ok(Tables::nothing(alloc));
    }
    let known = a.references.as_slice();
    let references = references_of(alloc, frames, known, known)?;
    let apart = kept_apart(alloc, keys, &a.apart)?;
    let pairs = &frames.numbers;
    let names = pairs.names(alloc, a.numbers.ranges.len() + 1)?;
    let definitions = own_definitions(alloc, frames, names.as_slice(), a)?;
    let contents = contents_of_one(alloc, frames, names.as_slice(), a)?;
    Ok(Tables {
        definitions,
        references,
        apart,
        contents,
    })
}

/// What a state knows in the names of its frame, given what it knows of numbers.
fn named_as(
    alloc: Global,
    frames: PairedFrames,
    numbers: Merged,
    a: &Known,
) -> Result<Known, NoMemory>
    requires form { HasForm a.now }
    requires paired { paired_frames a.now.variables a.now.references a.now.variables a.now.references ≡ Some frames }
    ensures { IfOk result (λ known. known ≡ states.normal_as a.now frames numbers) }
{
    let tables = named_tables(alloc, &frames, a)?;
    Ok(known_of(frames, numbers, tables))
}

/// What a state knows in the names of its own first uses.
fn known_of_one(alloc: Global, a: &Known) -> Result<Option<Known>, NoMemory>
    requires { HasForm a.now }
    ensures { IfOk result (λ known. known ≡ states.normal_known a.now) }
{
    let Some(frames) = name_frame(alloc, &frame_of(a))? else {
        return Ok(None);
    };
    let pairs = &frames.numbers;
    let Some(numbers) = numbers_of_one(alloc, pairs.keys.as_slice(), a)? else {
        return Ok(None);
    };
    let known = named_as(alloc, frames, numbers, a)?;
    Ok(Some(known))
}

/// What a state knows, in the names of its own first uses. None: nothing is reached.
///
/// Cost: that of naming the frame and what is known of numbers, a pass over the definitions for each symbol that has a
/// name, and a look at each two references that have one. `NoMemory` as of `merged`.
pub fn named(alloc: Global, a: &Known) -> Result<Option<Known>, NoMemory>
    requires { HasForm a.now }
    ensures value { IfOk result (λ known. known ≡ states.normal_known a.now) }
    ensures form { IfOk result (λ known. ForSome known HasForm) }
    ensures keeps { IfOk result (Follows (Some a.now)) }
{
    known_of_one(alloc, a)
}
