//! What is known of the items of new references.

ghost use Rattle.std.specs.Prelude.{◌≡◌, ◌+◌, length, IfOk, Some};
ghost use Rattle.array_contents.specs.Makings as makings;
ghost use Rattle.frame_names.specs.Frames.{AreAlike};
ghost use Rattle.frame_names.specs.PairedFrames.{paired_frames};
ghost use Rattle.merged_states.specs.Parts as rule;
ghost use Rattle.state_facts.specs.Forms.{HasForm};
ghost use Rattle.symbolic_values.specs.OwnNames.{own_names};

use array_contents::{Contents, Making};
use domain_api::{Expr, NoMemory};
use frame_names::PairedFrames;
use state_facts::Known;
use std::alloc::{AllocError, Global};

/// Returns whether each new symbol has a number of 32 bits.
fn are_numbered(frames: &PairedFrames) -> bool
    ensures { result ≡ rule.are_numbered frames.now }
{
    let pairs = &frames.numbers;
    pairs.keys.len() <= 4_294_967_295
}

/// What both states know of the items of each new reference.
pub(crate) fn contents_of_both(
    alloc: Global,
    way: Making,
    frames: &PairedFrames,
    a: &Known,
    b: &Known,
) -> Result<Contents, NoMemory>
    requires first { HasForm a.now }
    requires second { HasForm b.now }
    requires alike { AreAlike a.now.variables b.now.variables }
    requires paired { paired_frames a.now.variables a.now.references b.now.variables b.now.references
        ≡ Some frames.now }
    ensures { IfOk result (λ contents. contents ≡ rule.if_numbered frames.now
        (rule.contents_of_both (makings.making way) frames.now a.now.contents b.now.contents)) }
{
    if !are_numbered(frames) {
        return Err(AllocError);
    }
    let keys = frames.references.pairs.keys.as_slice();
    if keys.is_empty() {
        return Ok(Contents::new(alloc));
    }
    let lengths = frames.lengths.as_slice();
    a.contents
        .merged(alloc, way, &b.contents, keys, &frames.numbers, lengths)
}

/// What a state knows of the items of each new reference, given the names of its symbols.
pub(crate) fn contents_of_one(
    alloc: Global,
    frames: &PairedFrames,
    names: &[Option<Expr>],
    a: &Known,
) -> Result<Contents, NoMemory>
    requires form { HasForm a.now }
    requires paired { paired_frames a.now.variables a.now.references a.now.variables a.now.references
        ≡ Some frames.now }
    requires names { names.now ≡ own_names frames.now.numbers (length a.now.facts.ranges + 1) }
    ensures { IfOk result (λ contents. contents ≡ rule.if_numbered frames.now
        (rule.contents_of_one frames.now (length a.now.facts.ranges + 1) a.now.contents)) }
{
    if !are_numbered(frames) {
        return Err(AllocError);
    }
    let keys = frames.references.pairs.keys.as_slice();
    if keys.is_empty() {
        return Ok(Contents::new(alloc));
    }
    a.contents.renamed(alloc, names, keys)
}
