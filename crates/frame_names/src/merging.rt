//! What is known of the references of two states that were named together.

ghost use Rattle.std.specs.Prelude.{◌≡◌, drop, get_or, pos, IfOk};
ghost use Rattle.frame_names.specs.MergedReferences.{merged_reference, merged_references, one_place};
ghost use Rattle.frame_names.specs.PairedFrames.{first_expr};
ghost use Rattle.frame_names.specs.Tables.{AreNullsOnBoth, ArePlacesOnBoth};

use crate::pairing::PairedFrames;
use crate::reference::{Reference, nullness_of, place_of};
use alias_facts::Nullness;
use cil_model::Place;
use domain_api::{Expr, NoMemory};
use std::alloc::Global;
use symbolic_values::Key;

/// What is known of a new reference, but for its items.
#[derive(Clone, Copy, Debug, PartialEq, Eq)]
pub struct MergedReference {
    /// What it was in the first state. Reference 0 is null.
    pub first: u32,
    /// What it was in the second state.
    pub second: u32,
    /// The type of the array.
    pub place: Place,
    /// Whether it may be null.
    pub nullness: Nullness,
    /// The new length.
    pub length: Expr,
}

/// The type of one of two references, the first one's if it has one.
fn one_place(a: Option<Place>, b: Option<Place>) -> Place
    ensures { result ≡ one_place a b }
{
    a.or(b).unwrap_or(Place::Void)
}

/// The expression at an index, or the constant 0.
fn expr_at(exprs: &[Expr], index: usize) -> Expr
    ensures { result ≡ first_expr (drop index exprs.now) }
{
    match exprs.get(index) {
        None => Expr { sym: 0, k: 0 },
        Some(e) => *e,
    }
}

/// What is known of the reference of a key.
fn merged_reference(a: &[Reference], b: &[Reference], key: &Key, length: Expr) -> MergedReference
    ensures { result ≡ merged_reference a.now b.now key.now length }
{
    MergedReference {
        first: key.s,
        second: key.t,
        place: one_place(place_of(a, key.s), place_of(b, key.t)),
        nullness: nullness_of(a, key.s).join(nullness_of(b, key.t)),
        length,
    }
}

/// What is known of each reference of a key, with the length at the same place.
#[tactic(auto, using(crate::proofs::ListSteps::behind_drop))]
fn all_merged(
    alloc: Global,
    keys: &[Key],
    lengths: &[Expr],
    a: &[Reference],
    b: &[Reference],
) -> Result<Vec<MergedReference>, NoMemory>
    ensures { IfOk result (λ merged. merged.items ≡ merged_references a.now b.now keys.now lengths.now) }
{
    let mut merged = Vec::with_capacity(alloc, keys.len())?;
    for index in 0..keys.len() {
        merged.push(merged_reference(a, b, &keys[index], expr_at(lengths, index)))?;
    }
    Ok(merged)
}

/// What is known of each new reference, in order.
fn new_references(
    alloc: Global,
    frames: &PairedFrames,
    a: &[Reference],
    b: &[Reference],
) -> Result<Vec<MergedReference>, NoMemory>
    ensures { IfOk result (λ merged. merged.items ≡
        merged_references a.now b.now frames.now.references.keys frames.now.lengths) }
{
    let keys = frames.references.pairs.keys.as_slice();
    all_merged(alloc, keys, frames.lengths.as_slice(), a, b)
}

/// What is known of each new reference, in order: what it was in both states, the type of one of the two that has one,
/// whether it may be null where it was the one or the other, and the new length.
pub fn merged_references(
    alloc: Global,
    frames: &PairedFrames,
    a: &[Reference],
    b: &[Reference],
) -> Result<Vec<MergedReference>, NoMemory>
    ensures value { IfOk result (λ merged. merged.items ≡
        merged_references a.now b.now frames.now.references.keys frames.now.lengths) }
    ensures places { IfOk result (λ merged.
        ArePlacesOnBoth a.now b.now frames.now.references.keys merged.items) }
    ensures nulls { IfOk result (λ merged. AreNullsOnBoth a.now b.now merged.items) }
{
    new_references(alloc, frames, a, b)
}
