//! Which references of two states that were named together are not the same array.

ghost use Rattle.std.specs.Prelude.{◌≡◌, ◌&&◌, ◌∷◌, [], get_or, length, IfOk, OnOk};
ghost use Rattle.symbolic_values.specs.Pairing.{origin};
ghost use Rattle.alias_facts.specs.PairsOf.{contains, ordered, with_pair};
ghost use Rattle.frame_names.specs.ApartPairs.{are_apart_in_both, cannot_be_same, joined_apart, kept_apart, pairs_by, were_kept, with_row, with_test};
ghost use Rattle.frame_names.specs.Tables.{DifferAsKept, DifferOnBoth};

use crate::reference::{Reference, are_one_place, nullness_of, place_of};
use alias_facts::Apart;
use domain_api::NoMemory;
use std::alloc::{AllocError, Global};
use symbolic_values::Key;

/// Returns whether two references of a state cannot be the same array.
pub(crate) fn cannot_be_same(known: &[Reference], apart: &Apart, r: u32, q: u32) -> bool
    ensures { result ≡ cannot_be_same known.now apart.now r q }
{
    let same_place = are_one_place(place_of(known, r), place_of(known, q));
    apart.cannot_be_same(
        r,
        q,
        same_place,
        nullness_of(known, r),
        nullness_of(known, q),
    )
}

/// What new references were in the first state and in the second. Reference 0 was null.
fn key_of(keys: &[Key], reference: u32) -> Key
    ensures { result ≡ get_or (origin ∷ keys.now) reference origin }
{
    let null = Key {
        s: 0,
        t: 0,
        shift: 0,
        first: 0,
    };
    match reference.checked_sub(1) {
        None => null,
        Some(place) => match keys.get(place as usize) {
            None => null,
            Some(key) => *key,
        },
    }
}

/// The references of two states, and what is kept of them.
#[derive(Drop)]
struct Sides<'a> {
    keys: &'a [Key],
    a: &'a [Reference],
    a_apart: &'a Apart,
    b: &'a [Reference],
    b_apart: &'a Apart,
}

impl<'a> Sides<'a> {
    /// Returns whether two new references cannot be the same array on either side.
    fn are_apart(&self, r: u32, q: u32) -> bool
        ensures { result ≡ are_apart_in_both self.now.keys.now self.now.a.now self.now.a_apart.now
            self.now.b.now self.now.b_apart.now r q }
    {
        let first = key_of(self.keys, r);
        let second = key_of(self.keys, q);
        cannot_be_same(self.a, self.a_apart, first.s, second.s)
            && cannot_be_same(self.b, self.b_apart, first.t, second.t)
    }

    /// Keeps two new references apart, where they are on both sides.
    fn keep(&self, apart: &mut Apart, lower: u32, higher: u32) -> Result<(), NoMemory>
        ensures { OnOk result (apart.new ≡ with_test (are_apart_in_both self.now.keys.now self.now.a.now
            self.now.a_apart.now self.now.b.now self.now.b_apart.now) higher apart.old lower) }
    {
        if self.are_apart(lower, higher) {
            apart.set_apart(lower, higher)?;
        }
        Ok(())
    }

    /// Keeps a new reference apart from those before it, where they are on both sides.
    fn keep_row(&self, apart: &mut Apart, higher: u32) -> Result<(), NoMemory>
        ensures { OnOk result (apart.new ≡ with_row (are_apart_in_both self.now.keys.now self.now.a.now
            self.now.a_apart.now self.now.b.now self.now.b_apart.now) apart.old higher) }
    {
        for lower in 1..higher {
            self.keep(apart, lower, higher)?;
        }
        Ok(())
    }
}

/// The number of keys as that of the last reference. No more than 2^32 - 1 references can be named.
fn last_of(keys: &[Key]) -> Result<u32, NoMemory>
    ensures { IfOk result (λ last. last ≡ length keys.now) }
{
    match u32::try_from(keys.len()) {
        Ok(last) => Ok(last),
        Err(_) => Err(AllocError),
    }
}

impl<'a> Sides<'a> {
    /// The pairs of new references that cannot be the same array on either side.
    fn pairs(&self, alloc: Global) -> Result<Apart, NoMemory>
        ensures { IfOk result (λ apart. apart ≡ joined_apart self.now.keys.now self.now.a.now
            self.now.a_apart.now self.now.b.now self.now.b_apart.now) }
    {
        let last = last_of(self.keys)?;
        let mut apart = Apart::new(alloc);
        for before in 0..last {
            self.keep_row(&mut apart, before + 1)?;
        }
        Ok(apart)
    }
}

/// The pairs of new references that cannot be the same array in either state: there each two are kept apart, their
/// types differ, or one is null. Given are the keys of the paired references.
///
/// Cost: each two references are looked at.
pub fn joined_apart(
    alloc: Global,
    keys: &[Key],
    a: &[Reference],
    a_apart: &Apart,
    b: &[Reference],
    b_apart: &Apart,
) -> Result<Apart, NoMemory>
    ensures value { IfOk result (λ apart. apart ≡ joined_apart keys.now a.now a_apart.now b.now b_apart.now) }
    ensures differ { IfOk result (DifferOnBoth keys.now a.now a_apart.now b.now b_apart.now) }
{
    let sides = Sides {
        keys,
        a,
        a_apart,
        b,
        b_apart,
    };
    sides.pairs(alloc)
}

// ---- the pairs of one state

/// Keeps two new references apart, where they were in the first state.
fn keep_old(
    apart: &mut Apart,
    keys: &[Key],
    kept: &Apart,
    lower: u32,
    higher: u32,
) -> Result<(), NoMemory>
    ensures { OnOk result (apart.new ≡ with_test (were_kept keys.now kept.now) higher apart.old lower) }
{
    if kept.is_apart(key_of(keys, lower).s, key_of(keys, higher).s) {
        apart.set_apart(lower, higher)?;
    }
    Ok(())
}

/// Keeps a new reference apart from those before it, where they were in the first state.
fn keep_old_row(apart: &mut Apart, keys: &[Key], kept: &Apart, higher: u32) -> Result<(), NoMemory>
    ensures { OnOk result (apart.new ≡ with_row (were_kept keys.now kept.now) apart.old higher) }
{
    for lower in 1..higher {
        keep_old(apart, keys, kept, lower, higher)?;
    }
    Ok(())
}

/// The pairs of new references that were kept apart in the first state.
fn old_pairs(alloc: Global, keys: &[Key], kept: &Apart) -> Result<Apart, NoMemory>
    ensures { IfOk result (λ apart. apart ≡ kept_apart keys.now kept.now) }
{
    let last = last_of(keys)?;
    let mut apart = Apart::new(alloc);
    for before in 0..last {
        keep_old_row(&mut apart, keys, kept, before + 1)?;
    }
    Ok(apart)
}

/// The pairs of new references that were kept apart in the first state. Given are the keys of the paired references.
///
/// Cost: each two references are looked at.
pub fn kept_apart(alloc: Global, keys: &[Key], kept: &Apart) -> Result<Apart, NoMemory>
    ensures value { IfOk result (λ apart. apart ≡ kept_apart keys.now kept.now) }
    ensures differ { IfOk result (DifferAsKept keys.now kept.now) }
{
    old_pairs(alloc, keys, kept)
}
