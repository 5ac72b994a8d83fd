//! Entries of files of the first form.

ghost use Rattle.std.specs.Prelude.{◌≡◌, ℕ, ◌+◌, ◌≤◌, ◌++◌, List, [], ◌∷◌, Some, filter_map, length, not, option_map, IfOk};
ghost use Rattle.cc_base.specs.Tests.{first_of, JudgesOrNoMemory, must};
ghost use Rattle.invariant_codec.specs.Parses.{IsPassed};
ghost use Rattle.result_cache.specs.CacheFile.{entry_field, entry_fields, invariant_field};
ghost use Rattle.result_cache.specs.Entries.{Entry, is_among, keys_of};
ghost use Rattle.result_cache.specs.FirstForm.{AreFirst, AreHeld, has_first_number, IsFirstOf, second_entry, second_key};
ghost use Rattle.result_cache.specs.declared.cache_fault.CacheFault.TheVariants.{Form};

use crate::buckets::hash_of;
use crate::cache::Cache;
use crate::cache_fault::{CacheFault, CacheRefusal};
use crate::entry_reader::{most_entries, read_invariant};
use crate::fields::read_sized;
use crate::packed::Packed;
use cc_base::{NoMemory, Refusal};
use method_unit::{read_unit, unit_bytes};
use std::alloc::{AllocError, Global};

/// Returns whether the fourth byte is the digit 1.
fn has_first_number(bytes: &[u8]) -> bool
    ensures { result ≡ has_first_number bytes.now }
{
    bytes.len() > 3 && bytes[3] == b'1'
}

/// The key in the second form of the unit whose first form the bytes are.
fn second_key(alloc: Global, bytes: &[u8]) -> Result<Option<Vec<u8>>, NoMemory>
    requires short { length bytes.now ≤ 2147483647 }
    ensures value { IfOk result (λ key. option_map (λ k. k.items) key ≡ second_key bytes.now) }
    ensures first { IfOk result (λ _. (key : List ℕ) → second_key bytes.now ≡ Some key → IsFirstOf bytes.now key) }
{
    if !has_first_number(bytes) {
        return Ok(None);
    }
    match read_unit(alloc, bytes) {
        Ok(unit) => Ok(Some(unit_bytes(alloc, unit.unit())?)),
        Err(Refusal::Bad(_)) => Ok(None),
        Err(Refusal::NoMemory) => Err(AllocError),
    }
}

/// What is held of entries of the first form: those that they stand for, and the keys of the others.
#[derive(Drop)]
struct Held {
    seconds: Cache,
    /// Keys that stand for nothing, which may not come twice either.
    others: Packed,
}

/// Reads the invariant of a unit whose key was read from one offset to another, and adds it under the key in the
/// second form. Distinct keys of the first form stand for distinct ones, so that one look tells whether either is new.
#[tactic(auto, using(cc_base::proofs::TestLemmas::first_tests, cc_base::proofs::TestLemmas::carried))]
fn hold_unit(
    alloc: Global,
    bytes: &[u8],
    at: u32,
    middle: u32,
    second: &[u8],
    seconds: &mut Cache,
) -> Result<u32, CacheRefusal>
    requires short { length bytes.now ≤ 2147483647 }
    requires inside { at + 4 ≤ length bytes.now }
    ensures { JudgesOrNoMemory result
        (first_of (must (not (is_among (keys_of seconds.old) second.now)) (Form (at + 4)) ∷ (invariant_field bytes.now middle).tests))
        (λ next. (seconds.new ≡ seconds.old ++ (second.now, (invariant_field bytes.now middle).value) ∷ [])
        × IsPassed bytes.now (invariant_field bytes.now middle) next) }
{
    let hash = hash_of(second);
    if seconds.has(second, hash) {
        return Err(CacheFault::Form(at + 4).into());
    }
    let (invariant, next) = read_invariant(alloc, bytes, middle)?;
    seconds.add(second, hash, invariant)?;
    Ok(next)
}

/// Reads the invariant of a key that stands for nothing, and holds the key.
#[tactic(auto, using(cc_base::proofs::TestLemmas::first_tests, cc_base::proofs::TestLemmas::carried, crate::proofs::PackedLaws::found_told))]
fn hold_other(
    alloc: Global,
    bytes: &[u8],
    at: u32,
    middle: u32,
    key: &[u8],
    others: &mut Packed,
) -> Result<u32, CacheRefusal>
    requires short { length bytes.now ≤ 2147483647 }
    requires inside { at + 4 ≤ length bytes.now }
    ensures { JudgesOrNoMemory result
        (first_of (must (not (is_among (keys_of others.old) key.now)) (Form (at + 4)) ∷ (invariant_field bytes.now middle).tests))
        (λ next. (others.new ≡ others.old ++ (key.now, []) ∷ [])
        × IsPassed bytes.now (invariant_field bytes.now middle) next) }
{
    let hash = hash_of(key);
    if others.find(key, hash).is_some() {
        return Err(CacheFault::Form(at + 4).into());
    }
    let (_invariant, next) = read_invariant(alloc, bytes, middle)?;
    others.push(key, hash, &[])?;
    Ok(next)
}

/// Takes the room for keys that stand for nothing once the first of them comes.
fn room_for_others(
    alloc: Global,
    others: &mut Packed,
    count: usize,
    bytes: usize,
) -> Result<(), NoMemory>
    ensures { others.new ≡ others.old }
{
    if others.len() == 0 {
        *others = Packed::with_capacity(alloc, count, bytes)?;
    }
    Ok(())
}

/// Reads the entry at this offset, holds what it stands for or its key, and gives the offset after it.
#[tactic(auto, using(cc_base::proofs::TestLemmas::carried, crate::proofs::FirstWalk::key_fault))]
fn read_first_entry(
    alloc: Global,
    bytes: &[u8],
    at: u32,
    count: u32,
    held: &mut Held,
) -> Result<u32, CacheRefusal>
    requires short { length bytes.now ≤ 2147483647 }
    ensures { (before : List Entry) → AreHeld before held.old.seconds held.old.others
        → JudgesOrNoMemory result (first_of (entry_field bytes.now before at).tests)
        (λ next. AreHeld (before ++ (entry_field bytes.now before at).value ∷ []) held.new.seconds held.new.others
        × (next ≡ (entry_field bytes.now before at).next)) }
{
    let (key, middle) = read_sized(bytes, at)?;
    match second_key(alloc, key)? {
        Some(second) => hold_unit(alloc, bytes, at, middle, &second, &mut held.seconds),
        None => {
            room_for_others(
                alloc,
                &mut held.others,
                most_entries(bytes, count),
                bytes.len(),
            )?;
            hold_other(alloc, bytes, at, middle, key, &mut held.others)
        }
    }
}

/// The fewest bytes of an entry whose key is a unit. One of the first form takes 16 beside its name and its code.
const LEAST_UNIT_BYTES: usize = 26;

/// The entries that so many entries of the first form stand for, and the offset after these. An entry is known by what
/// it stands for, or by its key where it stands for nothing.
pub fn read_each_first(
    alloc: Global,
    bytes: &[u8],
    count: u32,
) -> Result<(Cache, u32), CacheRefusal>
    requires short { length bytes.now ≤ 2147483647 }
    ensures { JudgesOrNoMemory result (first_of (entry_fields count bytes.now 8).tests)
        (λ read. (read.0 ≡ filter_map second_entry (entry_fields count bytes.now 8).value)
        × (read.1 ≡ (entry_fields count bytes.now 8).next) × AreFirst (entry_fields count bytes.now 8).value) }
{
    let units = (count as usize).min(bytes.len() / LEAST_UNIT_BYTES);
    let mut held = Held {
        seconds: Cache::with_capacity(alloc, units, bytes.len())?,
        others: Packed::new(alloc),
    };
    let mut at = 8;
    for _entry in 0..count {
        let next = read_first_entry(alloc, bytes, at, count, &mut held)?;
        at = next;
    }
    Ok((held.seconds, at))
}
