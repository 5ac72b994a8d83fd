//! Entries, as they stand in a cache file.

ghost use Rattle.std.specs.Prelude.{◌≡◌, ◌+◌, ◌≤◌, ◌*◌, ◌++◌, [], ◌∷◌, false, length};
ghost use Rattle.cc_base.specs.Tests.{first_of, Judges, JudgesOrNoMemory};
ghost use Rattle.result_cache.specs.Buckets.{hash_of};
ghost use Rattle.result_cache.specs.CacheFile.{entry_field, entry_fields, invariant_field, key_field};
ghost use Rattle.invariant_codec.specs.Invariants.{IsInvariant};
ghost use Rattle.result_cache.specs.Entries.{is_among, keys_of};
ghost use Rattle.invariant_codec.specs.Parses.{IsRead};

use crate::buckets::hash_of;
use crate::cache::Cache;
use crate::cache_fault::{CacheFault, CacheRefusal};
use crate::fields::read_sized;
use cc_base::Refusal;
use invariant_codec::{check_invariant, fault_at};
use std::alloc::Global;

/// The key at this offset with its hash, where these entries have no such key, and the offset after it.
#[tactic(auto, using(cc_base::proofs::TestLemmas::appended, cc_base::proofs::TestLemmas::first_tests), unfolding(crate::specs::CacheFile::key_field))]
fn read_key<'a>(
    bytes: &'a [u8],
    at: u32,
    before: &Cache,
) -> Result<(&'a [u8], u64, u32), CacheFault>
    requires short { length bytes.now ≤ 2147483647 }
    ensures { Judges result (first_of (key_field before.now bytes.now at).tests)
        (λ read. IsRead bytes.now (key_field before.now bytes.now at) read.0.now read.2
        × (read.1 ≡ hash_of read.0.now) × (is_among (keys_of before.now) read.0.now ≡ false)) }
{
    let (key, next) = read_sized(bytes, at)?;
    let hash = hash_of(key);
    if before.has(key, hash) {
        return Err(CacheFault::Form(at + 4));
    }
    Ok((key, hash, next))
}

/// The bytes of an invariant at this offset, and the offset after them.
#[tactic(auto, using(cc_base::proofs::TestLemmas::appended, cc_base::proofs::TestLemmas::first_tests, crate::proofs::InvariantRead::faulty, crate::proofs::InvariantRead::cut))]
pub fn read_invariant(alloc: Global, bytes: &[u8], at: u32) -> Result<(&[u8], u32), CacheRefusal>
    requires short { length bytes.now ≤ 2147483647 }
    ensures { JudgesOrNoMemory result (first_of (invariant_field bytes.now at).tests)
        (λ read. IsRead bytes.now (invariant_field bytes.now at) read.0.now read.1 × IsInvariant read.0.now) }
{
    let (invariant, next) = read_sized(bytes, at)?;
    match check_invariant(alloc, invariant) {
        Ok(()) => Ok((invariant, next)),
        Err(Refusal::Bad(fault)) => Err(CacheFault::Form(at + 4 + fault_at(fault)).into()),
        Err(Refusal::NoMemory) => Err(Refusal::NoMemory),
    }
}

/// Adds the entry at this offset to those before it, and gives the offset after it.
#[tactic(auto, using(cc_base::proofs::TestLemmas::appended, cc_base::proofs::TestLemmas::carried), unfolding(crate::specs::CacheFile::entry_field))]
fn read_entry(alloc: Global, bytes: &[u8], at: u32, cache: &mut Cache) -> Result<u32, CacheRefusal>
    requires short { length bytes.now ≤ 2147483647 }
    ensures { JudgesOrNoMemory result (first_of (entry_field bytes.now cache.old at).tests)
        (λ next. (cache.new ≡ cache.old ++ (entry_field bytes.now cache.old at).value ∷ [])
        × (next ≡ (entry_field bytes.now cache.old at).next) × (next ≤ length bytes.now)) }
{
    let (key, hash, at) = read_key(bytes, at, cache)?;
    let (invariant, next) = read_invariant(alloc, bytes, at)?;
    cache.add(key, hash, invariant)?;
    Ok(next)
}

/// The fewest bytes of an entry: two lengths, and the two bytes of an invariant of no state.
const LEAST_ENTRY_BYTES: usize = 10;

/// The keys of less than three bytes. All others are in entries of three bytes more at least.
const SHORT_KEYS: usize = 1 + 256 + 65_536;

/// As many entries as are counted, or as so many bytes can be, with distinct keys.
pub fn most_entries(bytes: &[u8], count: u32) -> usize
    ensures counted { result ≤ count }
    ensures bytes { result * 10 ≤ length bytes.now }
    ensures keys { result * 13 ≤ length bytes.now + 855309 }
{
    let fit = bytes.len() / LEAST_ENTRY_BYTES;
    let distinct = SHORT_KEYS + bytes.len() / (LEAST_ENTRY_BYTES + 3);
    (count as usize).min(fit).min(distinct)
}

/// So many entries from this offset on, and the offset after them.
#[tactic(auto, using(invariant_codec::proofs::Counted::none_read, invariant_codec::proofs::Counted::all_read))]
pub fn read_each(
    alloc: Global,
    bytes: &[u8],
    start: u32,
    count: u32,
) -> Result<(Cache, u32), CacheRefusal>
    requires short { length bytes.now ≤ 2147483647 }
    requires inside { start ≤ length bytes.now }
    ensures { JudgesOrNoMemory result (first_of (entry_fields count bytes.now start).tests)
        (λ read. IsRead bytes.now (entry_fields count bytes.now start) read.0 read.1) }
{
    let mut cache = Cache::with_capacity(alloc, most_entries(bytes, count), bytes.len())?;
    let mut at = start;
    for _entry in 0..count {
        let next = read_entry(alloc, bytes, at, &mut cache)?;
        at = next;
    }
    Ok((cache, at))
}
