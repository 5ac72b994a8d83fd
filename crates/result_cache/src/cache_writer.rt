//! Caches, written as their files.

ghost use Rattle.std.specs.Prelude.{◌≡◌, ◌++◌, ◌-◌, ◌≤◌, List, length, nat_le, option_map, slice_get, take, Some, None, if◌then◌else◌, IfOk, OnOk};
ghost use Rattle.std.specs.List.{flat_map};
ghost use Rattle.result_cache.specs.Entries.{AreEntries, Entry};
ghost use Rattle.result_cache.specs.Spelling.{entry_bytes, entry_size, file_bytes, IsCacheFile, kept, kept_within, sized_bytes};
ghost use Rattle.result_cache.specs.declared.cache_form.CacheForm.TheVariants.{Second};

use crate::cache_reader::MAX_CACHE_BYTES;
use cc_base::NoMemory;
use std::alloc::Global;

/// The most bytes of all entries of a file.
const MAX_ENTRY_BYTES: usize = MAX_CACHE_BYTES - 8;

/// The entries of a file that is to be written.
pub trait Entries {
    /// What they are, in order.
    ghost entries: { Self → List Entry };

    /// The number of them.
    fn count(&self) -> usize
        ensures { result ≡ length (entries self.now) };

    /// The entry at an index.
    fn entry_at(&self, index: usize) -> Option<(&[u8], &[u8])>
        ensures { option_map (λ e. (e.0.now, e.1.now)) result ≡ slice_get (entries self.now) index };
}

/// The bytes that are left of so many after an entry, where it has room.
fn left_after(left: usize, key: &[u8], invariant: &[u8]) -> Option<usize>
    requires { left ≤ 67108864 }
    ensures { result ≡ if nat_le (entry_size (key.now, invariant.now)) left then Some (left - entry_size (key.now, invariant.now)) else None }
{
    if key.len() > left || invariant.len() > left {
        return None;
    }
    let size = 8 + key.len() + invariant.len();
    if size > left {
        return None;
    }
    Some(left - size)
}

/// Returns how many entries a file has room for.
fn kept_count<E: Entries>(entries: &E) -> usize
    ensures prefix { kept (E.entries entries.now) ≡ take result (E.entries entries.now) }
    ensures within { result ≤ length (E.entries entries.now) }
    ensures few { result ≤ 67108864 }
{
    let mut left = MAX_ENTRY_BYTES;
    for index in 0..entries.count() {
        let Some((key, invariant)) = entries.entry_at(index) else {
            return index;
        };
        let Some(rest) = left_after(left, key, invariant) else {
            return index;
        };
        left = rest;
    }
    entries.count()
}

/// Appends bytes, after their length.
fn put_sized(out: &mut Vec<u8>, bytes: &[u8]) -> Result<(), NoMemory>
    ensures { OnOk result (out.new.items ≡ out.old.items ++ sized_bytes bytes.now) }
{
    out.extend_from_slice(&(bytes.len() as u64).to_le_bytes()[..4])?;
    out.extend_from_slice(bytes)
}

/// Appends the first entries, so many.
fn put_entries<E: Entries>(out: &mut Vec<u8>, entries: &E, count: usize) -> Result<(), NoMemory>
    requires { count ≤ length (E.entries entries.now) }
    ensures { OnOk result (out.new.items ≡ out.old.items ++ flat_map entry_bytes (take count (E.entries entries.now))) }
{
    for index in 0..count {
        let Some((key, invariant)) = entries.entry_at(index) else {
            return Ok(());
        };
        put_sized(out, key)?;
        put_sized(out, invariant)?;
    }
    Ok(())
}

/// The file of the entries for which there is room.
#[tactic(auto, unfolding(crate::specs::Spelling::file_bytes))]
fn written<E: Entries>(alloc: Global, entries: &E) -> Result<Vec<u8>, NoMemory>
    ensures { IfOk result (λ bytes. bytes.items ≡ file_bytes Second (kept (E.entries entries.now))) }
{
    let count = kept_count(entries);
    let mut out = Vec::new(alloc);
    out.extend_from_slice(b"CCK2")?;
    out.extend_from_slice(&(count as u32).to_le_bytes())?;
    put_entries(&mut out, entries, count)?;
    Ok(out)
}

/// The file of the second form that has these entries, up to the first with which it would have more than 67,108,864
/// bytes.
///
/// # Errors
///
/// Want of memory.
///
/// Cost: linear in the number of bytes.
pub fn cache_bytes<E: Entries>(alloc: Global, entries: &E) -> Result<Vec<u8>, NoMemory>
    requires { AreEntries (E.entries entries.now) }
    ensures value { IfOk result (λ bytes. bytes.items ≡ file_bytes Second (kept (E.entries entries.now))) }
    ensures file { IfOk result (λ bytes. IsCacheFile Second (kept (E.entries entries.now)) bytes.items) }
{
    written(alloc, entries)
}
