//! Invariants by the whole bytes of their units.

ghost use Rattle.std.specs.Prelude.{◌≡◌, ◌++◌, [], ◌∷◌, false, length, option_map, slice_get, IfOk, IfSome, OnErr, OnOk};
ghost use Rattle.invariant_codec.specs.Invariants.{IsInvariant};
ghost use Rattle.result_cache.specs.Buckets.{hash_of};
ghost use Rattle.result_cache.specs.Entries.{invariant_of, is_among, keys_of, with_entry};
ghost use Rattle.result_cache.specs.Spelling.{file_bytes, IsCacheFile, kept};
ghost use Rattle.result_cache.specs.declared.cache_form.CacheForm.TheVariants.{Second};

use crate::cache_writer::{Entries, cache_bytes};
use crate::packed::Packed;
use cc_base::NoMemory;
use std::alloc::Global;
use std::marker::Model;

/// The invariants of units, each as its bytes under the whole bytes of its unit. Contracts see these pairs, in the
/// order in which the keys came.
#[derive(Drop)]
pub struct Cache {
    invariants: Packed,
}

impl Model for Cache {
    ghost use Rattle.std.specs.Prelude.{List};
    ghost use Rattle.result_cache.specs.Entries.{AreEntries, Entry};

    ghost Value = { List Entry };

    ghost view = { λ cache. cache.invariants };

    ghost invariant = { λ cache. AreEntries cache.invariants };
}

impl Cache {
    /// No entry.
    pub fn none(alloc: Global) -> Cache
        ensures { result ≡ [] }
    {
        Cache {
            invariants: Packed::new(alloc),
        }
    }

    /// No entry, and room for so many, with so many bytes together.
    pub(crate) fn with_capacity(
        alloc: Global,
        count: usize,
        bytes: usize,
    ) -> Result<Cache, NoMemory>
        ensures { IfOk result (λ cache. cache ≡ []) }
    {
        Ok(Cache {
            invariants: Packed::with_capacity(alloc, count, bytes)?,
        })
    }

    /// Returns whether an entry has this key, which has this hash.
    pub(crate) fn has(&self, key: &[u8], hash: u64) -> bool
        requires { hash ≡ hash_of key.now }
        ensures { result ≡ is_among (keys_of self.now) key.now }
    {
        self.invariants.find(key, hash).is_some()
    }

    /// The bytes of the invariant that is kept for a unit of these bytes, where there is one.
    pub fn get(&self, key: &[u8]) -> Option<&[u8]>
        ensures value { option_map (λ found. found.now) result ≡ invariant_of self.now key.now }
        ensures invariant { IfSome result (λ found. IsInvariant found.now) }
    {
        self.invariants.get(key)
    }

    /// Keeps an invariant for the unit of these bytes: in its place where one was kept for it, else after all others.
    ///
    /// # Errors
    ///
    /// Want of memory, also where all bytes together, with those that were replaced, are 2^32 or more, and where the
    /// entries would be more than 8,388,607. Then nothing has changed.
    pub fn put(&mut self, key: &[u8], invariant: &[u8]) -> Result<(), NoMemory>
        requires { IsInvariant invariant.now }
        ensures ok { OnOk result (self.new ≡ with_entry self.old key.now invariant.now) }
        ensures err { OnErr result (self.new ≡ self.old) }
    {
        self.invariants.insert(key, invariant)
    }

    /// Keeps an invariant for a unit for which none was kept, and whose bytes have this hash.
    pub(crate) fn add(&mut self, key: &[u8], hash: u64, invariant: &[u8]) -> Result<(), NoMemory>
        requires hash { hash ≡ hash_of key.now }
        requires invariant { IsInvariant invariant.now }
        requires new { is_among (keys_of self.old) key.now ≡ false }
        ensures { OnOk result (self.new ≡ self.old ++ (key.now, invariant.now) ∷ []) }
    {
        self.invariants.push(key, hash, invariant)
    }

    /// The entry at an index.
    pub(crate) fn entry(&self, index: usize) -> Option<(&[u8], &[u8])>
        ensures entry { option_map (λ e. (e.0.now, e.1.now)) result ≡ slice_get self.now index }
        ensures invariant { IfSome result (λ e. IsInvariant e.1.now) }
    {
        self.invariants.entry(index)
    }

    /// The number of entries.
    pub(crate) fn len(&self) -> usize
        ensures { result ≡ length self.now }
    {
        self.invariants.len()
    }

    /// The file of the second form that has these entries, up to the first with which it would have more than
    /// 67,108,864 bytes.
    ///
    /// # Errors
    ///
    /// Want of memory.
    ///
    /// Cost: linear in the number of bytes.
    pub fn bytes(&self, alloc: Global) -> Result<Vec<u8>, NoMemory>
        ensures value { IfOk result (λ bytes. bytes.items ≡ file_bytes Second (kept self.now)) }
        // It is a cache file, so `read` gives the entries back.
        ensures file { IfOk result (λ bytes. IsCacheFile Second (kept self.now) bytes.items) }
    {
        let _ = &self.invariants;
        cache_bytes(alloc, self)
    }
}

impl Entries for Cache {
    ghost entries = { λ cache. cache };

    fn count(&self) -> usize {
        self.len()
    }

    fn entry_at(&self, index: usize) -> Option<(&[u8], &[u8])> {
        self.entry(index)
    }
}
