//! Caches, read from their files.

ghost use Rattle.std.specs.Prelude.{◌≡◌, ◌≤◌, List, length, Some, IfOk};
ghost use Rattle.cc_base.specs.Tests.{first_of, GivesOnly, JudgesOrNoMemory};
ghost use Rattle.cil_model.specs.declared.unit.Unit.{Unit as MethodUnit};
ghost use Rattle.method_unit.specs.Units.{IsUnit};
ghost use Rattle.unit_form.specs.Spelling.{HasCounts, unit_bytes, unit_spelling};
ghost use Rattle.unit_form.specs.declared.form.UnitForm.TheVariants.{First as UnitFirst};
ghost use Rattle.result_cache.specs.CacheFile.{counted_entries, entries_of, entries_standing, entry_fields, first_cache_fault};
ghost use Rattle.result_cache.specs.Entries.{AreShort, Entry};
ghost use Rattle.result_cache.specs.FirstForm.{AreFirst, entries_told, second_key};
ghost use Rattle.result_cache.specs.Forms.{form_of};
ghost use Rattle.result_cache.specs.Spelling.{IsCacheFile, IsCacheOf, IsFileOf};
ghost use Rattle.result_cache.specs.declared.cache_form.CacheForm.{CacheForm as Form};
ghost use Rattle.result_cache.specs.declared.cache_form.CacheForm.TheVariants.{First};

use crate::cache::Cache;
use crate::cache_fault::{CacheFault, CacheRefusal};
use crate::cache_form::CacheForm;
use crate::entry_reader::read_each;
use crate::fields::{read_magic, read_u32};
use crate::first_form::read_each_first;
use std::alloc::Global;

/// The most bytes of a cache file.
pub const MAX_CACHE_BYTES: usize = 67_108_864;

/// What so many entries of a file of this form stand for, and the offset after them.
fn read_entries(
    alloc: Global,
    bytes: &[u8],
    form: CacheForm,
    count: u32,
) -> Result<(Cache, u32), CacheRefusal>
    requires short { length bytes.now ≤ 2147483647 }
    requires inside { 8 ≤ length bytes.now }
    ensures { JudgesOrNoMemory result (first_of (entry_fields count bytes.now 8).tests)
        (λ read. (read.0 ≡ entries_told form (entry_fields count bytes.now 8).value)
        × (read.1 ≡ (entry_fields count bytes.now 8).next)
        × (form ≡ First → AreFirst (entry_fields count bytes.now 8).value)) }
{
    match form {
        CacheForm::First => read_each_first(alloc, bytes, count),
        CacheForm::Second => read_each(alloc, bytes, 8, count),
    }
}

/// What the entries after the magic of a file of this form stand for.
#[tactic(auto, using(cc_base::proofs::TestLemmas::appended, cc_base::proofs::TestLemmas::first_tests, cc_base::proofs::TestLemmas::carried), unfolding(crate::specs::CacheFile::counted_entries))]
fn read_counted(alloc: Global, bytes: &[u8], form: CacheForm) -> Result<Cache, CacheRefusal>
    requires short { length bytes.now ≤ 2147483647 }
    ensures { JudgesOrNoMemory result (first_of (counted_entries bytes.now).tests)
        (λ cache. (cache ≡ entries_told form (entries_standing bytes.now))
        × (form ≡ First → AreFirst (entries_standing bytes.now))) }
{
    let count = read_u32(bytes, 4)?;
    let (cache, end) = read_entries(alloc, bytes, form, count)?;
    if bytes.len() > end as usize {
        return Err(CacheFault::Form(end).into());
    }
    Ok(cache)
}

/// The entries that those of a file stand for.
#[tactic(auto, using(cc_base::proofs::TestLemmas::appended, cc_base::proofs::TestLemmas::first_tests, cc_base::proofs::TestLemmas::carried), unfolding(crate::specs::CacheFile::first_cache_fault))]
fn read_told(alloc: Global, bytes: &[u8]) -> Result<Cache, CacheRefusal>
    ensures { JudgesOrNoMemory result (first_cache_fault bytes.now) (IsCacheOf bytes.now) }
{
    if bytes.len() > MAX_CACHE_BYTES {
        return Err(CacheFault::Large.into());
    }
    let form = read_magic(bytes)?;
    read_counted(alloc, bytes, form)
}

impl Cache {
    /// The cache that a file in one of the two forms has. Of a file of the first form an entry counts under the second
    /// form of its unit, and is dropped where its key is no unit in the first form.
    ///
    /// # Errors
    ///
    /// The first fault in the order of the file, or memory ran out.
    ///
    /// Cost: linear in the number of bytes, but for what it costs to read a unit of the first form, and for keys that
    /// were made to stand in one bucket (buckets.rt). Room is taken for as many bytes as the file has, and 20 for each
    /// entry that is counted, as far as so many bytes can be entries of distinct keys. Of a file of the first form what
    /// its entries stand for is held, and the keys that stand for nothing, for which as much room is taken where there
    /// is one.
    pub fn read(alloc: Global, bytes: &[u8]) -> Result<Cache, CacheRefusal>
        // It is read where no test of the list fails; a fault is that of the first test that does.
        ensures judged { JudgesOrNoMemory result (first_cache_fault bytes.now) (λ cache. cache ≡ entries_of bytes.now) }
        // What is read is what the file has.
        ensures spelled { IfOk result (λ cache. IsFileOf cache bytes.now) }
        // A file of entries is read, in either form, unless memory runs out.
        ensures only { (form : Form) (entries : List Entry) → IsCacheFile form entries bytes.now → GivesOnly result
            (λ cache. cache ≡ entries_told form entries) }
        // The first form of a unit stands for its key in the second form.
        ensures first { (unit : MethodUnit) → IsUnit unit → HasCounts UnitFirst unit →
            second_key (unit_spelling UnitFirst unit) ≡ Some (unit_bytes unit) }
        // Each invariant is short enough to be read.
        ensures short { IfOk result AreShort }
        // In a file of the first form nothing else stands for a key.
        ensures firsts { IfOk result (λ _. form_of bytes.now ≡ First → AreFirst (entries_standing bytes.now)) }
    {
        read_told(alloc, bytes)
    }
}
