//! The cache of a check, before its first report.

#![tactic(auto, using(cc_base::proofs::SinkLemmas::sinks, cc_base::proofs::CountLemmas::counts, answer_lines::proofs::LineLemmas::puts_none))]

ghost use Rattle.std.specs.Prelude.{◌≡◌, [], IfOk, Some, option_map};
ghost use Rattle.answer_lines.specs.Writing.{Writes, change_of};
ghost use Rattle.check_driver.specs.CacheMet.{cache_entries, cache_refusal, entries_unless, refusal_of};
ghost use Rattle.result_cache.specs.CacheFile.{first_cache_fault};
ghost use Rattle.result_cache.specs.Entries.{AreShort};

use crate::cache_file::cache_fault_text;
use answer_lines::{Interrupt, put_cache_line};
use cc_base::Sink;
use result_cache::{Cache, CacheFault, CacheRefusal};
use std::alloc::Global;

/// Tells that a cache of this name is refused.
fn refuse_cache<E: Sink>(
    alloc: Global,
    name: &[u8],
    fault: CacheFault,
    err: &mut E,
) -> Result<(), Interrupt>
    ensures { Writes result (change_of E.written E.puts E.faults err.old err.new) (refusal_of name.now (Some fault)) }
{
    let text = cache_fault_text(alloc, fault)?;
    put_cache_line(alloc, name, &text, err)
}

/// The cache of a file of this name. One that is refused is told, and is empty.
fn read_told<E: Sink>(
    alloc: Global,
    name: &[u8],
    bytes: &[u8],
    err: &mut E,
) -> Result<Cache, Interrupt>
    ensures entries { IfOk result (λ cache. cache ≡ entries_unless bytes.now (first_cache_fault bytes.now)) }
    ensures short { IfOk result AreShort }
    ensures written { Writes result (change_of E.written E.puts E.faults err.old err.new) (refusal_of name.now (first_cache_fault bytes.now)) }
{
    match Cache::read(alloc, bytes) {
        Ok(cache) => Ok(cache),
        Err(CacheRefusal::NoMemory) => Err(Interrupt::NoMemory),
        Err(CacheRefusal::Bad(fault)) => {
            refuse_cache(alloc, name, fault, err)?;
            Ok(Cache::none(alloc))
        }
    }
}

/// The cache of a file of this name, of which this was read. One that is missing is empty, and so is one that is
/// refused, which is told.
pub fn open_cache<E: Sink>(
    alloc: Global,
    name: &[u8],
    read: &Option<Vec<u8>>,
    err: &mut E,
) -> Result<Cache, Interrupt>
    ensures entries { IfOk result (λ cache. cache ≡ cache_entries (option_map (λ bytes. bytes.items) read.now)) }
    ensures short { IfOk result AreShort }
    ensures written { Writes result (change_of E.written E.puts E.faults err.old err.new)
        (cache_refusal (Some name.now) (option_map (λ bytes. bytes.items) read.now)) }
{
    match read {
        Some(bytes) => read_told(alloc, name, bytes, err),
        None => Ok(Cache::none(alloc)),
    }
}
