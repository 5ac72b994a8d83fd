//! All files of a command, read before it is answered.

#![tactic(auto, using(cc_base::proofs::CountLemmas::counts))]

ghost use Rattle.std.specs.Prelude.{◌≡◌, ◌<◌, All, IfSome, List, Option, length, ℕ};
ghost use Rattle.cc_base.specs.Counts.{Kept, Rose};
ghost use Rattle.check_driver.specs.CacheMet.{CallMet, IsCacheUnder, IsMet, command_cache};
ghost use Rattle.check_driver.specs.CallRead.{ReadsCall, ReadsItsCache};
ghost use Rattle.command_words.specs.Words.{cache_index, file_indexes, words_at, words_bytes};

use crate::reading::{Unread, read_cache, read_files};
use cc_base::Files;
use command_words::Command;
use std::alloc::Global;

/// What was read for a command.
#[derive(Drop)]
pub struct Inputs {
    /// The bytes of its files.
    pub files: Vec<Vec<u8>>,
    /// The bytes of its cache, where it has one that is not missing.
    pub cache: Option<Vec<u8>>,
}

/// The files of a call, with the words that name them.
#[derive(Clone, Copy)]
pub struct CallFiles<'a> {
    /// The words.
    pub words: &'a [String],
    /// The indexes of those that name its files.
    pub indexes: &'a [u32],
    /// The bytes that were read of each.
    pub read: &'a [Vec<u8>],
    /// The bytes that were read of its cache, where it has one that is not missing.
    pub cache: &'a Option<Vec<u8>>,
}

/// Reads the cache of a command, if it has one.
fn read_its_cache<F: Files>(
    alloc: Global,
    command: Command,
    words: &[String],
    files: &mut F,
) -> Result<Option<Vec<u8>>, Unread>
    requires { IfSome (cache_index command) (λ index. index < length words.now) }
    ensures read { (under : Option (List ℕ)) × IsCacheUnder (F.held files.old) (command_cache (words_bytes words.now) command) under
        × ReadsItsCache command under (Rose (F.faults files.old) (F.faults files.new)) result }
    ensures files { F.held files.new ≡ F.held files.old }
    ensures missed_kept { Kept (F.missed files.old) (F.missed files.new) }
    ensures faults_kept { Kept (F.faults files.old) (F.faults files.new) }
{
    match command.cache() {
        Some(index) => read_cache(alloc, words, index, files),
        None => Ok(None),
    }
}

/// Reads the files of a command, which the words at these indexes name, in order, and then its cache, each cut to its
/// first `READ_LIMIT` bytes. The first that is not read ends the call. The cache may be missing.
pub fn read_inputs<F: Files>(
    alloc: Global,
    command: Command,
    words: &[String],
    indexes: &[u32],
    files: &mut F,
) -> Result<Inputs, Unread>
    requires inside { All (λ index. index < length words.now) indexes.now }
    requires named { IfSome (cache_index command) (λ index. index < length words.now) }
    requires indexes { indexes.now ≡ file_indexes command }
    ensures read { let given = words_bytes words.now in
        (met : CallMet) × IsMet (F.held files.old) (words_at given (file_indexes command)) (command_cache given command) met
        × ReadsCall given command met (Rose (F.missed files.old) (F.missed files.new)) (Rose (F.faults files.old) (F.faults files.new)) result }
    ensures files { F.held files.new ≡ F.held files.old }
    ensures missed_kept { Kept (F.missed files.old) (F.missed files.new) }
    ensures faults_kept { Kept (F.faults files.old) (F.faults files.new) }
{
    let read = read_files(alloc, words, indexes, files)?;
    let cache = read_its_cache(alloc, command, words, files)?;
    Ok(Inputs { files: read, cache })
}
