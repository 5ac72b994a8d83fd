//! The files of a command, read before it is answered.

#![tactic(auto, using(cc_base::proofs::CountLemmas::counts))]

ghost use Rattle.std.specs.Prelude.{◌≡◌, ◌<◌, All, List, Option, length, ℕ};
ghost use Rattle.cc_base.specs.Counts.{Rose, Kept};
ghost use Rattle.check_driver.specs.Met.{AreUnder, IsUnder, Reads, ReadsCache, ReadsOne};
ghost use Rattle.command_words.specs.Words.{word_at, words_at, words_bytes};
ghost use Rattle.check_driver.specs.declared.reading.Unread.TheVariants.{NoMemory};

use cc_base::{Files, ReadRefusal};
use command_words::word_at;
use std::alloc::{AllocFailed, Global};

/// The reasons why the files of a command were not read. A file is given by the list index of the word that names it.
#[derive(Clone, Copy)]
pub enum Unread {
    /// It is not there.
    Missing(u32),
    /// A device refused to give it.
    Failed(u32),
    /// Memory ran out.
    NoMemory,
}

impl<T: Drop> From<AllocFailed<T>> for Unread {
    ghost from_gives = { λ _ e. e ≡ NoMemory };

    fn from(_error: AllocFailed<T>) -> Unread {
        Unread::NoMemory
    }
}

/// Reads the file that the word at an index names.
fn read_file<F: Files>(
    alloc: Global,
    words: &[String],
    index: u32,
    files: &mut F,
) -> Result<Vec<u8>, Unread>
    requires { index < length words.now }
    ensures read { (under : Option (List ℕ))
        × IsUnder (F.held files.old) (word_at (words_bytes words.now) index) under
        × ReadsOne index under (Rose (F.missed files.old) (F.missed files.new)) (Rose (F.faults files.old) (F.faults files.new)) result }
    ensures files { F.held files.new ≡ F.held files.old }
    ensures missed_kept { Kept (F.missed files.old) (F.missed files.new) }
    ensures faults_kept { Kept (F.faults files.old) (F.faults files.new) }
{
    match files.read(alloc, word_at(words, index)) {
        Ok(bytes) => Ok(bytes),
        Err(ReadRefusal::Missing) => Err(Unread::Missing(index)),
        Err(ReadRefusal::Failed) => Err(Unread::Failed(index)),
        Err(ReadRefusal::NoMemory) => Err(Unread::NoMemory),
    }
}

/// Reads the files that the words at these indexes name, in order, each cut to its first `READ_LIMIT` bytes.
/// The first that is not read ends the call.
pub fn read_files<F: Files>(
    alloc: Global,
    words: &[String],
    indexes: &[u32],
    files: &mut F,
) -> Result<Vec<Vec<u8>>, Unread>
    requires { All (λ index. index < length words.now) indexes.now }
    ensures read { let given = words_bytes words.now in
        (met : List (Option (List ℕ))) × AreUnder (F.held files.old) (words_at given indexes.now) met
        × Reads given indexes.now met (Rose (F.missed files.old) (F.missed files.new)) (Rose (F.faults files.old) (F.faults files.new)) result }
    ensures files { F.held files.new ≡ F.held files.old }
    ensures missed_kept { Kept (F.missed files.old) (F.missed files.new) }
    ensures faults_kept { Kept (F.faults files.old) (F.faults files.new) }
{
    let mut read = Vec::new(alloc);
    for word in indexes {
        read.push(read_file(alloc, words, *word, files)?)?;
    }
    Ok(read)
}

/// Reads the cache that the word at an index names, cut to its first `READ_LIMIT` bytes. It may be missing.
pub fn read_cache<F: Files>(
    alloc: Global,
    words: &[String],
    index: u32,
    files: &mut F,
) -> Result<Option<Vec<u8>>, Unread>
    requires { index < length words.now }
    ensures read { (under : Option (List ℕ))
        × IsUnder (F.held files.old) (word_at (words_bytes words.now) index) under
        × ReadsCache index under (Rose (F.faults files.old) (F.faults files.new)) result }
    ensures files { F.held files.new ≡ F.held files.old }
    ensures missed_kept { Kept (F.missed files.old) (F.missed files.new) }
    ensures faults_kept { Kept (F.faults files.old) (F.faults files.new) }
{
    match read_file(alloc, words, index, files) {
        Ok(bytes) => Ok(Some(bytes)),
        Err(Unread::Missing(_)) => Ok(None),
        Err(Unread::Failed(index)) => Err(Unread::Failed(index)),
        Err(Unread::NoMemory) => Err(Unread::NoMemory),
    }
}
