//! Files in memory, for tests: they hold what they were given, and fail where they are told to.

ghost use Rattle.std.specs.Prelude.{◌≡◌, ◌↔◌, [], Option, Some, IsTrue, IsSome, IsNone, IsErrOf, Contains, OnOk, OnErr, IfOk, position, take, option_copied};
ghost use Rattle.std.specs.Option.{ForSome};
ghost use Rattle.cc_base.specs.Counts.{count_up, Rose, Kept};
ghost use Rattle.cc_base.specs.Files.{Replaces, IsRead};
ghost use Rattle.cc_base.specs.MapFiles.{held_in, is_named, missed_after, read_faults_after, replace_faults_after};

use crate::NoMemory;
use crate::files::{Files, READ_LIMIT, ReadRefusal, ReplaceRefusal};
use std::alloc::Global;

/// Bytes under a name.
#[derive(Drop)]
pub struct NamedFile {
    /// The name, as it is passed to `read` and `replace`.
    pub name: String,
    /// What the file holds.
    pub bytes: Vec<u8>,
}

/// Files in memory. Of two files of one name, the first counts. Each counter stays at 2^64 - 1 once
/// it is there.
#[derive(Drop)]
pub struct MapFiles {
    /// The files that are held.
    pub files: Vec<NamedFile>,
    /// The number of reads.
    pub reads: u64,
    /// The reads that are to fail, by their number from 1, where they name a file that is held.
    pub fail_reads: Vec<u64>,
    /// The number of replacements.
    pub replaces: u64,
    /// The replacements that are to fail, by their number from 1.
    pub fail_replaces: Vec<u64>,
    /// The number of reads that found no file.
    pub missed: u64,
    /// The number of calls that failed because they were to.
    pub faults: u64,
}

impl MapFiles {
    /// No files, of which nothing was asked yet, and whose calls are not to fail.
    pub fn new(alloc: Global) -> MapFiles
        ensures files { result.files.items ≡ [] }
        ensures calls { (result.reads ≡ 0) × (result.replaces ≡ 0) }
        ensures to_fail { (result.fail_reads.items ≡ []) × (result.fail_replaces.items ≡ []) }
        ensures refused { (result.missed ≡ 0) × (result.faults ≡ 0) }
    {
        MapFiles {
            files: Vec::new(alloc),
            reads: 0,
            fail_reads: Vec::new(alloc),
            replaces: 0,
            fail_replaces: Vec::new(alloc),
            missed: 0,
            faults: 0,
        }
    }

    /// Puts the bytes under the name, in place of what it held, and counts no call. Where memory runs
    /// out, nothing changes.
    pub fn hold(&mut self, alloc: Global, name: &str, bytes: &[u8]) -> Result<(), NoMemory>
        ensures ok { OnOk result
            (Replaces (held_in self.old.files.items) (held_in self.new.files.items) name.now bytes.now) }
        ensures err { OnErr result (held_in self.new.files.items ≡ held_in self.old.files.items) }
        ensures rest { self.new ≡ record self.old { files = self.new.files } }
    {
        let bytes = Vec::from_slice(alloc, bytes)?;
        match index_of(&self.files, name) {
            Some(index) => self.files[index].bytes = bytes,
            None => {
                let name = String::from_str(alloc, name)?;
                self.files.push(NamedFile { name, bytes })?;
            }
        }
        Ok(())
    }

    /// The bytes under the name. It counts no call.
    pub fn get(&self, name: &str) -> Option<&[u8]>
        ensures { option_copied result ≡ held_in self.now.files.items name.now }
    {
        match index_of(&self.files, name) {
            Some(index) => Some(&self.files[index].bytes),
            None => None,
        }
    }

    /// Counts a read, and says whether it is to fail.
    fn begin_read(&mut self) -> bool
        ensures fails { IsTrue result ↔ Contains self.old.fail_reads.items (count_up self.old.reads) }
        ensures counted { self.new ≡ record self.old { reads = count_up self.old.reads } }
    {
        self.reads = self.reads.saturating_add(1);
        self.fail_reads.contains(&self.reads)
    }

    /// Counts a replacement, and says whether it is to fail.
    fn begin_replace(&mut self) -> bool
        ensures fails { IsTrue result ↔ Contains self.old.fail_replaces.items (count_up self.old.replaces) }
        ensures counted { self.new ≡ record self.old { replaces = count_up self.old.replaces } }
    {
        self.replaces = self.replaces.saturating_add(1);
        self.fail_replaces.contains(&self.replaces)
    }
}

impl Files for MapFiles {
    ghost held = { λ m. Some (held_in m.files.items) };

    ghost missed = { λ m. m.missed };

    ghost faults = { λ m. m.faults };

    fn read(&mut self, alloc: Global, name: &str) -> Result<Vec<u8>, ReadRefusal>
        ensures found { IfOk result (λ bytes.
            ForSome (Some (held_in self.old.files.items)) (λ h. IsRead (h name.now) bytes.items)) }
        ensures missing_cause { IsErrOf result ReadRefusal.Missing → Rose self.old.missed self.new.missed }
        ensures failed_cause { IsErrOf result ReadRefusal.Failed → Rose self.old.faults self.new.faults }
        ensures missed_kept { Kept self.old.missed self.new.missed }
        ensures faults_kept { Kept self.old.faults self.new.faults }

        // A name that is not held is missing, and of the others the listed reads fail and no others.
        ensures not_held { IsErrOf result ReadRefusal.Missing ↔ IsNone (held_in self.old.files.items name.now) }
        ensures listed { IsErrOf result ReadRefusal.Failed ↔
            (IsSome (held_in self.old.files.items name.now)
            × Contains self.old.fail_reads.items (count_up self.old.reads)) }
        ensures counted { self.new ≡ record self.old {
          reads = count_up self.old.reads;
          missed = missed_after result self.old.missed;
          faults = read_faults_after result self.old.faults;
        } }
    {
        let fails = self.begin_read();
        let Some(bytes) = self.get(name) else {
            self.missed = self.missed.saturating_add(1);
            return Err(ReadRefusal::Missing);
        };
        if fails {
            self.faults = self.faults.saturating_add(1);
            return Err(ReadRefusal::Failed);
        }
        Ok(first_bytes(alloc, bytes)?)
    }

    fn replace(&mut self, alloc: Global, name: &str, bytes: &[u8]) -> Result<(), ReplaceRefusal>
        ensures ok { OnOk result
            (Replaces (held_in self.old.files.items) (held_in self.new.files.items) name.now bytes.now) }
        ensures no_memory { IsErrOf result ReplaceRefusal.NoMemory →
            held_in self.new.files.items ≡ held_in self.old.files.items }
        ensures failed_cause { IsErrOf result ReplaceRefusal.Failed → Rose self.old.faults self.new.faults }
        ensures faults_kept { Kept self.old.faults self.new.faults }

        // The listed replacements fail and no others, and they change no file.
        ensures listed { IsErrOf result ReplaceRefusal.Failed ↔
            Contains self.old.fail_replaces.items (count_up self.old.replaces) }
        ensures none_changed { IsErrOf result ReplaceRefusal.Failed → self.new.files ≡ self.old.files }
        ensures counted { self.new ≡ record self.old {
          files = self.new.files;
          replaces = count_up self.old.replaces;
          faults = replace_faults_after result self.old.faults;
        } }
    {
        if self.begin_replace() {
            self.faults = self.faults.saturating_add(1);
            return Err(ReplaceRefusal::Failed);
        }
        self.hold(alloc, name, bytes)?;
        Ok(())
    }
}

/// A copy of the bytes, cut to the first `READ_LIMIT`.
fn first_bytes(alloc: Global, bytes: &[u8]) -> Result<Vec<u8>, NoMemory>
    ensures { IfOk result (λ copy. copy.items ≡ take READ_LIMIT bytes.now) }
{
    Vec::from_slice(alloc, &bytes[..bytes.len().min(READ_LIMIT)])
}

/// The index of the first file of the name.
fn index_of(files: &[NamedFile], name: &str) -> Option<usize>
    ensures { result ≡ position (is_named name.now) files.now }
{
    files.iter().position(|file| file.name.as_str() == name)
}
