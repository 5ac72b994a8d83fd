//! Files and sinks in memory that may also lack the memory for a call.

ghost use Rattle.std.specs.Prelude.{Some, None};

use cc_base::{Files, MapFiles, PutRefusal, ReadRefusal, ReplaceRefusal, Sink, VecSink};
use std::alloc::Global;

/// Files in memory of which some reads and replacements lack memory.
#[derive(Drop)]
pub struct CaseFiles {
    pub files: MapFiles,
    /// The reads that lack memory, by their number from 1.
    pub lacking_reads: Vec<u64>,
    reads: u64,
    /// The replacements that lack memory, by their number from 1.
    pub lacking_replaces: Vec<u64>,
    /// The number of replacements, also of those that were refused.
    pub replaces: u64,
}

impl CaseFiles {
    /// Creates files without a name, of which no call lacks memory.
    pub fn new(alloc: Global) -> CaseFiles {
        CaseFiles {
            files: MapFiles::new(alloc),
            lacking_reads: Vec::new(alloc),
            reads: 0,
            lacking_replaces: Vec::new(alloc),
            replaces: 0,
        }
    }
}

impl Files for CaseFiles {
    ghost held = { λ _. None };

    ghost missed = { λ f. f.files.missed };

    ghost faults = { λ f. f.files.faults };

    fn read(&mut self, alloc: Global, name: &str) -> Result<Vec<u8>, ReadRefusal> {
        self.reads = self.reads.saturating_add(1);
        if self.lacking_reads.contains(&self.reads) {
            return Err(ReadRefusal::NoMemory);
        }
        self.files.read(alloc, name)
    }

    fn replace(&mut self, alloc: Global, name: &str, bytes: &[u8]) -> Result<(), ReplaceRefusal> {
        self.replaces = self.replaces.saturating_add(1);
        if self.lacking_replaces.contains(&self.replaces) {
            return Err(ReplaceRefusal::NoMemory);
        }
        self.files.replace(alloc, name, bytes)
    }
}

/// A sink in memory of which some puts lack memory.
#[derive(Drop)]
pub struct CaseSink {
    pub sink: VecSink,
    /// The puts that lack memory, by their number from 1.
    pub lacking: Vec<u64>,
    puts: u64,
}

impl CaseSink {
    /// Creates an empty sink, of which no put lacks memory.
    pub fn new(alloc: Global) -> CaseSink {
        CaseSink {
            sink: VecSink::new(alloc),
            lacking: Vec::new(alloc),
            puts: 0,
        }
    }
}

impl Sink for CaseSink {
    ghost written = { λ s. Some s.sink.bytes.items };

    ghost puts = { λ s. Some s.sink.puts };

    ghost faults = { λ s. s.sink.faults };

    fn put(&mut self, alloc: Global, bytes: &[u8]) -> Result<(), PutRefusal> {
        self.puts = self.puts.saturating_add(1);
        if self.lacking.contains(&self.puts) {
            return Err(PutRefusal::NoMemory);
        }
        self.sink.put(alloc, bytes)
    }
}
