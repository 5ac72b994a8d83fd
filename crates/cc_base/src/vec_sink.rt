//! A sink in memory, for tests: it keeps what it was given, and fails where it is told to.

ghost use Rattle.std.specs.Prelude.{◌≡◌, ◌↔◌, [], Some, IsTrue, Contains, OnOk, IsErrOf, ◌++◌};
ghost use Rattle.cc_base.specs.Counts.{count_up, Rose, Kept};
ghost use Rattle.cc_base.specs.VecSink.{put_faults_after};

use crate::sink::{PutRefusal, Sink};
use std::alloc::Global;

/// A sink in memory. Each counter stays at 2^64 - 1 once it is there.
#[derive(Drop)]
pub struct VecSink {
    /// All that was written.
    pub bytes: Vec<u8>,
    /// The number of puts.
    pub puts: u64,
    /// The puts that are to fail and write nothing, by their number from 1.
    pub fail_puts: Vec<u64>,
    /// The number of puts that failed because they were to.
    pub faults: u64,
}

impl VecSink {
    /// A sink that nothing was written to, and whose puts are not to fail.
    pub fn new(alloc: Global) -> VecSink
        ensures bytes { result.bytes.items ≡ [] }
        ensures puts { result.puts ≡ 0 }
        ensures fail_puts { result.fail_puts.items ≡ [] }
        ensures faults { result.faults ≡ 0 }
    {
        VecSink {
            bytes: Vec::new(alloc),
            puts: 0,
            fail_puts: Vec::new(alloc),
            faults: 0,
        }
    }

    /// Counts a put, and says whether it is to fail.
    fn begin_put(&mut self) -> bool
        ensures fails { IsTrue result ↔ Contains self.old.fail_puts.items (count_up self.old.puts) }
        ensures counted { self.new ≡ record self.old { puts = count_up self.old.puts } }
    {
        self.puts = self.puts.saturating_add(1);
        self.fail_puts.contains(&self.puts)
    }
}

impl Sink for VecSink {
    ghost written = { λ s. Some s.bytes.items };

    ghost puts = { λ s. Some s.puts };

    ghost faults = { λ s. s.faults };

    fn put(&mut self, _alloc: Global, bytes: &[u8]) -> Result<(), PutRefusal>
        ensures ok { OnOk result (self.new.bytes.items ≡ self.old.bytes.items ++ bytes.now) }
        ensures no_memory { IsErrOf result PutRefusal.NoMemory → self.new.bytes.items ≡ self.old.bytes.items }
        ensures failed_cause { IsErrOf result PutRefusal.Failed → Rose self.old.faults self.new.faults }
        ensures faults_kept { Kept self.old.faults self.new.faults }

        // The listed puts fail and no others, and they write nothing.
        ensures listed { IsErrOf result PutRefusal.Failed ↔
            Contains self.old.fail_puts.items (count_up self.old.puts) }
        ensures none_written { IsErrOf result PutRefusal.Failed → self.new.bytes.items ≡ self.old.bytes.items }
        ensures counted { self.new ≡ record self.old {
          bytes = self.new.bytes;
          puts = count_up self.old.puts;
          faults = put_faults_after result self.old.faults;
        } }
    {
        if self.begin_put() {
            self.faults = self.faults.saturating_add(1);
            return Err(PutRefusal::Failed);
        }
        self.bytes.extend_from_slice(bytes)?;
        Ok(())
    }
}
