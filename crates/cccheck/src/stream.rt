//! The standard streams as sinks.

ghost use Rattle.std.specs.Prelude.{None};

use cc_base::{PutRefusal, Sink};
use std::alloc::Global;
use std::io::Write;

/// A stream of the system. What was written to it is not told.
#[derive(Drop)]
pub struct Stream<W> {
    writer: W,
    faults: u64,
}

impl<W: Write + Drop> Stream<W> {
    pub fn new(writer: W) -> Stream<W> {
        Stream { writer, faults: 0 }
    }
}

impl<W: Write + Drop> Sink for Stream<W> {
    ghost written = { λ _. None };

    ghost puts = { λ _. None };

    ghost faults = { λ s. s.faults };

    fn put(&mut self, _alloc: Global, bytes: &[u8]) -> Result<(), PutRefusal> {
        if self.writer.write_all(bytes).is_err() || self.writer.flush().is_err() {
            self.faults = self.faults.saturating_add(1);
            return Err(PutRefusal::Failed);
        }
        Ok(())
    }
}
