//! The files of the system.

ghost use Rattle.std.specs.Prelude.{◌≡◌, None};
ghost use Rattle.cc_base.specs.Counts.{Rose, Kept};

use crate::replacing::replace;
use cc_base::{Files, READ_LIMIT, ReadRefusal, ReplaceRefusal};
use std::alloc::Global;
use std::fs;
use std::io::{self, ErrorKind, Read};

/// The files of the system. What they hold is not told.
#[derive(Drop)]
pub struct Disk<R> {
    rt: R,
    missed: u64,
    faults: u64,
}

impl<R: fs::Files + Drop> Disk<R> {
    pub fn new(rt: R) -> Disk<R> {
        Disk {
            rt,
            missed: 0,
            faults: 0,
        }
    }

    /// Counts a read that the system refused for this reason.
    fn refused(&mut self, reason: ErrorKind) -> ReadRefusal
        ensures missing { result ≡ ReadRefusal.Missing → Rose self.old.missed self.new.missed }
        ensures failed { result ≡ ReadRefusal.Failed → Rose self.old.faults self.new.faults }
        ensures missed_kept { Kept self.old.missed self.new.missed }
        ensures faults_kept { Kept self.old.faults self.new.faults }
    {
        match reason {
            ErrorKind::OutOfMemory => ReadRefusal::NoMemory,
            ErrorKind::NotFound => {
                self.missed = self.missed.saturating_add(1);
                ReadRefusal::Missing
            }
            _ => {
                self.faults = self.faults.saturating_add(1);
                ReadRefusal::Failed
            }
        }
    }
}

/// Returns what stands under a name, cut to the first `READ_LIMIT` bytes.
fn read_cut(alloc: Global, rt: &impl fs::Files, name: &str) -> io::Result<Vec<u8>> {
    let mut bytes = Vec::new(alloc);
    let file = fs::open(rt, name)?;
    file.take(READ_LIMIT as u64).read_to_end(&mut bytes)?;
    Ok(bytes)
}

impl<R: fs::Files + Drop> Files for Disk<R> {
    ghost held = { λ _. None };

    ghost missed = { λ d. d.missed };

    ghost faults = { λ d. d.faults };

    fn read(&mut self, alloc: Global, name: &str) -> Result<Vec<u8>, ReadRefusal> {
        match read_cut(alloc, &self.rt, name) {
            Ok(bytes) => Ok(bytes),
            Err(error) => Err(self.refused(error.kind())),
        }
    }

    fn replace(&mut self, alloc: Global, name: &str, bytes: &[u8]) -> Result<(), ReplaceRefusal> {
        match replace(alloc, &self.rt, name, bytes) {
            Ok(()) => Ok(()),
            Err(error) if error.kind() == ErrorKind::OutOfMemory => Err(ReplaceRefusal::NoMemory),
            Err(_) => {
                self.faults = self.faults.saturating_add(1);
                Err(ReplaceRefusal::Failed)
            }
        }
    }
}
