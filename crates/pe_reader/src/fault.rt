//! Why a file is refused.

ghost use Rattle.std.specs.Prelude.{◌≡◌};
ghost use Rattle.pe_reader.specs.Faults.{offset_of};

use thiserror::Error;

/// What is wrong with a file: the first fault in reading order.
#[derive(Clone, Copy, Debug, PartialEq, Eq, Error)]
pub enum PeFault {
    /// The field at this file offset passes the file's end.
    #[error("file too short at {0:08x}")]
    TooShort(u32),
    /// The signature or the magic number at this file offset is that of no PE file.
    #[error("not a PE file at {0:08x}")]
    NotPe(u32),
    /// The data directory at this file offset names no CLI header.
    #[error("no CLI header at {0:08x}")]
    NoCli(u32),
    /// What stands at this address (RVA) is not found in the file.
    #[error("address outside at {0:08x}")]
    RvaOutside(u32),
}

impl PeFault {
    /// The offset in the file that the fault names; for an address outside it is the address (RVA).
    pub fn at(self) -> u32
        ensures { result ≡ offset_of self }
    {
        match self {
            PeFault::TooShort(at) | PeFault::NotPe(at) | PeFault::NoCli(at) => at,
            PeFault::RvaOutside(rva) => rva,
        }
    }
}
