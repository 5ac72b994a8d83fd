//! Why a blob is no signature.

ghost use Rattle.std.specs.Prelude.{◌≡◌};
ghost use Rattle.signature_blobs.specs.Faults.{offset_of};

use thiserror::Error;

/// The first thing that is wrong with a blob. The number is an offset in the blob.
#[derive(Clone, Copy, Debug, PartialEq, Eq, Error)]
pub enum SigFault {
    /// The blob ends before this byte.
    #[error("short at {0:08x}")]
    Short(u32),
    /// The byte at this offset begins no such thing.
    #[error("form at {0:08x}")]
    Form(u32),
}

impl SigFault {
    /// The offset in the blob, which is the blob's length where the blob ends too early.
    pub fn at(self) -> u32
        ensures { result ≡ offset_of self }
    {
        match self {
            SigFault::Short(at) | SigFault::Form(at) => at,
        }
    }
}
