//! Why a file is no assembly.

ghost use Rattle.std.specs.Prelude.{◌≡◌};
ghost use Rattle.cc_base.specs.declared.refusal.Refusal.TheVariants.{Bad};

use cc_base::Refusal;
use metadata_tables::TableFault;
use pe_reader::PeFault;
use signature_blobs::SigFault;
use thiserror::Error;

/// What is wrong with a file.
#[derive(Clone, Copy, Debug, PartialEq, Eq, Error)]
pub enum Cause {
    /// The file has more than 67,108,864 bytes.
    #[error("file too large")]
    Large,
    /// The file is no PE file with a CLI header.
    #[error(transparent)]
    Pe(PeFault),
    /// The metadata is not in order.
    #[error(transparent)]
    Table(TableFault),
    /// A method's signature is none.
    #[error(transparent)]
    Sig(SigFault),
}

/// The first fault of a file in the order of reading.
#[derive(Clone, Copy, Debug, PartialEq, Eq, Error)]
#[error("{cause}, in the file at {at:08x}")]
pub struct AsmFault {
    /// Where in the file it is. For an address that is not found it is the address (RVA).
    pub at: u32,
    /// What is wrong. Its own offset counts from the start of the file, of the metadata or of the signature.
    pub cause: Cause,
}

/// Why an assembly was not read.
pub type AsmRefusal = Refusal<AsmFault>;

impl From<AsmFault> for Refusal<AsmFault> {
    ghost from_gives = { λ fault e. e ≡ Bad fault };

    fn from(fault: AsmFault) -> Refusal<AsmFault> {
        Refusal::Bad(fault)
    }
}
