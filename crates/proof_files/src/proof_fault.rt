//! Why bytes are no proof file.

ghost use Rattle.std.specs.Prelude.{◌≡◌};
ghost use Rattle.cc_base.specs.declared.refusal.Refusal.TheVariants.{Bad};

use cc_base::Refusal;
use thiserror::Error;

/// The first thing that is wrong with a proof file, with its offset where it has one.
#[derive(Clone, Copy, Debug, PartialEq, Eq, Error)]
pub enum ProofFault {
    /// The file begins with another line.
    #[error("version")]
    Version,
    /// What begins here is no entry, or the file ends within an entry.
    #[error("form at {0:08x}")]
    Form(u32),
    /// The file has more bytes than a proof file may have.
    #[error("too large")]
    Large,
}

/// Why a proof file was not read: its first fault, or memory ran out.
pub type ProofRefusal = Refusal<ProofFault>;

impl From<ProofFault> for Refusal<ProofFault> {
    ghost from_gives = { λ fault refusal. refusal ≡ Bad fault };

    fn from(fault: ProofFault) -> Refusal<ProofFault> {
        Refusal::Bad(fault)
    }
}
