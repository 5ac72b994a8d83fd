//! Why code has no instructions.

ghost use Rattle.std.specs.Prelude.{◌≡◌};
ghost use Rattle.cc_base.specs.declared.refusal.Refusal.TheVariants.{Bad};
ghost use Rattle.il_decoder.specs.Faults.{fault_at};

use cc_base::Refusal;
use thiserror::Error;

/// The first thing that is wrong with a method's code. The first number is an IL offset.
#[derive(Clone, Copy, Debug, PartialEq, Eq, Error)]
pub enum IlFault {
    /// An instruction, or the body, runs past its end.
    #[error("short at {0:04x}")]
    Short(u32),
    /// The bytes begin no instruction. The second number is the opcode, of one byte or of two.
    #[error("opcode {1:02x} at {0:04x}")]
    Opcode(u32, u16),
    /// A branch meets no instruction's start.
    #[error("target at {0:04x}")]
    Target(u32),
    /// The body has no header that can be read.
    #[error("header at {0:04x}")]
    Header(u32),
}

impl IlFault {
    /// The IL offset.
    pub fn at(self) -> u32
        ensures { result ≡ fault_at self }
    {
        match self {
            IlFault::Short(at)
            | IlFault::Opcode(at, _)
            | IlFault::Target(at)
            | IlFault::Header(at) => at,
        }
    }
}

/// Why code was not decoded.
pub type IlRefusal = Refusal<IlFault>;

impl From<IlFault> for Refusal<IlFault> {
    ghost from_gives = { λ fault refusal. refusal ≡ Bad fault };

    fn from(fault: IlFault) -> Refusal<IlFault> {
        Refusal::Bad(fault)
    }
}
