//! Why bytes are no states.

ghost use Rattle.std.specs.Prelude.{◌≡◌};
ghost use Rattle.cc_base.specs.declared.refusal.Refusal.TheVariants.{Bad};

use cc_base::Refusal;
use thiserror::Error;

/// The first thing that is wrong with the bytes of an invariant, with its offset among them.
#[derive(Clone, Copy, Debug, PartialEq, Eq, Error)]
pub enum InvFault {
    /// A field passes the end.
    #[error("invariant short at {0:08x}")]
    Short(u32),
    /// A field breaks the form, or bytes are left behind the last one.
    #[error("invariant form at {0:08x}")]
    Form(u32),
}

/// Why an invariant was not read: the first fault of its bytes, or memory ran out.
pub type InvRefusal = Refusal<InvFault>;

impl From<InvFault> for Refusal<InvFault> {
    ghost from_gives = { λ fault refusal. refusal ≡ Bad fault };

    fn from(fault: InvFault) -> Refusal<InvFault> {
        Refusal::Bad(fault)
    }
}
