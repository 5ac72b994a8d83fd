//! Why a file is no unit.

ghost use Rattle.std.specs.Prelude.{◌≡◌};
ghost use Rattle.cc_base.specs.declared.refusal.Refusal.TheVariants.{Bad};
ghost use Rattle.unit_form.specs.Faults.{fault_at};

use cc_base::Refusal;
use thiserror::Error;

/// The first thing that is wrong with a unit file, with its offset in the file.
#[derive(Clone, Copy, Debug, PartialEq, Eq, Error)]
pub enum UnitFault {
    /// A field passes the end of the file.
    #[error("unit short at {0:08x}")]
    Short(u32),
    /// A field or an instruction breaks the form, or passes a limit.
    #[error("unit form at {0:08x}")]
    Form(u32),
    /// The file has another version of the form.
    #[error("unit version at {0:08x}")]
    Version(u32),
}

impl UnitFault {
    /// The offset in the file.
    pub fn at(self) -> u32
        ensures { result ≡ fault_at self }
    {
        match self {
            UnitFault::Short(offset) | UnitFault::Form(offset) | UnitFault::Version(offset) =>
                offset,
        }
    }
}

/// Why a unit was not read: its first fault, or memory ran out.
pub type UnitRefusal = Refusal<UnitFault>;

impl From<UnitFault> for Refusal<UnitFault> {
    ghost from_gives = { λ fault refusal. refusal ≡ Bad fault };

    fn from(fault: UnitFault) -> Refusal<UnitFault> {
        Refusal::Bad(fault)
    }
}
