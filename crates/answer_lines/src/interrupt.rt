//! Why a call ended before its answer was whole.

ghost use Rattle.std.specs.Prelude.{◌≡◌};
ghost use Rattle.answer_lines.specs.declared.interrupt.Interrupt.TheVariants.{CannotWrite, NoMemory};
ghost use Rattle.answer_lines.specs.Writing.{interrupt_by_replace, interrupt_of};

use cc_base::{PutRefusal, ReplaceRefusal};
use std::alloc::{AllocError, AllocFailed};

/// Why a call ended before its answer was whole.
#[derive(Clone, Copy)]
pub enum Interrupt {
    /// A sink refused, or a file was not replaced.
    CannotWrite,
    /// Memory ran out.
    NoMemory,
}

impl From<AllocError> for Interrupt {
    ghost from_gives = { λ _ e. e ≡ NoMemory };

    fn from(_error: AllocError) -> Interrupt {
        Interrupt::NoMemory
    }
}

impl<T: Drop> From<AllocFailed<T>> for Interrupt {
    ghost from_gives = { λ _ e. e ≡ NoMemory };

    fn from(_error: AllocFailed<T>) -> Interrupt {
        Interrupt::NoMemory
    }
}

impl From<PutRefusal> for Interrupt {
    ghost from_gives = { λ refusal e. e ≡ interrupt_of refusal };

    fn from(refusal: PutRefusal) -> Interrupt {
        match refusal {
            PutRefusal::Failed => Interrupt::CannotWrite,
            PutRefusal::NoMemory => Interrupt::NoMemory,
        }
    }
}

impl From<ReplaceRefusal> for Interrupt {
    ghost from_gives = { λ refusal e. e ≡ interrupt_by_replace refusal };

    fn from(refusal: ReplaceRefusal) -> Interrupt {
        match refusal {
            ReplaceRefusal::Failed => Interrupt::CannotWrite,
            ReplaceRefusal::NoMemory => Interrupt::NoMemory,
        }
    }
}
