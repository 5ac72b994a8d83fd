//! Why a call that takes memory gave nothing.

ghost use Rattle.std.specs.Prelude.{◌≡◌};
ghost use Rattle.cc_base.specs.declared.refusal.Refusal.TheVariants.{NoMemory};

use std::alloc::{AllocError, AllocFailed};
use std::error::Error;
use std::fmt;

/// Why a call that takes memory gave nothing.
#[derive(Clone, Copy, Debug, PartialEq, Eq)]
pub enum Refusal<F> {
    /// What was given to it is at fault.
    Bad(F),
    /// Memory ran out.
    NoMemory,
}

impl<F> From<AllocError> for Refusal<F> {
    ghost from_gives = { λ _ e. e ≡ NoMemory };

    fn from(_error: AllocError) -> Refusal<F> {
        Refusal::NoMemory
    }
}

impl<F, T: Drop> From<AllocFailed<T>> for Refusal<F> {
    ghost from_gives = { λ _ e. e ≡ NoMemory };

    fn from(_error: AllocFailed<T>) -> Refusal<F> {
        Refusal::NoMemory
    }
}

impl<F: fmt::Display> fmt::Display for Refusal<F> {
    fn fmt<W: fmt::Write>(&self, f: &mut fmt::Formatter<W>) -> fmt::Result {
        match self {
            Refusal::Bad(fault) => write!(f, "{fault}"),
            Refusal::NoMemory => write!(f, "out of memory"),
        }
    }
}

impl<F: Error> Error for Refusal<F> {}
