//! Answers to searches.

ghost use Rattle.std.specs.Prelude.{◌≡◌};
ghost use Rattle.witness_search.specs.declared.answer.SearchRefusal.TheVariants.{NoMemory};

use cil_model::{Arg, FaultKind, List};
use std::alloc::AllocError;

/// What a search found.
#[derive(Drop)]
pub enum Search {
    /// A run with these arguments ends in a fault.
    Found {
        args: List<Arg>,
        kind: FaultKind,
        /// The index in the world of the unit that the fault is in.
        unit: u32,
        /// The fault's IL offset.
        at: u32,
    },
    /// No run ended in a fault.
    NotFound {
        /// The number of argument lists that were tried.
        tried: u32,
        /// The number of those whose run was started.
        started: u32,
    },
}

/// Why a search was not made.
#[derive(Clone, Copy, Debug, PartialEq, Eq)]
pub enum SearchRefusal {
    /// Memory ran out.
    NoMemory,
}

impl From<AllocError> for SearchRefusal {
    ghost from_gives = { λ _ e. e ≡ NoMemory };

    fn from(_error: AllocError) -> SearchRefusal {
        SearchRefusal::NoMemory
    }
}
