//! Why a method's clauses cannot be read from its code.

ghost use Rattle.std.specs.Prelude.{◌≡◌};
ghost use Rattle.cc_base.specs.declared.refusal.Refusal.TheVariants.{Bad};
ghost use Rattle.clause_faults.specs.Faults.{fault_at};

use cc_base::Refusal;
use thiserror::Error;

/// What is wrong with the contract block of a method, or with what its body has to do with the block. The number is
/// an IL offset.
#[derive(Clone, Copy, Debug, PartialEq, Eq, Error)]
pub enum ClauseFault {
    /// Something in the block that does more than compute a value: a store, a copy, a call of another
    /// method, a switch, a return; or a local, which no clause knows.
    #[error("not pure at IL_{0:04x}")]
    NotPure(u32),
    /// A branch of the block to itself or to below.
    #[error("backward at IL_{0:04x}")]
    Backward(u32),
    /// On some way that goes forward from where the clause's code starts, a call that closes something meets more
    /// values than its own or fewer, or an operation before it meets too few.
    #[error("stack left at IL_{0:04x}")]
    StackLeft(u32),
    /// A branch of a clause out of its own code, or of the body into the block.
    #[error("into block at IL_{0:04x}")]
    IntoBlock(u32),
    /// `Result` or `OldValue` where it may not stand, of another type than it has to be, or over such a value.
    #[error("old form at IL_{0:04x}")]
    OldForm(u32),
    /// A closing call whose clause passes a limit, or with which the method's clauses do.
    #[error("too long at IL_{0:04x}")]
    TooLong(u32),
}

impl ClauseFault {
    /// The IL offset.
    pub fn at(self) -> u32
        ensures { result ≡ fault_at self }
    {
        match self {
            ClauseFault::NotPure(at)
            | ClauseFault::Backward(at)
            | ClauseFault::StackLeft(at)
            | ClauseFault::IntoBlock(at)
            | ClauseFault::OldForm(at)
            | ClauseFault::TooLong(at) => at,
        }
    }
}

/// Why the clauses were not read: their first fault, or memory ran out.
pub type ClauseRefusal = Refusal<ClauseFault>;

impl From<ClauseFault> for Refusal<ClauseFault> {
    ghost from_gives = { λ fault refusal. refusal ≡ Bad fault };

    fn from(fault: ClauseFault) -> Refusal<ClauseFault> {
        Refusal::Bad(fault)
    }
}
