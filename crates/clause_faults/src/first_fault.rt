//! Which of a clause's faults is first.

ghost use Rattle.std.specs.Prelude.{◌≡◌};
ghost use Rattle.clause_faults.specs.Faults.{comes_before, fault_if, fault_rank, first_fault};
ghost use Rattle.clause_faults.specs.SharedStacks.{either};

use crate::clause_fault::ClauseFault;

/// The place of a fault among those of one instruction.
fn fault_rank(fault: ClauseFault) -> u8
    ensures { result ≡ fault_rank fault }
{
    match fault {
        ClauseFault::NotPure(_) => 1,
        ClauseFault::Backward(_) => 2,
        ClauseFault::StackLeft(_) => 3,
        ClauseFault::IntoBlock(_) => 4,
        ClauseFault::OldForm(_) => 5,
        ClauseFault::TooLong(_) => 6,
    }
}

/// Returns whether the one fault comes before the other.
fn comes_before(a: ClauseFault, b: ClauseFault) -> bool
    ensures { result ≡ comes_before a b }
{
    let (at, other) = (a.at(), b.at());
    at < other || (at == other && fault_rank(a) < fault_rank(b))
}

/// The earlier of two faults, where there are any.
pub fn either(a: Option<ClauseFault>, b: Option<ClauseFault>) -> Option<ClauseFault>
    ensures { result ≡ either a b }
{
    match (a, b) {
        (None, b) => b,
        (Some(a), None) => Some(a),
        (Some(a), Some(b)) => Some(if comes_before(b, a) { b } else { a }),
    }
}

/// The fault, where something is broken.
pub fn fault_if(broken: bool, fault: ClauseFault) -> Option<ClauseFault>
    ensures { result ≡ first_fault (fault_if broken fault) }
{
    if broken { Some(fault) } else { None }
}
