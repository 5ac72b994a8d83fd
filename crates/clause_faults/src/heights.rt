//! How many values the stacks have that come to an instruction.

ghost use Rattle.std.specs.Prelude.{◌≡◌};
ghost use Rattle.std.specs.List.{list_any};
ghost use Rattle.clause_faults.specs.SharedStacks.{arrivals_at, differs, lacks};

use crate::ways::arrivals::{Arrival, Arrivals, arrivals_at};

/// Returns whether a stack for which the arrival stands has fewer values than this.
#[cycle(lacks)]
#[tactic(auto, using(crate::proofs::FaultLemmas::HeightLemmas::lacking))]
fn lacks(stacks: &[Arrivals], count: usize, top: Arrival) -> bool
    ensures { result ≡ lacks count stacks.now top }
{
    if count == 0 {
        return false;
    }
    match top {
        Arrival::Empty => true,
        Arrival::Over(_, below) => any_lacks(stacks, count - 1, arrivals_at(stacks, below)),
    }
}

/// Returns whether some stack has fewer values than this.
#[cycle(lacks)]
pub(crate) fn any_lacks(stacks: &[Arrivals], count: usize, tops: &[Arrival]) -> bool
    ensures { result ≡ list_any (λ top. lacks count stacks.now top) tops.now }
{
    if count == 0 {
        return false;
    }
    for top in tops {
        if lacks(stacks, count, *top) {
            return true;
        }
    }
    false
}

/// Returns whether a stack for which the arrival stands has fewer values than this, or more.
#[cycle(differs)]
#[tactic(auto, using(crate::proofs::FaultLemmas::HeightLemmas::differing))]
fn differs(stacks: &[Arrivals], count: usize, top: Arrival) -> bool
    ensures { result ≡ differs count stacks.now top }
{
    match top {
        Arrival::Empty => count != 0,
        Arrival::Over(_, below) => {
            if count == 0 {
                return true;
            }
            any_differs(stacks, count - 1, arrivals_at(stacks, below))
        }
    }
}

/// Returns whether some stack has fewer values than this, or more.
#[cycle(differs)]
pub(crate) fn any_differs(stacks: &[Arrivals], count: usize, tops: &[Arrival]) -> bool
    ensures { result ≡ list_any (λ top. differs count stacks.now top) tops.now }
{
    for top in tops {
        if differs(stacks, count, *top) {
            return true;
        }
    }
    false
}
