//! Arrivals that differ in their calls alone are joined, so that there are at most seven over one instruction: one for
//! each of the six kinds that values of clauses have, and one without a kind.

ghost use Rattle.std.specs.Prelude.{◌≡◌, true, false, OnOk, IfOk, IfSome};
ghost use Rattle.clause_faults.specs.GatheredStacks.{IsJoinOf, IsJoinedInto, IsPut, StandForSame};

use crate::ways::arrivals::{Arrival, Arrivals, Seen};
use crate::ways::made_values::lower;
use cil_model::Kind;
use std::alloc::{AllocError, Global};

/// The number of numbers that are kept for the arrivals over one instruction.
pub(crate) const KINDS: usize = 10;

/// Returns one arrival for two that differ in their calls alone, and None for others.
fn join(a: Arrival, b: Arrival) -> Option<Arrival>
    ensures { IfSome result (IsJoinOf a b) }
{
    match (a, b) {
        (Arrival::Empty, Arrival::Empty) => Some(Arrival::Empty),
        (Arrival::Over(a, m), Arrival::Over(b, n)) => {
            if m != n || a.kind != b.kind {
                return None;
            }
            let call = lower(a.call, b.call);
            Some(Arrival::Over(Seen { kind: a.kind, call }, m))
        }
        _ => None,
    }
}

/// Returns the number of a kind, 1 for none. 0 is that of the empty stack.
fn kind_number(kind: Option<Kind>) -> usize {
    match kind {
        None => 1,
        Some(Kind::Int) => 2,
        Some(Kind::Native) => 3,
        Some(Kind::Ints) => 4,
        Some(Kind::Bools) => 5,
        Some(Kind::NullRef) => 6,
        Some(Kind::Text) => 7,
        Some(Kind::AddrInts) => 8,
        Some(Kind::AddrBools) => 9,
    }
}

/// Returns the number of an arrival. Arrivals that differ in their calls alone have the same.
pub(crate) fn number(arrival: Arrival) -> usize {
    match arrival {
        Arrival::Empty => 0,
        Arrival::Over(value, below) => below
            .saturating_mul(KINDS)
            .saturating_add(kind_number(value.kind)),
    }
}

/// Joins the arrival with the one of a list index, where they differ in their calls alone, and returns whether they do.
fn join_at(gathered: &mut Arrivals, place: usize, arrival: Arrival) -> bool
    ensures joined { result ≡ true → IsJoinedInto gathered.old arrival gathered.new }
    ensures same { result ≡ false → gathered.new ≡ gathered.old }
{
    let Some(there) = gathered.get(place) else {
        return false;
    };
    let Some(joined) = join(there, arrival) else {
        return false;
    };
    gathered.set(place, joined);
    true
}

/// Returns the list index at which an arrival with this one's number was put, if one was.
fn place_of(places: &[usize], arrival: Arrival) -> Option<usize> {
    places.get(number(arrival)).copied()
}

/// Notes the list index at which the arrival is put.
fn remember(places: &mut [usize], arrival: Arrival, place: usize) {
    let number = number(arrival);
    if number < places.len() {
        places[number] = place;
    }
}

/// Adds an arrival to others, or joins it with one of them. `places` has list indexes by number, of which each may be
/// wrong:
/// what stands there is compared.
fn put(gathered: &mut Arrivals, places: &mut [usize], arrival: Arrival) -> Result<(), AllocError>
    ensures { OnOk result (IsPut gathered.old arrival gathered.new) }
{
    if let Some(place) = place_of(places, arrival)
        && join_at(gathered, place, arrival)
    {
        return Ok(());
    }
    remember(places, arrival, gathered.len());
    gathered.push(arrival)
}

/// Returns the arrivals, joined where they differ in their calls alone. `places` may hold anything.
pub(crate) fn gathered(
    alloc: Global,
    places: &mut [usize],
    arrivals: &[Arrival],
) -> Result<Arrivals, AllocError>
    ensures { IfOk result (StandForSame arrivals.now) }
{
    let mut gathered = Arrivals::new(alloc);
    for arrival in arrivals {
        put(&mut gathered, places, *arrival)?;
    }
    Ok(gathered)
}
