//! One instruction for all to which the same arrivals come.

ghost use Rattle.std.specs.Prelude.{◌≡◌, true};
ghost use Rattle.clause_faults.specs.PassedInstr.{IsHome};

use crate::ways::arrivals::{Arrival, Arrivals, arrivals_at};
use crate::ways::gather::number;

/// The number of an arrival, with its call.
fn whole_number(arrival: Arrival) -> usize {
    match arrival {
        Arrival::Empty => 0,
        Arrival::Over(value, _) => match value.call {
            None => number(arrival),
            Some(at) => number(arrival).wrapping_mul(31).wrapping_add(at as usize),
        },
    }
}

/// The number of a list of arrivals. Different lists may have the same one.
fn list_number(arrivals: &[Arrival]) -> usize {
    let mut sum = 7usize;
    for arrival in arrivals {
        sum = sum
            .wrapping_mul(1_000_003)
            .wrapping_add(whole_number(*arrival));
    }
    sum
}

/// The place of a list of arrivals among so many.
fn place_among(arrivals: &[Arrival], count: usize) -> usize {
    if count == 0 {
        return 0;
    }
    list_number(arrivals) % count
}

fn is_same(a: Arrival, b: Arrival) -> bool
    ensures { result ≡ true → a ≡ b }
{
    match (a, b) {
        (Arrival::Empty, Arrival::Empty) => true,
        (Arrival::Over(a, m), Arrival::Over(b, n)) => {
            m == n && a.kind == b.kind && a.call == b.call
        }
        _ => false,
    }
}

/// Returns whether these are the same arrivals.
fn are_same(a: &[Arrival], b: &[Arrival]) -> bool
    ensures { result ≡ true → a.now ≡ b.now }
{
    if a.len() != b.len() {
        return false;
    }
    for index in 0..a.len() {
        if !is_same(a[index], b[index]) {
            return false;
        }
    }
    true
}

/// Returns whether the same arrivals come to an instruction before this one as to it.
fn is_home(stacks: &[Arrivals], index: usize, there: usize) -> bool
    ensures { result ≡ true → IsHome stacks.now index there }
{
    there < index && are_same(arrivals_at(stacks, there), arrivals_at(stacks, index))
}

/// The instruction that stands for all to which the same arrivals come as to the one of this index. Where `homes` tells
/// of none, it is that one itself. What `homes` holds does not matter.
pub(crate) fn home(homes: &mut [usize], stacks: &[Arrivals], index: usize) -> usize
    ensures { IsHome stacks.now index result }
{
    let place = place_among(arrivals_at(stacks, index), homes.len());
    let Some(there) = homes.get_mut(place) else {
        return index;
    };
    if !is_home(stacks, index, *there) {
        *there = index;
    }
    *there
}
