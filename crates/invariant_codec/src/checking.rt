//! Bytes, tested for an invariant. No more than a few parts of one state are kept at a time.

ghost use Rattle.std.specs.Prelude.{◌≡◌, ◌-◌, ◌≤◌, ⊤, length, IfSome};
ghost use Rattle.cc_base.specs.Tests.{first_of, JudgesOrNoMemory};
ghost use Rattle.invariant_codec.specs.Formats.{each};
ghost use Rattle.invariant_codec.specs.Invariants.{fault_at, first_states_fault};
ghost use Rattle.invariant_codec.specs.Parses.{IsPassed};
ghost use Rattle.invariant_codec.specs.States.{known, state, states};

use crate::arrays::check_arrays;
use crate::definitions::read_definitions;
use crate::fault::{InvFault, InvRefusal};
use crate::numbers::{read_flag, read_u16};
use crate::pairs::check_pairs;
use crate::ranges::read_ranges;
use crate::rows::check_rows;
use crate::variables::read_variables;
use std::alloc::Global;

/// The offset among the bytes of an invariant that a fault names.
pub fn fault_at(fault: InvFault) -> u32
    ensures { result ≡ fault_at fault }
{
    match fault {
        InvFault::Short(at) | InvFault::Form(at) => at,
    }
}

/// Tests what is known at this offset of a state in which something is reached, and returns the offset after it.
#[tactic(auto, using(cc_base::proofs::TestLemmas::appended, cc_base::proofs::TestLemmas::carried), unfolding(crate::specs::States::known))]
fn check_known(alloc: Global, bytes: &[u8], at: u32) -> Result<u32, InvRefusal>
    requires short { length bytes.now ≤ 2147483647 }
    ensures { JudgesOrNoMemory result (first_of (known.read bytes.now at).tests)
        (IsPassed bytes.now (known.read bytes.now at)) }
{
    let (ranges, at) = read_ranges(alloc, bytes, at)?;
    let symbols = ranges.len();
    let (references, at) = check_arrays(alloc, bytes, at, symbols)?;
    let (_, at) = read_variables(alloc, bytes, at, symbols, references)?;
    let at = check_rows(bytes, at, symbols)?;
    let (_, at) = read_definitions(alloc, bytes, at, symbols, references)?;
    let next = check_pairs(bytes, at, references)?;
    Ok(next)
}

/// Tests the state at this offset, and returns the offset after it.
#[tactic(auto, using(cc_base::proofs::TestLemmas::appended, cc_base::proofs::TestLemmas::carried), unfolding(crate::specs::States::state))]
fn check_state(alloc: Global, bytes: &[u8], at: u32) -> Result<u32, InvRefusal>
    requires short { length bytes.now ≤ 2147483647 }
    ensures { JudgesOrNoMemory result (first_of (state.read bytes.now at).tests)
        (IsPassed bytes.now (state.read bytes.now at)) }
{
    if !read_flag(bytes, at)? {
        return Ok(at + 1);
    }
    check_known(alloc, bytes, at + 1)
}

/// Tests so many states from this offset on, and returns the offset after them.
fn check_each(alloc: Global, bytes: &[u8], start: u32, count: u16) -> Result<u32, InvRefusal>
    requires short { length bytes.now ≤ 2147483647 }
    requires inside { start ≤ length bytes.now }
    ensures { JudgesOrNoMemory result (first_of ((each state count).read bytes.now start).tests)
        (IsPassed bytes.now ((each state count).read bytes.now start)) }
{
    let mut at = start;
    for _state in 0..count {
        let next = check_state(alloc, bytes, at)?;
        at = next;
    }
    Ok(at)
}

/// Tests states, after their count, and returns the offset after them.
#[tactic(auto, using(cc_base::proofs::TestLemmas::appended, cc_base::proofs::TestLemmas::carried), unfolding(crate::specs::States::states))]
fn check_counted(alloc: Global, bytes: &[u8], at: u32) -> Result<u32, InvRefusal>
    requires short { length bytes.now ≤ 2147483647 }
    ensures { JudgesOrNoMemory result (first_of (states.read bytes.now at).tests)
        (IsPassed bytes.now (states.read bytes.now at)) }
{
    let count = read_u16(bytes, at)?;
    check_each(alloc, bytes, at + 2, count)
}

/// Tests the states of a whole file.
#[tactic(auto, using(cc_base::proofs::TestLemmas::appended, cc_base::proofs::TestLemmas::first_tests, cc_base::proofs::TestLemmas::carried), unfolding(crate::specs::Invariants::first_states_fault, crate::specs::States::states_file))]
fn check_states(alloc: Global, bytes: &[u8]) -> Result<(), InvRefusal>
    requires short { length bytes.now ≤ 2147483647 }
    ensures { JudgesOrNoMemory result (first_states_fault bytes.now) (λ _. ⊤) }
{
    let end = check_counted(alloc, bytes, 0)?;
    if bytes.len() > end as usize {
        return Err(InvFault::Form(end).into());
    }
    Ok(())
}

/// Tests whether the bytes spell the states of an invariant.
///
/// # Errors
///
/// The first fault of the bytes, or memory ran out.
///
/// Cost: linear in the number of bytes. Of bounds, pairs and references it keeps the last one, of one state the ranges,
/// and its variables or its definitions, each fewer than 65,536.
pub fn check_invariant(alloc: Global, bytes: &[u8]) -> Result<(), InvRefusal>
    requires short { length bytes.now ≤ 2147483647 }
    ensures judged { JudgesOrNoMemory result (first_states_fault bytes.now) (λ _. ⊤) }
    ensures inside { IfSome (first_states_fault bytes.now) (λ fault. fault_at fault ≤ length bytes.now) }
{
    check_states(alloc, bytes)
}
