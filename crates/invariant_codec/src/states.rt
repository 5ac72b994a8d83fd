//! States.

ghost use Rattle.std.specs.Prelude.{◌≡◌, ◌+◌, ◌-◌, ◌≤◌, List, length, map, IfOk};
ghost use Rattle.abs_state.specs.StateParts.{AreParts, parts_of};
ghost use Rattle.cc_base.specs.Tests.{first_of, GivesOnly, Judges, JudgesOrNoMemory};
ghost use Rattle.invariant_codec.specs.Formats.{each};
ghost use Rattle.invariant_codec.specs.Parses.{IsRead};
ghost use Rattle.invariant_codec.specs.Spellable.{AreSpellable};
ghost use Rattle.invariant_codec.specs.Spelling.{states_bytes};
ghost use Rattle.invariant_codec.specs.States.{known, state, states, states_file};
ghost use Rattle.state_facts.specs.StateFacts.{State};

use crate::arrays::read_arrays;
use crate::definitions::read_definitions;
use crate::fault::{InvFault, InvRefusal};
use crate::numbers::{read_flag, read_u16};
use crate::pairs::read_pairs;
use crate::ranges::read_ranges;
use crate::rows::read_rows;
use crate::variables::read_variables;
use abs_state::{AbsState, Invariant, Parts};
use std::alloc::Global;

/// What is known at this offset of a state in which something is reached, and the offset after it.
#[tactic(auto, using(cc_base::proofs::TestLemmas::appended, cc_base::proofs::TestLemmas::carried), unfolding(crate::specs::States::known))]
fn read_known(alloc: Global, bytes: &[u8], at: u32) -> Result<(Parts, u32), InvRefusal>
    requires short { length bytes.now ≤ 2147483647 }
    ensures { JudgesOrNoMemory result (first_of (known.read bytes.now at).tests)
        (λ read. IsRead bytes.now (known.read bytes.now at) read.0 read.1) }
{
    let (ranges, at) = read_ranges(alloc, bytes, at)?;
    let symbols = ranges.len();
    let (arrays, at) = read_arrays(alloc, bytes, at, symbols)?;
    let references = arrays.references.len();
    let (variables, at) = read_variables(alloc, bytes, at, symbols, references)?;
    let (bounds, at) = read_rows(alloc, bytes, at, symbols)?;
    let (definitions, at) = read_definitions(alloc, bytes, at, symbols, references)?;
    let (apart, next) = read_pairs(alloc, bytes, at, references)?;
    let parts = Parts {
        reached: true,
        variables,
        ranges,
        definitions,
        bounds,
        references: arrays.references,
        apart,
        contents: arrays.contents,
    };
    Ok((parts, next))
}

/// The state of parts that are those of a state.
fn state_of(alloc: Global, parts: &Parts, at: u32) -> Result<AbsState, InvRefusal>
    requires are { AreParts parts.now }
    ensures { GivesOnly result (λ state. parts_of state ≡ parts.now) }
{
    match AbsState::of_parts(alloc, parts)? {
        Some(state) => Ok(state),
        // Never, since these are parts of a state.
        None => Err(InvFault::Form(at).into()),
    }
}

/// The state at this offset, and the offset after it.
#[tactic(auto, using(cc_base::proofs::TestLemmas::appended, cc_base::proofs::TestLemmas::carried), unfolding(crate::specs::States::state))]
fn read_state(alloc: Global, bytes: &[u8], at: u32) -> Result<(AbsState, u32), InvRefusal>
    requires short { length bytes.now ≤ 2147483647 }
    ensures { JudgesOrNoMemory result (first_of (state.read bytes.now at).tests)
        (λ read. IsRead bytes.now (state.read bytes.now at) (parts_of read.0) read.1) }
{
    if !read_flag(bytes, at)? {
        return Ok((AbsState::nothing(), at + 1));
    }
    let (parts, next) = read_known(alloc, bytes, at + 1)?;
    let state = state_of(alloc, &parts, at)?;
    Ok((state, next))
}

/// So many states from this offset on, and the offset after them.
#[tactic(auto, using(crate::proofs::Counted::none_read, crate::proofs::Counted::all_read))]
fn read_each(
    alloc: Global,
    bytes: &[u8],
    start: u32,
    count: u16,
) -> Result<(Vec<AbsState>, u32), InvRefusal>
    requires short { length bytes.now ≤ 2147483647 }
    requires inside { start ≤ length bytes.now }
    ensures { JudgesOrNoMemory result (first_of ((each state count).read bytes.now start).tests)
        (λ read. IsRead bytes.now ((each state count).read bytes.now start) (map parts_of read.0.items) read.1) }
{
    let mut states = Vec::new(alloc);
    let mut at = start;
    for _state in 0..count {
        let (state, next) = read_state(alloc, bytes, at)?;
        states.push(state)?;
        at = next;
    }
    Ok((states, at))
}

/// States, after their count, and the offset after them.
#[tactic(auto, using(cc_base::proofs::TestLemmas::appended, cc_base::proofs::TestLemmas::carried), unfolding(crate::specs::States::states))]
fn read_counted(alloc: Global, bytes: &[u8], at: u32) -> Result<(Vec<AbsState>, u32), InvRefusal>
    requires short { length bytes.now ≤ 2147483647 }
    ensures { JudgesOrNoMemory result (first_of (states.read bytes.now at).tests)
        (λ read. IsRead bytes.now (states.read bytes.now at) (map parts_of read.0.items) read.1) }
{
    let count = read_u16(bytes, at)?;
    read_each(alloc, bytes, at + 2, count)
}

/// The states of a whole file, or its first fault.
#[tactic(auto, using(cc_base::proofs::TestLemmas::appended, cc_base::proofs::TestLemmas::first_tests, cc_base::proofs::TestLemmas::carried), unfolding(crate::specs::States::states_file))]
fn read_first(alloc: Global, bytes: &[u8]) -> Result<Vec<AbsState>, InvRefusal>
    requires short { length bytes.now ≤ 2147483647 }
    ensures { JudgesOrNoMemory result (first_of (states_file bytes.now).tests)
        (λ states. map parts_of states.items ≡ (states_file bytes.now).value) }
{
    let (states, end) = read_counted(alloc, bytes, 0)?;
    if bytes.len() > end as usize {
        return Err(InvFault::Form(end).into());
    }
    Ok(states)
}

/// The invariant of a whole file, or its first fault.
#[tactic(auto, using(cc_base::proofs::TestLemmas::carried))]
fn read_whole(alloc: Global, bytes: &[u8]) -> Result<Invariant, InvRefusal>
    requires short { length bytes.now ≤ 2147483647 }
    ensures { JudgesOrNoMemory result (first_of (states_file bytes.now).tests)
        (λ invariant. map parts_of invariant.states.items ≡ (states_file bytes.now).value) }
{
    let states = read_first(alloc, bytes)?;
    Ok(Invariant { states })
}

/// The invariant whose bytes these are.
///
/// # Errors
///
/// `Short` where the first field that fails passes the end, `Form` where it breaks the form or bytes are left behind
/// the last field, each with its offset; or memory ran out.
///
/// Cost: linear in the number of bytes, but for what a state sorts of its bounds and pairs. A count takes no memory
/// before the items that it counts are there.
pub fn read_invariant(alloc: Global, bytes: &[u8]) -> Result<Invariant, InvRefusal>
    requires short { length bytes.now ≤ 2147483647 }
    // It is read where no test of the list fails; a fault is that of the first test that does.
    ensures judged { JudgesOrNoMemory result (first_of (states_file bytes.now).tests)
        (λ invariant. map parts_of invariant.states.items ≡ (states_file bytes.now).value) }
    // What is read is spelled by the bytes.
    ensures spelled { IfOk result (λ read. (states_bytes read.states.items ≡ bytes.now) × AreSpellable read.states.items) }
    // Where the bytes spell an invariant, it is read, unless memory runs out.
    ensures only { (spelled : List State) → AreSpellable spelled → states_bytes spelled ≡ bytes.now → GivesOnly result
        (λ read. read.states.items ≡ spelled) }
{
    read_whole(alloc, bytes)
}
