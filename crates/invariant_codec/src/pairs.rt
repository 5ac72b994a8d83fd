//! Pairs of references that are not the same array.

ghost use Rattle.std.specs.Prelude.{◌≡◌, ◌+◌, ◌-◌, ◌≤◌, length};
ghost use Rattle.alias_facts.specs.PairsOf.{comes_before};
ghost use Rattle.cc_base.specs.Tests.{first_of, Judges, JudgesOrNoMemory};
ghost use Rattle.invariant_codec.specs.Formats.{comes_after, in_order};
ghost use Rattle.invariant_codec.specs.Parses.{IsPassed, IsRead};
ghost use Rattle.invariant_codec.specs.Symbols.{next_pair, pair, pairs};

use crate::expressions::read_proper_name;
use crate::fault::{InvFault, InvRefusal};
use crate::numbers::read_u32;
use std::alloc::Global;

/// The two references at this offset, lower first, of so many. They take four bytes.
#[tactic(auto, using(cc_base::proofs::TestLemmas::appended, cc_base::proofs::TestLemmas::first_tests), unfolding(crate::specs::Symbols::pair))]
fn read_pair(bytes: &[u8], at: u32, references: usize) -> Result<(u32, u32), InvFault>
    requires short { length bytes.now ≤ 2147483647 }
    ensures { Judges result (first_of ((pair references).read bytes.now at).tests)
        (λ p. IsRead bytes.now ((pair references).read bytes.now at) p (at + 4)) }
{
    let r = read_proper_name(bytes, at, references)?;
    let q = read_proper_name(bytes, at + 2, references)?;
    if r >= q {
        return Err(InvFault::Form(at));
    }
    Ok((r, q))
}

/// Returns whether a pair comes after another one, if there is one.
fn comes_after(last: Option<(u32, u32)>, pair: (u32, u32)) -> bool
    ensures { result ≡ comes_after comes_before last pair }
{
    match last {
        Some(last) => last.0 < pair.0 || last.0 == pair.0 && last.1 < pair.1,
        None => true,
    }
}

/// The pair at this offset, which comes after this one, if there is one.
#[tactic(auto, using(cc_base::proofs::TestLemmas::appended, cc_base::proofs::TestLemmas::first_tests))]
fn read_next(
    bytes: &[u8],
    at: u32,
    references: usize,
    last: Option<(u32, u32)>,
) -> Result<(u32, u32), InvFault>
    requires short { length bytes.now ≤ 2147483647 }
    ensures { Judges result (first_of ((next_pair references last).read bytes.now at).tests)
        (λ p. IsRead bytes.now ((next_pair references last).read bytes.now at) p (at + 4)) }
{
    let pair = read_pair(bytes, at, references)?;
    if !comes_after(last, pair) {
        return Err(InvFault::Form(at));
    }
    Ok(pair)
}

/// So many pairs from this offset on, in order, and the offset after them.
#[tactic(auto, using(crate::proofs::Counted::none_read, crate::proofs::Counted::all_read))]
fn read_each(
    alloc: Global,
    bytes: &[u8],
    start: u32,
    count: u32,
    references: usize,
) -> Result<(Vec<(u32, u32)>, u32), InvRefusal>
    requires short { length bytes.now ≤ 2147483647 }
    requires inside { start ≤ length bytes.now }
    ensures { JudgesOrNoMemory result (first_of ((in_order comes_before (pair references) count).read bytes.now start).tests)
        (λ read. IsRead bytes.now ((in_order comes_before (pair references) count).read bytes.now start) read.0.items read.1) }
{
    let mut pairs = Vec::new(alloc);
    let mut last = None;
    let mut at = start;
    for _pair in 0..count {
        let pair = read_next(bytes, at, references, last)?;
        pairs.push(pair)?;
        last = Some(pair);
        at += 4;
    }
    Ok((pairs, at))
}

/// Pairs of references, after their count, and the offset after them.
#[tactic(auto, using(cc_base::proofs::TestLemmas::appended, cc_base::proofs::TestLemmas::carried), unfolding(crate::specs::Symbols::pairs))]
pub(crate) fn read_pairs(
    alloc: Global,
    bytes: &[u8],
    at: u32,
    references: usize,
) -> Result<(Vec<(u32, u32)>, u32), InvRefusal>
    requires short { length bytes.now ≤ 2147483647 }
    ensures { JudgesOrNoMemory result (first_of ((pairs references).read bytes.now at).tests)
        (λ read. IsRead bytes.now ((pairs references).read bytes.now at) read.0.items read.1) }
{
    let count = read_u32(bytes, at)?;
    read_each(alloc, bytes, at + 4, count, references)
}

/// Tests so many pairs from this offset on, and returns the offset after them.
#[tactic(auto, using(crate::proofs::Passed::none_passed))]
fn check_each(bytes: &[u8], start: u32, count: u32, references: usize) -> Result<u32, InvFault>
    requires short { length bytes.now ≤ 2147483647 }
    requires inside { start ≤ length bytes.now }
    ensures { Judges result (first_of ((in_order comes_before (pair references) count).read bytes.now start).tests)
        (IsPassed bytes.now ((in_order comes_before (pair references) count).read bytes.now start)) }
{
    let mut last = None;
    let mut at = start;
    for _pair in 0..count {
        let pair = read_next(bytes, at, references, last)?;
        last = Some(pair);
        at += 4;
    }
    Ok(at)
}

/// Tests pairs of references, after their count, and returns the offset after them.
#[tactic(auto, using(cc_base::proofs::TestLemmas::appended), unfolding(crate::specs::Symbols::pairs))]
pub(crate) fn check_pairs(bytes: &[u8], at: u32, references: usize) -> Result<u32, InvFault>
    requires short { length bytes.now ≤ 2147483647 }
    ensures { Judges result (first_of ((pairs references).read bytes.now at).tests)
        (IsPassed bytes.now ((pairs references).read bytes.now at)) }
{
    let count = read_u32(bytes, at)?;
    check_each(bytes, at + 4, count, references)
}
