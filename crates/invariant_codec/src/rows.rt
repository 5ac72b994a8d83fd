//! Bounds of symbols.

ghost use Rattle.std.specs.Prelude.{◌≡◌, ◌+◌, ◌-◌, ◌≤◌, length};
ghost use Rattle.cc_base.specs.Tests.{first_of, Judges, JudgesOrNoMemory};
ghost use Rattle.invariant_codec.specs.Formats.{comes_after, in_order};
ghost use Rattle.invariant_codec.specs.Parses.{IsPassed, IsRead};
ghost use Rattle.invariant_codec.specs.Symbols.{next_row, other_symbol, row, row_precedes, rows};

use crate::expressions::read_proper_name;
use crate::fault::{InvFault, InvRefusal};
use crate::numbers::{read_i64, read_u16, read_u32};
use pentagon_domain::BoundRow;
use std::alloc::Global;

/// The number of a symbol from 1 on, other than this one, where there are so many.
#[tactic(auto, using(cc_base::proofs::TestLemmas::appended, cc_base::proofs::TestLemmas::first_tests), unfolding(crate::specs::Symbols::other_symbol))]
fn read_other(bytes: &[u8], at: u32, symbols: usize, s: u32) -> Result<u32, InvFault>
    ensures { Judges result (first_of ((other_symbol symbols s).read bytes.now at).tests)
        (λ t. IsRead bytes.now ((other_symbol symbols s).read bytes.now at) t (at + 2)) }
{
    let t = read_u16(bytes, at)?;
    if t < 1 || usize::from(t) > symbols || s == u32::from(t) {
        return Err(InvFault::Form(at));
    }
    Ok(u32::from(t))
}

/// The bound at this offset, of two of so many symbols. It takes twelve bytes.
#[tactic(auto, using(cc_base::proofs::TestLemmas::appended), unfolding(crate::specs::Symbols::row))]
fn read_row(bytes: &[u8], at: u32, symbols: usize) -> Result<BoundRow, InvFault>
    requires short { length bytes.now ≤ 2147483647 }
    ensures { Judges result (first_of ((row symbols).read bytes.now at).tests)
        (λ r. IsRead bytes.now ((row symbols).read bytes.now at) r (at + 12)) }
{
    let s = read_proper_name(bytes, at, symbols)?;
    let t = read_other(bytes, at + 2, symbols, s)?;
    let k = read_i64(bytes, at + 4)?;
    Ok(BoundRow { s, t, k })
}

/// Returns whether a bound comes after another one, if there is one.
fn comes_after(last: Option<BoundRow>, row: BoundRow) -> bool
    ensures { result ≡ comes_after row_precedes last row }
{
    match last {
        Some(last) => last.s < row.s || last.s == row.s && last.t < row.t,
        None => true,
    }
}

/// The bound at this offset, which comes after this one, if there is one.
#[tactic(auto, using(cc_base::proofs::TestLemmas::appended, cc_base::proofs::TestLemmas::first_tests))]
fn read_next(
    bytes: &[u8],
    at: u32,
    symbols: usize,
    last: Option<BoundRow>,
) -> Result<BoundRow, InvFault>
    requires short { length bytes.now ≤ 2147483647 }
    ensures { Judges result (first_of ((next_row symbols last).read bytes.now at).tests)
        (λ r. IsRead bytes.now ((next_row symbols last).read bytes.now at) r (at + 12)) }
{
    let row = read_row(bytes, at, symbols)?;
    if !comes_after(last, row) {
        return Err(InvFault::Form(at));
    }
    Ok(row)
}

/// So many bounds from this offset on, in order, and the offset after them.
#[tactic(auto, using(crate::proofs::Counted::none_read, crate::proofs::Counted::all_read))]
fn read_each(
    alloc: Global,
    bytes: &[u8],
    start: u32,
    count: u32,
    symbols: usize,
) -> Result<(Vec<BoundRow>, u32), InvRefusal>
    requires short { length bytes.now ≤ 2147483647 }
    requires inside { start ≤ length bytes.now }
    ensures { JudgesOrNoMemory result (first_of ((in_order row_precedes (row symbols) count).read bytes.now start).tests)
        (λ read. IsRead bytes.now ((in_order row_precedes (row symbols) count).read bytes.now start) read.0.items read.1) }
{
    let mut rows = Vec::new(alloc);
    let mut last = None;
    let mut at = start;
    for _row in 0..count {
        let row = read_next(bytes, at, symbols, last)?;
        rows.push(row)?;
        last = Some(row);
        at += 12;
    }
    Ok((rows, at))
}

/// Bounds, after their count, and the offset after them.
#[tactic(auto, using(cc_base::proofs::TestLemmas::appended, cc_base::proofs::TestLemmas::carried), unfolding(crate::specs::Symbols::rows))]
pub(crate) fn read_rows(
    alloc: Global,
    bytes: &[u8],
    at: u32,
    symbols: usize,
) -> Result<(Vec<BoundRow>, u32), InvRefusal>
    requires short { length bytes.now ≤ 2147483647 }
    ensures { JudgesOrNoMemory result (first_of ((rows symbols).read bytes.now at).tests)
        (λ read. IsRead bytes.now ((rows symbols).read bytes.now at) read.0.items read.1) }
{
    let count = read_u32(bytes, at)?;
    read_each(alloc, bytes, at + 4, count, symbols)
}

/// Tests so many bounds from this offset on, and returns the offset after them.
#[tactic(auto, using(crate::proofs::Passed::none_passed))]
fn check_each(bytes: &[u8], start: u32, count: u32, symbols: usize) -> Result<u32, InvFault>
    requires short { length bytes.now ≤ 2147483647 }
    requires inside { start ≤ length bytes.now }
    ensures { Judges result (first_of ((in_order row_precedes (row symbols) count).read bytes.now start).tests)
        (IsPassed bytes.now ((in_order row_precedes (row symbols) count).read bytes.now start)) }
{
    let mut last = None;
    let mut at = start;
    for _row in 0..count {
        let row = read_next(bytes, at, symbols, last)?;
        last = Some(row);
        at += 12;
    }
    Ok(at)
}

/// Tests bounds, after their count, and returns the offset after them.
#[tactic(auto, using(cc_base::proofs::TestLemmas::appended), unfolding(crate::specs::Symbols::rows))]
pub(crate) fn check_rows(bytes: &[u8], at: u32, symbols: usize) -> Result<u32, InvFault>
    requires short { length bytes.now ≤ 2147483647 }
    ensures { Judges result (first_of ((rows symbols).read bytes.now at).tests)
        (IsPassed bytes.now ((rows symbols).read bytes.now at)) }
{
    let count = read_u32(bytes, at)?;
    check_each(bytes, at + 4, count, symbols)
}
