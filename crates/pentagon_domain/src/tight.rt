//! Whether bounds are tight over ends.

ghost use Rattle.std.specs.Prelude.{◌≡◌, ◌<◌, length, get_or, slice_index_or, ℤ, List, Option, None, EachIndex};
ghost use Rattle.std.specs.Prelude.{IfOk, IsTrue};
ghost use Rattle.std.specs.List.{AllByRecursion};
ghost use Rattle.pentagon_domain.specs.declared.ends.Ends.{Ends};
ghost use Rattle.pentagon_domain.specs.Gaps.{AreBelow, direct_gap};
ghost use Rattle.pentagon_domain.specs.Rows.{rows_from};
ghost use Rattle.pentagon_domain.specs.Tight as rule;
ghost use Rattle.pentagon_domain.specs.Tight.{AddNothing, AreTightFrom, AreTightOver, AreTold};

use crate::bound_row::BoundRow;
use crate::bounds::Bounds;
use crate::ends::Ends;
use crate::gaps::sum_of;
use crate::search::Guess;
use domain_api::NoMemory;
use std::alloc::Global;

/// What a row has of a symbol, if it is in there.
fn known_at(row: &[Option<i64>], t: u32) -> Option<i64>
    ensures { result ≡ slice_index_or row.now t None }
{
    match row.get(t as usize) {
        None => None,
        Some(gap) => *gap,
    }
}

/// How far the ends of two symbols lie apart.
fn apart(ends: &[Ends], s: u32, t: u32) -> i128
    requires first { s < length ends.now }
    requires second { t < length ends.now }
    ensures { result ≡ rule.apart ends.now s t }
{
    i128::from(ends[t as usize].lo) - i128::from(ends[s as usize].hi)
}

/// The greatest number that is told by a constant, if it is known, and by ends that lie so far apart.
fn told_by(known: Option<i64>, far: i128) -> i128
    ensures { result ≡ rule.told_by known far }
{
    match known {
        None => far,
        Some(k) => far.max(i128::from(k)),
    }
}

/// The greatest number that is told of two symbols, by what is known from the first and by ends.
fn told_at(ends: &[Ends], row: &[Option<i64>], s: u32, t: u32) -> i128
    requires first { s < length ends.now }
    requires second { t < length ends.now }
    ensures { result ≡ rule.told_by (slice_index_or row.now t None) (rule.apart ends.now s t) }
{
    told_by(known_at(row, t), apart(ends, s, t))
}

/// The greatest number that is told of s and of each symbol, by what is known from s and by ends.
#[tactic(auto, using(crate::proofs::TightTests::told_pushed))]
fn told_from(
    alloc: Global,
    ends: &[Ends],
    row: &[Option<i64>],
    s: u32,
    count: u32,
) -> Result<Vec<i128>, NoMemory>
    requires first { s < length ends.now }
    requires count { length ends.now ≡ count }
    ensures told { IfOk result (λ told. AreTold ends.now row.now s told.items) }
    ensures length { IfOk result (λ told. length told.items ≡ count) }
{
    let mut told = Vec::with_capacity(alloc, count as usize)?;
    for t in 0..count {
        told.push(told_at(ends, row, s, t))?;
    }
    Ok(told)
}

/// Returns whether a bound with another one before it, which goes from s, goes back to s, or both tell no more than is
/// told.
#[tactic(auto, using(crate::proofs::TightTests::told_adds))]
fn adds_nothing(told: &[i128], s: u32, first: &BoundRow, next: &BoundRow) -> bool
    ensures { (ends : List Ends) (row : List (Option ℤ)) → AreTold ends row s told.now → IsTrue result →
        IsTrue (rule.adds_nothing ends (λ t. get_or row t None) s first.now.k next.now) }
{
    if next.t == s {
        return true;
    }
    match told.get(next.t as usize) {
        None => false,
        Some(most) => sum_of(first.k, next.k) <= *most,
    }
}

/// Returns whether none of these bounds adds anything there.
#[tactic(auto, using(crate::proofs::TightTests::rest))]
fn add_nothing(told: &[i128], s: u32, first: &BoundRow, nexts: &[BoundRow]) -> bool
    ensures { (ends : List Ends) (row : List (Option ℤ)) → AreTold ends row s told.now → IsTrue result →
        AddNothing ends (λ t. get_or row t None) s first.now.k nexts.now }
{
    for next in nexts {
        if !adds_nothing(told, s, first, next) {
            return false;
        }
    }
    true
}

/// Returns whether no bound behind one from s adds anything.
#[tactic(auto, using(crate::proofs::TightTests::rest, crate::proofs::TightTests::nothing_by_row))]
fn all_add_nothing(
    bounds: &Bounds,
    ends: &[Ends],
    row: &[Option<i64>],
    told: &[i128],
    s: u32,
) -> bool
    requires told { AreTold ends.now row.now s told.now }
    requires stored { EachIndex row.now (λ t. slice_index_or row.now t None ≡ direct_gap bounds.now s t) }
    ensures { IsTrue result → AreTightFrom ends.now bounds.now s (rows_from bounds.now s) }
{
    let firsts = bounds.rows_from(s);
    let mut guess = Guess { end: 0, count: 0 };
    for first in firsts {
        if !add_nothing(told, s, first, bounds.rows_near(first.t, &mut guess)) {
            return false;
        }
    }
    true
}

/// The same, where there is room for a row.
fn is_tight_from(
    alloc: Global,
    bounds: &Bounds,
    ends: &[Ends],
    row: &mut [Option<i64>],
    s: u32,
    count: u32,
) -> Result<bool, NoMemory>
    requires first { s < length ends.now }
    requires count { length ends.now ≡ count }
    ensures { IfOk result (λ tight. IsTrue tight → AreTightFrom ends.now bounds.now s (rows_from bounds.now s)) }
{
    bounds.stored_from(s, row);
    let told = told_from(alloc, ends, row, s, count)?;
    Ok(all_add_nothing(bounds, ends, row, &told, s))
}

/// Returns whether the symbols of a row are below a count.
fn is_below(row: &BoundRow, count: u32) -> bool
    ensures { IsTrue result → AreBelow count row.now }
{
    row.s < count && row.t < count
}

/// Returns whether those of each row are.
#[tactic(auto, using(crate::proofs::TightTests::rest))]
fn are_below(rows: &[BoundRow], count: u32) -> bool
    ensures { IsTrue result → AllByRecursion (AreBelow count) rows.now }
{
    for row in rows {
        if !is_below(row, count) {
            return false;
        }
    }
    true
}

/// Returns whether bounds are tight over ends. It takes memory for a gap of each symbol.
pub(crate) fn are_tight(alloc: Global, bounds: &Bounds, ends: &[Ends]) -> Result<bool, NoMemory>
    ensures { IfOk result (λ tight. IsTrue tight → AreTightOver ends.now bounds.now) }
{
    let Ok(count) = u32::try_from(ends.len()) else {
        return Ok(false);
    };
    if !are_below(bounds.rows(), count) {
        return Ok(false);
    }
    let mut row = vec![in alloc; None; ends.len()]?;
    for s in 0..count {
        if !is_tight_from(alloc, bounds, ends, row.as_mut_slice(), s, count)? {
            return Ok(false);
        }
    }
    Ok(true)
}
