//! Whether bounds are settled over ends.

ghost use Rattle.std.specs.Prelude.{◌≡◌, ◌+ℤ◌, ◌-ℤ◌, ◌≤ℤ◌, int_lt, true, get_or, IsTrue};
ghost use Rattle.std.specs.List.{AllByRecursion};
ghost use Rattle.pentagon_domain.specs.Settled.{AreSettledOver, IsNarrow, IsSettled};
ghost use Rattle.pentagon_domain.specs.Tight.{no_ends};

use crate::bound_row::BoundRow;
use crate::ends::Ends;
use crate::gaps::sum_of;

/// Returns whether ends are those of a symbol that has a number, and none but int32.
fn is_narrow(ends: Ends) -> bool
    ensures { IsTrue result → IsNarrow ends }
{
    i64::from(i32::MIN) <= ends.lo && ends.lo <= ends.hi && ends.hi <= i64::from(i32::MAX)
}

/// Returns whether this is so of each symbol.
#[tactic(auto, using(crate::proofs::TightTests::rest))]
fn are_narrow(ends: &[Ends]) -> bool
    ensures { IsTrue result → AllByRecursion IsNarrow ends.now }
{
    for one in ends {
        if !is_narrow(*one) {
            return false;
        }
    }
    true
}

/// The ends of a symbol.
fn ends_at(ends: &[Ends], symbol: u32) -> Ends
    ensures { result ≡ get_or ends.now symbol no_ends }
{
    match ends.get(symbol as usize) {
        None => Ends { lo: 0, hi: 0 },
        Some(found) => *found,
    }
}

/// Returns whether a constant added to a number is no greater than another number.
fn is_up_to(n: i64, k: i64, most: i64) -> bool
    ensures { IsTrue result → (n +ℤ k) ≤ℤ most }
{
    sum_of(n, k) <= i128::from(most)
}

/// How far a number lies above another one.
fn above(lo: i64, hi: i64) -> i128
    ensures { result ≡ lo -ℤ hi }
{
    i128::from(lo) - i128::from(hi)
}

/// Returns whether a bound cuts neither the least number of the symbol to which it goes, nor the greatest of the other.
fn keeps_ends(from: Ends, to: Ends, k: i64) -> bool
    ensures low { IsTrue result → (from.lo +ℤ k) ≤ℤ to.lo }
    ensures high { IsTrue result → (from.hi +ℤ k) ≤ℤ to.hi }
{
    is_up_to(from.lo, k, to.lo) && is_up_to(from.hi, k, to.hi)
}

/// Returns whether a bound tells more than the ends of its symbols.
fn says_more(from: Ends, to: Ends, k: i64) -> bool
    ensures { IsTrue result → int_lt (to.lo -ℤ from.hi) k ≡ true }
{
    above(to.lo, from.hi) < i128::from(k)
}

/// Returns whether a bound cuts no end, and tells more than the ends of its symbols.
fn is_settled(ends: &[Ends], row: &BoundRow) -> bool
    ensures { IsTrue result → IsSettled ends.now row.now }
{
    let from = ends_at(ends, row.s);
    let to = ends_at(ends, row.t);
    if !keeps_ends(from, to, row.k) {
        return false;
    }
    says_more(from, to, row.k)
}

/// Returns whether this is so of each bound.
#[tactic(auto, using(crate::proofs::TightTests::rest))]
fn each_is_settled(rows: &[BoundRow], ends: &[Ends]) -> bool
    ensures { IsTrue result → AllByRecursion (IsSettled ends.now) rows.now }
{
    for row in rows {
        if !is_settled(ends, row) {
            return false;
        }
    }
    true
}

/// Returns whether bounds are settled over ends, that of symbol s at place s. It costs one pass over both.
pub(crate) fn are_settled(rows: &[BoundRow], ends: &[Ends]) -> bool
    ensures { IsTrue result → AreSettledOver ends.now rows.now }
{
    are_narrow(ends) && each_is_settled(rows, ends)
}
