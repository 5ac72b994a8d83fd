//! How great constants are at most, and which need no look.

ghost use Rattle.std.specs.Prelude.{◌≡◌, ◌≢◌, ◌<◌, ◌≤ℤ◌, ℤ, length, true, Option, None, Some};
ghost use Rattle.std.specs.Prelude.{EachIndex, slice_index_or};
ghost use Rattle.pentagon_domain.specs.Most.{AreUpTo, IsLow, IsUpTo, is_idle, is_reached};

use crate::bound_row::BoundRow;
use crate::bounds::Bounds;
use crate::gaps::sum_of;

/// A number that none of them exceeds: that one, and the constant of a row, if a bound is stored of its symbols.
pub(crate) fn most_with(known: i64, row: &BoundRow) -> i64
    ensures least { known ≤ℤ result }
    ensures row { IsUpTo result row.now }
{
    if row.is_pair() {
        known.max(row.k)
    } else {
        known
    }
}

/// A number that none of them exceeds: that one, and the constants of the rows of whose symbols a bound is stored.
pub(crate) fn most_of(rows: &[BoundRow], known: i64) -> i64
    ensures least { known ≤ℤ result }
    ensures rows { AreUpTo result rows.now }
{
    let mut most = known;
    for row in rows {
        most = most_with(most, row);
    }
    most
}

/// Returns whether a constant and any that is at most so great make no more than the lowest gap, if that is known.
pub(crate) fn is_idle(k: i64, most: i64, low: Option<i64>) -> bool
    ensures { result ≡ is_idle k most low }
{
    match low {
        None => false,
        Some(low) => sum_of(k, most) <= i128::from(low),
    }
}

/// The lesser of the lowest gap, if it is known, and of another one.
fn lesser(low: Option<i64>, gap: i64) -> Option<i64>
    ensures low { (known : Option ℤ) → IsLow low known → IsLow result known }
    ensures gap { IsLow result (Some gap) }
{
    match low {
        None => None,
        Some(low) => Some(low.min(gap)),
    }
}

/// The lowest gap, unless a bound goes to a symbol.
fn unless_reached(bounds: &Bounds, low: Option<i64>, place: usize) -> Option<i64>
    ensures low { (known : Option ℤ) → IsLow low known → IsLow result known }
    ensures none { is_reached bounds.now place ≡ true → result ≡ None }
{
    match u32::try_from(place) {
        Ok(t) if bounds.rows_to(t).is_empty() => low,
        _ => None,
    }
}

/// The lesser of the lowest gap and of that to a symbol. Where this is not known, no bound may go to the symbol.
fn lower_by(bounds: &Bounds, low: Option<i64>, gap: Option<i64>, place: usize) -> Option<i64>
    ensures low { (known : Option ℤ) → IsLow low known → IsLow result known }
    ensures gap { is_reached bounds.now place ≡ true → IsLow result gap }
{
    match gap {
        None => unless_reached(bounds, low, place),
        Some(gap) => lesser(low, gap),
    }
}

/// The same of the gap at a place, which counts for nothing where that is s.
fn lower_at(
    bounds: &Bounds,
    low: Option<i64>,
    gaps: &[Option<i64>],
    place: usize,
    s: u32,
) -> Option<i64>
    requires { place < length gaps.now }
    ensures low { (known : Option ℤ) → IsLow low known → IsLow result known }
    ensures gap { place ≢ s → is_reached bounds.now place ≡ true → IsLow result (slice_index_or gaps.now place None) }
{
    if place == s as usize || low.is_none() {
        return low;
    }
    lower_by(bounds, low, gaps[place], place)
}

/// A number that none of the gaps from s is below, but for those to s and to symbols to which no bound goes. None where
/// one of them is not known.
pub(crate) fn lowest(bounds: &Bounds, gaps: &[Option<i64>], s: u32) -> Option<i64>
    ensures { EachIndex gaps.now (λ t. t ≢ s → is_reached bounds.now t ≡ true →
        IsLow result (slice_index_or gaps.now t None)) }
{
    let mut low = Some(i64::MAX);
    for place in 0..gaps.len() {
        low = lower_at(bounds, low, gaps, place, s);
    }
    low
}
