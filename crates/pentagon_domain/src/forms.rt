//! Tests of whole lists of rows.

ghost use Rattle.std.specs.Prelude.{◌≡◌, ◌↔◌, IsTrue};
ghost use Rattle.pentagon_domain.specs.Rows.{AreBounds};
ghost use Rattle.pentagon_domain.specs.Rising.{follows, stands_behind};

use crate::bound_row::BoundRow;

/// Returns whether a row stands behind the one before it, if there is one.
fn follows(previous: Option<BoundRow>, row: &BoundRow) -> bool
    ensures { result ≡ follows previous row.now }
{
    match previous {
        None => true,
        Some(previous) => previous.is_before(row.s, row.t),
    }
}

/// Returns whether a row is of two symbols of which a bound is stored, and stands behind the one before it.
fn stands_behind(previous: Option<BoundRow>, row: &BoundRow) -> bool
    ensures { result ≡ stands_behind previous row.now }
{
    row.is_pair() && follows(previous, row)
}

/// Returns whether these are the rows of bounds: each of two symbols of which a bound is stored, and before all later
/// ones.
pub(crate) fn are_bounds(rows: &[BoundRow]) -> bool
    ensures { IsTrue result ↔ AreBounds rows.now }
{
    let mut previous = None;
    for row in rows {
        if !stands_behind(previous, row) {
            return false;
        }
        previous = Some(*row);
    }
    true
}

/// Returns whether two lists of rows are equal.
pub(crate) fn are_same(a: &[BoundRow], b: &[BoundRow]) -> bool
    ensures { IsTrue result ↔ (a.now ≡ b.now) }
{
    a == b
}
