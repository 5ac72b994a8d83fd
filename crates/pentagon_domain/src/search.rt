//! Searches among rows that rise, by halving.

ghost use Rattle.std.specs.Prelude.{◌≡◌, ◌≤◌, true, false, nat_lt, length, map, filter, nat_le, IsTrue};
ghost use Rattle.std.specs.List.{AllWithin};
ghost use Rattle.std.specs.List.Sorted.{IsNonDecreasingBy};
ghost use Rattle.pentagon_domain.specs.Rows.{AreBounds, is_found, place_of, rows_from, rows_to, stored};
ghost use Rattle.pentagon_domain.specs.Targets.{turned};

use crate::bound_row::BoundRow;

/// Returns whether all rows stand before those of two symbols.
#[tactic(auto, using(crate::proofs::Searches::none_before))]
fn ends_before(rows: &[BoundRow], s: u32, t: u32) -> bool
    requires { AreBounds rows.now }
    ensures { IsTrue result → length rows.now ≡ place_of rows.now s t }
{
    if rows.is_empty() {
        return true;
    }
    rows[rows.len() - 1].is_before(s, t)
}

/// The number of rows before those of two symbols. They are counted by halving where not all of them are.
pub(crate) fn place_of(rows: &[BoundRow], s: u32, t: u32) -> usize
    requires { AreBounds rows.now }
    ensures value { result ≡ place_of rows.now s t }
    ensures bound { result ≤ length rows.now }
{
    if ends_before(rows, s, t) {
        rows.len()
    } else {
        place_among(rows, s, t)
    }
}

/// The number of rows before those of two symbols, counted by halving.
fn place_among(rows: &[BoundRow], s: u32, t: u32) -> usize
    requires { AreBounds rows.now }
    ensures value { result ≡ place_of rows.now s t }
    ensures bound { result ≤ length rows.now }
{
    rows.partition_point(|row| row.is_before(s, t))
}

/// The number of rows before those of two symbols, where the rows rise by the second symbol.
pub(crate) fn place_to(targets: &[BoundRow], s: u32, t: u32) -> usize
    requires { AreBounds (map turned targets.now) }
    ensures value { result ≡ place_of (map turned targets.now) t s }
    ensures bound { result ≤ length targets.now }
{
    targets.partition_point(|row| row.is_before_to(s, t))
}

/// Returns whether the row at this place is that of the two symbols.
#[tactic(auto, using(crate::proofs::Searches::found_here, crate::proofs::Searches::found_past))]
pub(crate) fn is_found(rows: &[BoundRow], place: usize, s: u32, t: u32) -> bool
    ensures { result ≡ is_found rows.now place s t }
{
    if place < rows.len() {
        rows[place].is_of(s, t)
    } else {
        false
    }
}

/// The constant of the row of two symbols.
#[tactic(auto, using(crate::proofs::Searches::finds))]
pub(crate) fn stored(rows: &[BoundRow], s: u32, t: u32) -> Option<i64>
    requires { AreBounds rows.now }
    ensures { result ≡ stored rows.now s t }
{
    let place = place_of(rows, s, t);
    if is_found(rows, place, s, t) {
        Some(rows[place].k)
    } else {
        None
    }
}

/// The constant of the row of two symbols. It is looked for at a place first; the place after it is guessed next.
#[tactic(auto, using(crate::proofs::Searches::finds, crate::proofs::Searches::found_stored))]
pub(crate) fn stored_near(rows: &[BoundRow], s: u32, t: u32, guess: &mut usize) -> Option<i64>
    requires { AreBounds rows.now }
    ensures { result ≡ stored rows.now s t }
{
    if !is_found(rows, *guess, s, t) {
        *guess = place_of(rows, s, t);
    }
    let place = *guess;
    if !is_found(rows, place, s, t) {
        return None;
    }
    *guess = place + 1;
    Some(rows[place].k)
}

/// The rows that go from a symbol or a later one.
fn rows_from_on(rows: &[BoundRow], s: u32) -> &[BoundRow]
    requires { IsNonDecreasingBy (λ row. row.s) rows.now }
    ensures { result.now ≡ filter (λ row. nat_le s row.s) rows.now }
{
    let start = rows.partition_point(|row| row.s < s);
    &rows[start..]
}

/// The rows that go from a symbol or an earlier one.
fn rows_up_to(rows: &[BoundRow], s: u32) -> &[BoundRow]
    requires { IsNonDecreasingBy (λ row. row.s) rows.now }
    ensures { result.now ≡ filter (λ row. nat_le row.s s) rows.now }
{
    let end = rows.partition_point(|row| row.s <= s);
    &rows[..end]
}

/// The rows that go from a symbol.
pub(crate) fn rows_from(rows: &[BoundRow], s: u32) -> &[BoundRow]
    requires { AreBounds rows.now }
    ensures { result.now ≡ rows_from rows.now s }
{
    rows_up_to(rows_from_on(rows, s), s)
}

/// Returns whether all rows before a place go from symbols below a number.
fn is_low_before(rows: &[BoundRow], place: usize, n: u64) -> bool
    requires { IsNonDecreasingBy (λ row. row.s) rows.now }
    ensures within { IsTrue result → place ≤ length rows.now }
    ensures low { IsTrue result → AllWithin (λ row. nat_lt row.s n ≡ true) rows.now 0 place }
{
    if rows.len() < place {
        return false;
    }
    place == 0 || u64::from(rows[place - 1].s) < n
}

/// Returns whether no row from a place on goes from a symbol below a number.
fn is_high_from(rows: &[BoundRow], place: usize, n: u64) -> bool
    requires { IsNonDecreasingBy (λ row. row.s) rows.now }
    ensures { IsTrue result → AllWithin (λ row. nat_lt row.s n ≡ false) rows.now place (length rows.now) }
{
    rows.len() <= place || n <= u64::from(rows[place].s)
}

/// Returns whether the rows before a place are those from symbols below a number.
fn parts_at(rows: &[BoundRow], place: usize, n: u64) -> bool
    requires { IsNonDecreasingBy (λ row. row.s) rows.now }
    ensures within { IsTrue result → place ≤ length rows.now }
    ensures low { IsTrue result → AllWithin (λ row. nat_lt row.s n ≡ true) rows.now 0 place }
    ensures high { IsTrue result → AllWithin (λ row. nat_lt row.s n ≡ false) rows.now place (length rows.now) }
{
    is_low_before(rows, place, n) && is_high_from(rows, place, n)
}

/// The rows that go from a symbol or a later one. A place is tried first.
fn rows_on_near(rows: &[BoundRow], s: u32, place: usize) -> &[BoundRow]
    requires { IsNonDecreasingBy (λ row. row.s) rows.now }
    ensures { result.now ≡ filter (λ row. nat_le s row.s) rows.now }
{
    if parts_at(rows, place, u64::from(s)) {
        &rows[place..]
    } else {
        rows_from_on(rows, s)
    }
}

/// The rows that go from a symbol or an earlier one. A place is tried first.
fn rows_until_near(rows: &[BoundRow], s: u32, place: usize) -> &[BoundRow]
    requires { IsNonDecreasingBy (λ row. row.s) rows.now }
    ensures { result.now ≡ filter (λ row. nat_le row.s s) rows.now }
{
    if parts_at(rows, place, u64::from(s) + 1) {
        &rows[..place]
    } else {
        rows_up_to(rows, s)
    }
}

/// Where the rows of a symbol may be: those of one before it end there, and were so many.
#[derive(Clone, Copy)]
pub(crate) struct Guess {
    pub(crate) end: usize,
    pub(crate) count: usize,
}

/// The rows that go from a symbol. It is guessed where they are, and the guess for the next symbol is made; a wrong one
/// costs the search.
pub(crate) fn rows_near<'a>(rows: &'a [BoundRow], s: u32, guess: &mut Guess) -> &'a [BoundRow]
    requires { AreBounds rows.now }
    ensures { result.now ≡ rows_from rows.now s }
{
    let rest = rows_on_near(rows, s, guess.end);
    let found = rows_until_near(rest, s, guess.count);
    let before = rows.len().wrapping_sub(rest.len());
    *guess = Guess {
        end: before.wrapping_add(found.len()),
        count: found.len(),
    };
    found
}

/// The rows that go to a symbol or a later one.
fn rows_to_on(targets: &[BoundRow], t: u32) -> &[BoundRow]
    requires { IsNonDecreasingBy (λ row. row.t) targets.now }
    ensures { result.now ≡ filter (λ row. nat_le t row.t) targets.now }
{
    let start = targets.partition_point(|row| row.t < t);
    &targets[start..]
}

/// The rows that go to a symbol or an earlier one.
fn rows_to_until(targets: &[BoundRow], t: u32) -> &[BoundRow]
    requires { IsNonDecreasingBy (λ row. row.t) targets.now }
    ensures { result.now ≡ filter (λ row. nat_le row.t t) targets.now }
{
    let end = targets.partition_point(|row| row.t <= t);
    &targets[..end]
}

/// The rows that go to a symbol, of rows that rise by the second symbol.
pub(crate) fn rows_to(targets: &[BoundRow], t: u32) -> &[BoundRow]
    requires { AreBounds (map turned targets.now) }
    ensures { result.now ≡ rows_to targets.now t }
{
    rows_to_until(rows_to_on(targets, t), t)
}
