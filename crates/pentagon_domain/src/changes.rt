//! Rows that gain bounds, in both orders.

ghost use Rattle.std.specs.Prelude.{◌≡◌, ◌+◌, ◌≤◌, ◌<◌, length, IsOk, OnOk, OnErr};
ghost use Rattle.std.specs.Vec.{vec_len, vec_capacity};
ghost use Rattle.pentagon_domain.specs.Rows.{AreBounds, with_bound, with_bounds};
ghost use Rattle.pentagon_domain.specs.Targets.{AreTargets, put_at};

use crate::bound_row::BoundRow;
use crate::search::{is_found, place_of, place_to};
use domain_api::NoMemory;

/// For so many bounds room is taken at once.
const FIRST_ROOM: usize = 12;

/// Makes room for the first rows, where there is none yet.
fn make_room(rows: &mut Vec<BoundRow>) -> Result<(), NoMemory>
    ensures { rows.new.items ≡ rows.old.items }
{
    if !rows.is_empty() {
        return Ok(());
    }
    rows.reserve(FIRST_ROOM)?;
    Ok(())
}

/// Puts a row at a place. Where one of the same symbols stands there, the greater constant is kept.
#[tactic(auto, using(crate::proofs::Puts::puts, crate::proofs::Searches::inside_found))]
fn put_at(rows: &mut Vec<BoundRow>, place: usize, row: BoundRow) -> Result<(), NoMemory>
    requires { place ≤ length rows.old.items }
    ensures value { OnOk result (rows.new.items ≡ put_at rows.old.items place row) }
    ensures unchanged { OnErr result (rows.new.items ≡ rows.old.items) }
    ensures room { vec_len rows.old < vec_capacity rows.old → IsOk result }
    ensures count { vec_len rows.new ≤ vec_len rows.old + 1 }
    ensures capacity { vec_capacity rows.old ≤ vec_capacity rows.new }
{
    if is_found(rows, place, row.s, row.t) {
        let kept = &mut rows[place];
        kept.k = kept.k.max(row.k);
        return Ok(());
    }
    rows.insert(place, row)?;
    Ok(())
}

/// Adds a bound to rows, where such a bound is stored.
#[tactic(auto, using(crate::proofs::Puts::in_order))]
pub(crate) fn put(rows: &mut Vec<BoundRow>, row: BoundRow) -> Result<(), NoMemory>
    requires form { AreBounds rows.old.items }
    ensures form { AreBounds rows.new.items }
    ensures value { OnOk result (rows.new.items ≡ with_bound rows.old.items row.s row.t row.k) }
    ensures unchanged { OnErr result (rows.new.items ≡ rows.old.items) }
{
    if !row.is_pair() {
        return Ok(());
    }
    make_room(rows)?;
    let place = place_of(rows, row.s, row.t);
    put_at(rows, place, row)
}

/// Adds a bound to rows and to the same rows by the second symbol, where such a bound is stored.
#[tactic(auto, using(crate::proofs::TargetLists::both_kept, crate::proofs::Puts::in_order))]
pub(crate) fn add(
    rows: &mut Vec<BoundRow>,
    targets: &mut Vec<BoundRow>,
    row: BoundRow,
) -> Result<(), NoMemory>
    requires form { AreBounds rows.old.items }
    requires targets { AreTargets targets.old.items rows.old.items }
    ensures form { AreBounds rows.new.items }
    ensures targets { AreTargets targets.new.items rows.new.items }
    ensures value { OnOk result (rows.new.items ≡ with_bound rows.old.items row.s row.t row.k) }
    ensures unchanged { OnErr result (rows.new.items ≡ rows.old.items) }
    ensures room { vec_len rows.old < vec_capacity rows.old → vec_len targets.old < vec_capacity targets.old →
        IsOk result }
    ensures rows_room { (vec_len rows.new ≤ vec_len rows.old + 1) × (vec_capacity rows.old ≤ vec_capacity rows.new) }
    ensures targets_room { (vec_len targets.new ≤ vec_len targets.old + 1) × (vec_capacity targets.old ≤ vec_capacity targets.new) }
{
    if !row.is_pair() {
        return Ok(());
    }
    rows.reserve(1)?;
    targets.reserve(1)?;
    let place = place_of(rows, row.s, row.t);
    let target = place_to(targets, row.s, row.t);
    put_at(rows, place, row)?;
    put_at(targets, target, row)
}

/// Adds bounds one after another, where such bounds are stored, or none.
#[tactic(auto, using(crate::proofs::TargetLists::additions))]
pub(crate) fn add_all(
    rows: &mut Vec<BoundRow>,
    targets: &mut Vec<BoundRow>,
    bounds: &[BoundRow],
) -> Result<(), NoMemory>
    requires form { AreBounds rows.old.items }
    requires targets { AreTargets targets.old.items rows.old.items }
    ensures form { AreBounds rows.new.items }
    ensures targets { AreTargets targets.new.items rows.new.items }
    ensures value { OnOk result (rows.new.items ≡ with_bounds rows.old.items bounds.now) }
    ensures unchanged { OnErr result (rows.new.items ≡ rows.old.items) }
{
    rows.reserve(bounds.len())?;
    targets.reserve(bounds.len())?;
    for bound in bounds {
        add(rows, targets, *bound)?;
    }
    Ok(())
}
