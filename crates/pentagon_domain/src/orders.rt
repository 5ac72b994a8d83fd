//! Rows in both orders.
//!
//! Rows are kept in two orders, so that what is known of a symbol costs its own bounds. A join writes one order
//! (`BoundsBuilder`) and makes the other by a sort.

ghost use Rattle.std.specs.Prelude.{◌≡◌, [], IfOk, OnOk, OnErr};
ghost use Rattle.std.specs.Vec.{vec_capacity};

use crate::bound_row::BoundRow;
use crate::changes::add_all;
use crate::idle::most_of;
use crate::search::{rows_from, rows_to};
use crate::targets::by_target;
use domain_api::NoMemory;
use std::alloc::Global;
use std::marker::Model;

/// Of so many rows it is worth the copy to give back the room that they do not need.
const MANY: usize = 24;

/// The rows of bounds in both orders. Contracts see them as the rows by the first symbol.
#[derive(Drop)]
pub(crate) struct Orders {
    rows: Vec<BoundRow>,
    /// The same rows, rising by the second symbol, then by the first.
    targets: Vec<BoundRow>,
    /// No constant of them is greater.
    most: i64,
}

impl Model for Orders {
    ghost use Rattle.std.specs.Prelude.{List};
    ghost use Rattle.pentagon_domain.specs.declared.bound_row.BoundRow.{BoundRow};
    ghost use Rattle.pentagon_domain.specs.Rows.{AreBounds};
    ghost use Rattle.pentagon_domain.specs.Most.{AreUpTo};
    ghost use Rattle.pentagon_domain.specs.Targets.{AreTargets};

    ghost Value = { List BoundRow };

    ghost view = { λ orders. orders.rows.items };

    ghost invariant = { λ orders.
        AreBounds orders.rows.items × AreTargets orders.targets.items orders.rows.items
        × AreUpTo orders.most orders.rows.items };
}

/// A copy of rows, with room for so many more.
fn roomy(alloc: Global, rows: &[BoundRow], more: usize) -> Result<Vec<BoundRow>, NoMemory>
    ensures { IfOk result (λ copy. copy.items ≡ rows.now) }
{
    let mut copy = Vec::new(alloc);
    copy.reserve_exact(rows.len().saturating_add(more))?;
    copy.extend_from_slice(rows)?;
    Ok(copy)
}

/// Rows that give back the room they do not need, where they are many.
fn shrunk(rows: Vec<BoundRow>) -> Vec<BoundRow>
    ensures { result.items ≡ rows.items }
{
    let mut rows = rows;
    if MANY <= rows.len() {
        rows.shrink_to_fit();
    }
    rows
}

impl Orders {
    ghost use Rattle.pentagon_domain.specs.Rows.{AreBounds, rows_from, rows_to, with_bounds};
    ghost use Rattle.pentagon_domain.specs.Most.{AreUpTo};

    /// No row, and room for so many.
    pub(crate) fn with_capacity(alloc: Global, count: usize) -> Result<Orders, NoMemory>
        ensures { IfOk result (λ orders. orders ≡ []) }
    {
        Ok(Orders {
            rows: Vec::with_capacity(alloc, count)?,
            targets: Vec::with_capacity(alloc, count)?,
            most: i64::MIN,
        })
    }

    /// Rows that are in order, with little room for more. Costs two copies, and a sort of one.
    pub(crate) fn of(alloc: Global, rows: Vec<BoundRow>) -> Result<Orders, NoMemory>
        requires { AreBounds rows.items }
        ensures { IfOk result (λ orders. orders ≡ rows.items) }
    {
        let rows = shrunk(rows);
        let targets = by_target(alloc, &rows)?;
        let most = most_of(&rows, i64::MIN);
        Ok(Orders {
            rows,
            targets,
            most,
        })
    }

    /// The same rows again, with room for so many more. Costs one pass.
    pub(crate) fn copy(&self, alloc: Global, more: usize) -> Result<Orders, NoMemory>
        ensures { IfOk result (λ again. again ≡ self.now) }
    {
        Ok(Orders {
            rows: roomy(alloc, &self.rows, more)?,
            targets: roomy(alloc, &self.targets, more)?,
            most: self.most,
        })
    }

    /// A number that no constant exceeds.
    pub(crate) fn most(&self) -> i64
        ensures value { AreUpTo result self.now }
        ensures form { AreBounds self.now }
    {
        self.most
    }

    /// The rows, rising by the first symbol, then by the second.
    pub(crate) fn rows(&self) -> &[BoundRow]
        ensures value { result.now ≡ self.now }
        ensures form { AreBounds self.now }
    {
        &self.rows
    }

    /// The rows that go from a symbol, rising by the second one.
    pub(crate) fn rows_from(&self, s: u32) -> &[BoundRow]
        ensures value { result.now ≡ rows_from self.now s }
        ensures form { AreBounds self.now }
    {
        rows_from(&self.rows, s)
    }

    /// The rows that go to a symbol, rising by the first one.
    pub(crate) fn rows_to(&self, t: u32) -> &[BoundRow]
        ensures value { result.now ≡ rows_to self.now t }
        ensures form { AreBounds self.now }
    {
        rows_to(&self.targets, t)
    }

    /// Adds bounds one after another, where such bounds are stored, or none: room for all is taken first.
    pub(crate) fn add_all(&mut self, bounds: &[BoundRow]) -> Result<(), NoMemory>
        ensures value { OnOk result (self.new ≡ with_bounds self.old bounds.now) }
        ensures unchanged { OnErr result (self.new ≡ self.old) }
    {
        self.most = most_of(bounds, self.most);
        add_all(&mut self.rows, &mut self.targets, bounds)
    }
}
