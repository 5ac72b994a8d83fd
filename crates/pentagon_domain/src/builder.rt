//! Bounds that are being put together.

ghost use Rattle.std.specs.Prelude.{◌≡◌, [], ◌↔◌, IfOk, IsTrue, OnOk, OnErr};

use crate::bound_row::BoundRow;
use crate::bounds::Bounds;
use crate::changes::put;
use crate::forms::are_same;
use domain_api::NoMemory;
use std::alloc::Global;
use std::marker::Model;

/// Bounds that are being put together: in one order alone, until all are there. Contracts see them as their rows, each
/// pair of symbols once, rising by the first, then by the second.
///
/// Where the symbols of what is added rise, nothing is moved, and `build` costs one sort.
#[derive(Drop)]
pub struct BoundsBuilder {
    rows: Vec<BoundRow>,
}

impl Model for BoundsBuilder {
    ghost use Rattle.std.specs.Prelude.{List};
    ghost use Rattle.pentagon_domain.specs.declared.bound_row.BoundRow.{BoundRow};
    ghost use Rattle.pentagon_domain.specs.Rows.{AreBounds};

    ghost Value = { List BoundRow };

    ghost view = { λ bounds. bounds.rows.items };

    ghost invariant = { λ bounds. AreBounds bounds.rows.items };
}

impl BoundsBuilder {
    ghost use Rattle.pentagon_domain.specs.Rows.{with_bound};

    /// No bound. Takes no memory.
    pub fn new(alloc: Global) -> BoundsBuilder
        ensures { result ≡ [] }
    {
        BoundsBuilder {
            rows: Vec::new(alloc),
        }
    }

    /// No bound, and room for so many.
    pub fn with_capacity(alloc: Global, count: usize) -> Result<BoundsBuilder, NoMemory>
        ensures { IfOk result (λ bounds. bounds ≡ []) }
    {
        Ok(BoundsBuilder {
            rows: Vec::with_capacity(alloc, count)?,
        })
    }

    /// Returns whether the rows are those of bounds. Takes no memory, and costs one pass at most.
    pub fn is_same(&self, bounds: &Bounds) -> bool
        ensures { IsTrue result ↔ (self.now ≡ bounds.now) }
    {
        are_same(&self.rows, bounds.rows())
    }

    /// Adds the bound s + k <= t; of two bounds of the same symbols the greater k is kept. Where the symbols are equal
    /// or one is 0, nothing is stored. After an error nothing has changed.
    ///
    /// Its place is found by halving, and a new row moves those of later symbols.
    pub fn add_bound(&mut self, s: u32, t: u32, k: i64) -> Result<(), NoMemory>
        ensures value { OnOk result (self.new ≡ with_bound self.old s t k) }
        ensures unchanged { OnErr result (self.new ≡ self.old) }
    {
        put(&mut self.rows, BoundRow { s, t, k })
    }

    /// The bounds. Costs a copy and a sort of that.
    pub fn build(self) -> Result<Bounds, NoMemory>
        ensures { IfOk result (λ bounds. bounds ≡ self) }
    {
        Bounds::in_both_orders(*self.rows.allocator(), self.rows)
    }
}
