//! The bounds that are stored.

ghost use Rattle.std.specs.Prelude.{◌≡◌, ℕ, ℤ, [], ◌↔◌, IsSome, IfSome, IsTrue, IfOk, OnOk, OnErr, option_map};

use crate::bound_row::BoundRow;
use crate::ends::{Ends, are_within};
use crate::forms::{are_bounds, are_same};
use crate::note::Note;
use crate::orders::Orders;
use crate::search::{stored, stored_near};
use crate::settled::are_settled;
use crate::shared::change;
use crate::tight::are_tight;
use domain_api::NoMemory;
use std::alloc::Global;
use std::marker::Model;
use std::rc::Rc;

/// Of fewer bounds it is not noted whether they are tight: what stands behind them is soon looked at.
const FEW: usize = 24;

/// Bounds of symbols, each s + k <= t of two distinct symbols other than 0, and for two symbols one at most.
/// Contracts see them as their rows: each pair of symbols once, rising by the first, then by the second.
///
/// Copies share the rows, until one of them changes.
#[derive(Drop)]
pub struct Bounds {
    alloc: Global,
    /// None where no room was taken yet.
    orders: Option<Rc<Orders>>,
    /// What is noted of the rows, where it was tested.
    note: Option<Rc<Note>>,
}

impl Model for Bounds {
    ghost use Rattle.std.specs.Prelude.{List, IfSome, option_map};
    ghost use Rattle.pentagon_domain.specs.declared.bound_row.BoundRow.{BoundRow};
    ghost use Rattle.pentagon_domain.specs.Rows.{rows_in};
    ghost use Rattle.pentagon_domain.specs.Settled.{AreNoted};

    ghost Value = { List BoundRow };

    ghost view = { λ bounds. rows_in (option_map (λ orders. orders.value) bounds.orders) };

    ghost invariant = { λ bounds. IfSome bounds.note (λ note.
        AreNoted note.value (rows_in (option_map (λ orders. orders.value) bounds.orders))) };
}

impl Bounds {
    ghost use Rattle.pentagon_domain.specs.Rows.{AreBounds, rows_in, rows_from, rows_to, stored, with_bound, with_bounds};
    ghost use Rattle.pentagon_domain.specs.Gaps.{Allows, LiesAbove};
    ghost use Rattle.pentagon_domain.specs.Most.{AreUpTo};
    ghost use Rattle.pentagon_domain.specs.Settled.{AreNoted, AreSettledOver};
    ghost use Rattle.pentagon_domain.specs.Tight.{AreTightOver};

    /// No bound. Takes no memory.
    pub fn new(alloc: Global) -> Bounds
        ensures { result ≡ [] }
    {
        Bounds {
            alloc,
            orders: None,
            note: None,
        }
    }

    /// Bounds with these rows.
    fn of(alloc: Global, orders: Orders) -> Result<Bounds, NoMemory>
        ensures { IfOk result (λ bounds. bounds ≡ orders) }
    {
        Ok(Bounds {
            alloc,
            orders: Some(Rc::new(alloc, orders)?),
            note: None,
        })
    }

    /// No bound, and room for so many.
    pub fn with_capacity(alloc: Global, count: usize) -> Result<Bounds, NoMemory>
        ensures { IfOk result (λ bounds. bounds ≡ []) }
    {
        Bounds::of(alloc, Orders::with_capacity(alloc, count)?)
    }

    /// The bounds of these rows. None exactly where they are not in order, each pair once, or one is of equal symbols
    /// or of symbol 0. Costs one pass, a copy, and a sort of that.
    pub fn of_rows(alloc: Global, rows: Vec<BoundRow>) -> Result<Option<Bounds>, NoMemory>
        ensures some { IfOk result (λ made. IsSome made ↔ AreBounds rows.items) }
        ensures value { IfOk result (λ made. IfSome made (λ bounds. bounds ≡ rows.items)) }
    {
        if !are_bounds(&rows) {
            return Ok(None);
        }
        Ok(Some(Bounds::in_both_orders(alloc, rows)?))
    }

    /// The bounds of rows in order. Costs a copy, and a sort of that.
    pub(crate) fn in_both_orders(alloc: Global, rows: Vec<BoundRow>) -> Result<Bounds, NoMemory>
        requires { AreBounds rows.items }
        ensures { IfOk result (λ bounds. bounds ≡ rows.items) }
    {
        if rows.is_empty() {
            return Ok(Bounds::new(alloc));
        }
        Bounds::of(alloc, Orders::of(alloc, rows)?)
    }

    /// The rows in both orders, where there is room for some.
    fn orders(&self) -> Option<&Orders>
        ensures { self.now ≡ rows_in (option_map (λ orders. orders.now) result) }
    {
        match &self.orders {
            None => None,
            Some(orders) => Some(orders.as_ref()),
        }
    }

    /// A number that no constant exceeds.
    pub(crate) fn most(&self) -> i64
        ensures value { AreUpTo result self.now }
        ensures form { AreBounds self.now }
    {
        match self.orders() {
            None => i64::MIN,
            Some(orders) => orders.most(),
        }
    }

    /// The rows, rising by the first symbol, then by the second. Takes no memory.
    pub fn rows(&self) -> &[BoundRow]
        ensures value { result.now ≡ self.now }
        ensures form { AreBounds self.now }
    {
        match self.orders() {
            None => &[],
            Some(orders) => orders.rows(),
        }
    }

    /// The rows that go from a symbol, rising by the second one. They are found by halving; no memory is taken.
    pub fn rows_from(&self, s: u32) -> &[BoundRow]
        ensures value { result.now ≡ rows_from self.now s }
        ensures form { AreBounds self.now }
    {
        match self.orders() {
            None => &[],
            Some(orders) => orders.rows_from(s),
        }
    }

    /// The rows that go to a symbol, rising by the first one. They are found by halving; no memory is taken.
    pub fn rows_to(&self, t: u32) -> &[BoundRow]
        ensures value { result.now ≡ rows_to self.now t }
        ensures form { AreBounds self.now }
    {
        match self.orders() {
            None => &[],
            Some(orders) => orders.rows_to(t),
        }
    }

    /// The constant of the bound of two symbols. It is found by halving; no memory is taken.
    pub fn stored(&self, s: u32, t: u32) -> Option<i64>
        ensures { result ≡ stored self.now s t }
    {
        stored(self.rows(), s, t)
    }

    /// The constant of the bound of two symbols. It is looked for at a place first, and then by halving; the place
    /// after the bound is that of the next guess. No memory is taken.
    pub fn stored_near(&self, s: u32, t: u32, guess: &mut usize) -> Option<i64>
        ensures { result ≡ stored self.now s t }
    {
        stored_near(self.rows(), s, t, guess)
    }

    /// Adds the bound s + k <= t; of two bounds of the same symbols the greater k is kept. Where the
    /// symbols are equal or one is 0, nothing is stored. After an error nothing has changed.
    ///
    /// Its places, by the first symbol and by the second, are found by halving, and a new row moves those behind it in
    /// both orders. Where the rows are shared, they are copied first. A bound that is known already costs one search.
    #[tactic(auto, using(crate::proofs::Allowing::with_bound_allows))]
    pub fn add_bound(&mut self, s: u32, t: u32, k: i64) -> Result<(), NoMemory>
        ensures value { OnOk result (self.new ≡ with_bound self.old s t k) }
        ensures unchanged { OnErr result (self.new ≡ self.old) }
        ensures keeps { OnOk result ((number : ℕ → ℤ) → Allows self.old number → LiesAbove number s t k →
            Allows self.new number) }
    {
        self.add_all(&[BoundRow { s, t, k }])
    }

    /// Adds bounds one after another, each as `add_bound` does. After an error nothing has changed: room for all is
    /// taken first.
    pub fn add_all(&mut self, bounds: &[BoundRow]) -> Result<(), NoMemory>
        ensures value { OnOk result (self.new ≡ with_bounds self.old bounds.now) }
        ensures unchanged { OnErr result (self.new ≡ self.old) }
    {
        if self.know_all(bounds) {
            return Ok(());
        }
        self.note = None;
        change(self.alloc, &mut self.orders, bounds)
    }

    /// Returns whether the bound of a row is stored, or one that tells more, or none is.
    #[tactic(auto, using(crate::proofs::Known::known_already))]
    fn knows(&self, row: &BoundRow) -> bool
        ensures { IsTrue result → with_bound self.now row.now.s row.now.t row.now.k ≡ self.now }
    {
        if !row.is_pair() {
            return true;
        }
        match stored(self.rows(), row.s, row.t) {
            None => false,
            Some(k) => row.k <= k,
        }
    }

    /// Returns whether this is so of each of these bounds.
    #[tactic(auto, using(crate::proofs::TargetLists::additions))]
    fn know_all(&self, bounds: &[BoundRow]) -> bool
        ensures { IsTrue result → with_bounds self.now bounds.now ≡ self.now }
    {
        for bound in bounds {
            if !self.knows(bound) {
                return false;
            }
        }
        true
    }

    /// The same bounds again. Takes no memory: the rows are shared.
    pub fn copy(&self, alloc: Global) -> Result<Bounds, NoMemory>
        ensures { IfOk result (λ again. again ≡ self.now) }
    {
        Ok(Bounds {
            alloc,
            orders: self.orders.clone()?,
            note: self.note.clone()?,
        })
    }

    /// What is noted of the bounds.
    fn note(&self) -> Option<&Note>
        ensures { IfSome result (λ note. AreNoted note.now self.now) }
    {
        match &self.note {
            None => None,
            Some(note) => Some(note.as_ref()),
        }
    }

    /// Ends over which the bounds are tight, that of symbol s at place s, where such are noted.
    pub fn tight_over(&self) -> Option<&[Ends]>
        ensures { IfSome result (λ ends. AreTightOver ends.now self.now) }
    {
        match self.note() {
            None => None,
            Some(note) => Some(note.ends.as_slice()),
        }
    }

    /// Ends over which the bounds are tight and settled: no bound cuts one, and each tells more than they do. None
    /// where such are not noted.
    pub fn settled_over(&self) -> Option<&[Ends]>
        ensures tight { IfSome result (λ ends. AreTightOver ends.now self.now) }
        ensures settled { IfSome result (λ ends. AreSettledOver ends.now self.now) }
    {
        match self.note() {
            Some(note) if note.is_settled => Some(note.ends.as_slice()),
            _ => None,
        }
    }

    /// The same bounds, of which it is noted whether they are tight over ends, that of symbol s at place s. Where this
    /// is noted already, or there are few bounds, nothing is done. Where it is noted of wider ends, it costs one pass
    /// over the bounds; else a pass over the bounds that go on from each bound, and memory for a row of the symbols.
    pub fn noted(self, alloc: Global, ends: Vec<Ends>) -> Result<Bounds, NoMemory>
        ensures { IfOk result (λ bounds. bounds ≡ self) }
    {
        if self.rows().len() < FEW || self.is_noted(&ends) {
            return Ok(self);
        }
        if !self.stay_tight(&ends) && !are_tight(alloc, &self, &ends)? {
            return Ok(self);
        }
        self.with_note(alloc, ends)
    }

    /// The same bounds, noted to be tight over ends over which they are. Where this is noted already, or there are few
    /// bounds, nothing is done. Else it costs one pass over the bounds.
    pub fn noted_tight(self, alloc: Global, ends: Vec<Ends>) -> Result<Bounds, NoMemory>
        requires { AreTightOver ends.items self }
        ensures { IfOk result (λ bounds. bounds ≡ self) }
    {
        if self.rows().len() < FEW || self.is_noted(&ends) {
            return Ok(self);
        }
        self.with_note(alloc, ends)
    }

    /// The same bounds, with a note of ends over which they are tight. Whether they are settled is tested.
    fn with_note(self, alloc: Global, ends: Vec<Ends>) -> Result<Bounds, NoMemory>
        requires { AreTightOver ends.items self }
        ensures { IfOk result (λ bounds. bounds ≡ self) }
    {
        let is_settled = are_settled(self.rows(), &ends);
        Ok(Bounds {
            alloc: self.alloc,
            orders: self.orders,
            note: Some(Rc::new(alloc, Note { ends, is_settled })?),
        })
    }

    /// Returns whether it is noted that the bounds are tight over these ends.
    fn is_noted(&self, ends: &[Ends]) -> bool {
        match self.tight_over() {
            None => false,
            Some(noted) => noted == ends,
        }
    }

    /// Returns whether the bounds are noted to be tight over ends that are as wide.
    fn stay_tight(&self, ends: &[Ends]) -> bool
        ensures { IsTrue result → AreTightOver ends.now self.now }
    {
        match self.tight_over() {
            None => false,
            Some(wide) => are_within(wide, ends),
        }
    }

    /// Returns whether both are the same bounds. Takes no memory, and costs one pass at most.
    pub fn same(&self, other: &Bounds) -> bool
        ensures { IsTrue result ↔ (self.now ≡ other.now) }
    {
        are_same(self.rows(), other.rows())
    }
}
