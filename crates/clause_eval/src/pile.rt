//! Lists of the frames of a run, in one row.

ghost use Rattle.std.specs.Prelude.{◌≡◌, ◌<◌, ◌-◌, [], ◌∷◌, ◌↔◌, IsTrue, length, slice_get, slice_set, reverse, IfOk, MatchOption, nat_lt};
ghost use Rattle.clause_eval.specs.Piles.{HasRoomFor};
ghost use Rattle.clause_eval.specs.Piles.{size_of, closed};

use crate::rows::append;
use std::alloc::{AllocError, Global};
use std::marker::Model;

/// Lists that lie one above another in one row. It takes memory when it is made, and none later.
#[derive(Drop)]
pub struct Pile<T> {
    items: Vec<T>,
    /// Where the top list begins.
    start: usize,
    /// Where the others begin, the lowest first.
    starts: Vec<usize>,
    /// How many items there may be.
    room: usize,
    /// How many lists there may be below the top.
    depth: usize,
}

impl<T> Model for Pile<T> {
    ghost use Rattle.clause_eval.specs.Piles.{Piled};

    ghost Value = { Piled T };

    ghost use Rattle.std.specs.Prelude.{length};
    ghost use Rattle.std.specs.Vec.{vec_capacity};
    ghost use Rattle.clause_eval.specs.Piles.{piled, IsPile};

    ghost view = { λ p. piled p.items.items p.start p.starts.items p.room p.depth };

    ghost invariant = { λ p. IsPile (length p.items.items) p.start p.starts.items p.room p.depth (vec_capacity p.items) (vec_capacity p.starts) };
}

impl<T: Copy + Drop> Pile<T> {
    /// One empty list.
    pub fn make(alloc: Global, room: usize, depth: usize) -> Result<Pile<T>, AllocError>
        ensures { IfOk result (λ pile. pile ≡ record { top = []; below = []; room = room; depth = depth }) }
    {
        let items = Vec::with_capacity(alloc, room)?;
        let starts = Vec::with_capacity(alloc, depth)?;
        Ok(Pile {
            items,
            start: 0,
            starts,
            room,
            depth,
        })
    }

    /// Leaves one empty list.
    pub fn clear(&mut self)
        ensures { self.new ≡ record self.old { top = []; below = [] } }
    {
        self.items.clear();
        self.starts.clear();
        self.start = 0;
    }

    /// Returns how many items the top list has.
    pub fn len(&self) -> usize
        ensures { result ≡ length self.now.top }
    {
        self.items.len() - self.start
    }

    /// Returns whether there is room for so many more items, and for one more list.
    pub fn has_room_for(&self, count: u16) -> bool
        ensures { IsTrue result ↔ HasRoomFor count self.now }
    {
        self.items.len() + usize::from(count) <= self.room && self.starts.len() < self.depth
    }

    /// The items of the top list. The one that was put last stands last.
    pub fn as_slice(&self) -> &[T]
        ensures { reverse result.now ≡ self.now.top }
    {
        &self.items[self.start..]
    }

    /// Puts an item on the top list.
    pub fn push(&mut self, item: T)
        requires { size_of self.old < self.old.room }
        ensures { self.new ≡ record self.old { top = item ∷ self.old.top } }
    {
        append(&mut self.items, item);
    }

    /// Takes the item of the top list that was put last.
    pub fn pop(&mut self) -> Option<T>
        ensures { MatchOption result ((self.old.top ≡ []) × (self.new ≡ self.old)) (λ item. self.old ≡ record self.new { top = item ∷ self.new.top }) }
    {
        if self.items.len() <= self.start {
            return None;
        }
        self.items.pop()
    }

    /// The item of the top list after which n were put.
    pub fn get(&self, n: usize) -> Option<T>
        ensures { result ≡ slice_get self.now.top n }
    {
        if n < self.items.len() - self.start {
            Some(self.items[self.items.len() - 1 - n])
        } else {
            None
        }
    }

    /// Replaces the item of the top list after which n were put, where there is one.
    pub fn set(&mut self, n: usize, item: T)
        ensures { self.new ≡ record self.old { top = slice_set self.old.top n item } }
    {
        if n < self.items.len() - self.start {
            let last = self.items.len() - 1;
            self.items[last - n] = item;
        }
    }

    /// Begins an empty list above the others.
    pub fn open(&mut self)
        requires { length self.old.below < self.old.depth }
        ensures { self.new ≡ record self.old { top = []; below = self.old.top ∷ self.old.below } }
    {
        append(&mut self.starts, self.start);
        self.start = self.items.len();
    }

    /// Drops the top list, where there is one below.
    pub fn close(&mut self)
        ensures { self.new ≡ closed self.old.below self.old }
    {
        if let Some(start) = self.starts.pop() {
            self.items.truncate(self.start);
            self.start = start;
        }
    }
}
