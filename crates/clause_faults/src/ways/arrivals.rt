//! The stacks that ways bring to the instructions of a clause's code, with parts that they share.

ghost use Rattle.std.specs.Prelude.{◌≡◌};
ghost use Rattle.clause_faults.specs.SharedStacks.{arrivals_at};

use cil_model::Kind;
use std::alloc::{AllocError, Global};
use std::marker::Model;

/// A value on a stack, by what its tree says.
#[derive(Clone, Copy)]
pub(crate) struct Seen {
    /// The kind of the tree, if it has one.
    pub kind: Option<Kind>,
    /// The least IL offset of a call of `Result` or `OldValue` in it, if there is one.
    pub call: Option<u32>,
}

/// Stacks that come to an instruction.
#[derive(Clone, Copy)]
pub(crate) enum Arrival {
    /// The empty stack.
    Empty,
    /// The value, on each stack that comes to the instruction of this index.
    Over(Seen, usize),
}

/// All stacks that come to an instruction. Contracts see the list of arrivals that stand for them.
#[derive(Drop)]
pub(crate) struct Arrivals {
    items: Vec<Arrival>,
}

impl Model for Arrivals {
    ghost use Rattle.std.specs.Prelude.{List};
    ghost use Rattle.clause_faults.specs.declared.ways.arrivals.Arrival.{Arrival};

    ghost Value = { List Arrival };

    ghost view = { λ a. a.items.items };
}

impl Arrivals {
    ghost use Rattle.std.specs.Prelude.{◌≡◌, ◌<◌, [], ◌∷◌, ◌++◌, length, slice_get, slice_set, OnOk};

    /// No stack. It takes no memory.
    pub fn new(alloc: Global) -> Arrivals
        ensures { result ≡ [] }
    {
        Arrivals {
            items: Vec::new(alloc),
        }
    }

    pub fn as_slice(&self) -> &[Arrival]
        ensures { result.now ≡ self.now }
    {
        self.items.as_slice()
    }

    pub fn len(&self) -> usize
        ensures { result ≡ length self.now }
    {
        self.items.len()
    }

    /// The arrival at a place, if there is one.
    pub fn get(&self, place: usize) -> Option<Arrival>
        ensures { result ≡ slice_get self.now place }
    {
        self.items.get(place).copied()
    }

    /// Writes the arrival at a place.
    pub fn set(&mut self, place: usize, arrival: Arrival)
        requires { place < length self.old }
        ensures { self.new ≡ slice_set self.old place arrival }
    {
        self.items[place] = arrival;
    }

    pub fn push(&mut self, arrival: Arrival) -> Result<(), AllocError>
        ensures { OnOk result (self.new ≡ self.old ++ arrival ∷ []) }
    {
        self.items.push(arrival)?;
        Ok(())
    }

    pub fn extend(&mut self, arrivals: &[Arrival]) -> Result<(), AllocError>
        ensures { OnOk result (self.new ≡ self.old ++ arrivals.now) }
    {
        self.items.extend_from_slice(arrivals)
    }
}

/// Returns what comes to the instruction of this index: nothing, where there is none.
pub(crate) fn arrivals_at(stacks: &[Arrivals], index: usize) -> &[Arrival]
    ensures { result.now ≡ arrivals_at stacks.now index }
{
    match stacks.get(index) {
        Some(arrivals) => arrivals.as_slice(),
        None => &[],
    }
}
