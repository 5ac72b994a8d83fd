//! The arrays of the machine, in one flat row of cells.

ghost use Rattle.std.specs.Prelude.{◌≡◌, ◌^◌, ◌<◌, [], ◌∷◌, length, slice_get, pos, IfOk, IfSome, MatchOption, Some, None, option_map, true};
ghost use Rattle.cil_model.specs.Effects.{zeros};
ghost use Rattle.clause_eval.specs.Stores.{has_room, item_in, with_array, replaced};
ghost use Rattle.clause_eval.specs.Arrays.{cell_of};
ghost use Rattle.clause_eval.specs.Lookups.{items_at};
ghost use Rattle.clause_eval.specs.GivenArrays.{IsShort, items_of, place_of};

use crate::arrays::place_of;
use crate::rows::{append, append_items, fill, part};
use cil_model::{Arg, Place};
use std::alloc::{AllocError, Global};
use std::marker::Model;

/// Where the items of an array stand in the row.
#[derive(Clone, Copy)]
struct Array {
    place: Place,
    start: u32,
    len: u32,
}

/// An array, as it is looked at. Contracts see it as an array of the heap.
#[derive(Clone, Copy)]
pub struct ArrayRef<'a> {
    /// Its type: `bool[]` or `int32[]`.
    pub place: Place,
    pub items: &'a [i32],
}

/// The arrays of the machine, in the order in which they were made. It takes memory when it is made, and none later.
#[derive(Drop)]
pub struct Memory {
    /// The most cells that the arrays may take: an array of n items takes n + 1.
    limit: u32,
    /// The items of all arrays, one array after another.
    cells: Vec<i32>,
    arrays: Vec<Array>,
}

impl Model for Memory {
    ghost use Rattle.clause_eval.specs.Stores.{Store};

    ghost Value = { Store };

    ghost use Rattle.std.specs.Vec.{vec_capacity};
    ghost use Rattle.clause_eval.specs.Rows.{heap_in, IsLaid};

    ghost view = { λ m. record { heap = heap_in m.cells.items m.arrays.items; limit = m.limit } };

    ghost invariant = { λ m. IsLaid m.limit m.cells.items m.arrays.items (vec_capacity m.cells) (vec_capacity m.arrays) };
}

/// The array of this index.
fn find(arrays: &[Array], index: u32) -> Option<Array>
    ensures { result ≡ slice_get arrays.now index }
{
    arrays.get(index as usize).copied()
}

impl Memory {
    /// No arrays, and memory for so many cells.
    pub fn make(alloc: Global, limit: u32) -> Result<Memory, AllocError>
        ensures { IfOk result (λ memory. memory ≡ record { heap = []; limit = limit }) }
    {
        let cells = Vec::with_capacity(alloc, limit as usize)?;
        let arrays = Vec::with_capacity(alloc, limit as usize)?;
        Ok(Memory {
            limit,
            cells,
            arrays,
        })
    }

    /// Gives all cells back.
    pub fn clear(&mut self)
        ensures heap { self.new.heap ≡ [] }
        ensures limit { self.new.limit ≡ self.old.limit }
    {
        self.cells.clear();
        self.arrays.clear();
    }

    /// Returns how many arrays there are.
    pub fn len(&self) -> u32
        ensures { result ≡ length self.now.heap }
    {
        let limit = self.limit as usize;
        limit.min(self.arrays.len()) as u32
    }

    /// The array of this index.
    pub fn array(&self, index: u32) -> Option<ArrayRef<'_>>
        ensures array { MatchOption result (slice_get self.now.heap index ≡ None) (λ array. slice_get self.now.heap index ≡ Some (cell_of array)) }
        ensures length { IfSome result (λ array. length array.items.now < 2 ^ 31) }
    {
        let array = find(&self.arrays, index)?;
        Some(ArrayRef {
            place: array.place,
            items: part(&self.cells, array.start, array.len),
        })
    }

    /// The items of the array of this index.
    pub fn items(&self, index: u32) -> Option<&[i32]>
        ensures { option_map (λ items. items.now) result ≡ items_at self.now.heap index }
    {
        match self.array(index) {
            Some(array) => Some(array.items),
            None => None,
        }
    }

    /// The item at an index of an array.
    pub fn item(&self, index: u32, n: u32) -> Option<i32>
        ensures { result ≡ item_in self.now.heap index n }
    {
        self.array(index)?.items.get(n as usize).copied()
    }

    /// Replaces an item of an array, where it has that item. A bool array is given a number from 0 to 255.
    pub fn replace(&mut self, index: u32, n: u32, item: i32)
        ensures heap { self.new.heap ≡ replaced self.old.heap index n item }
        ensures limit { self.new.limit ≡ self.old.limit }
    {
        let Some(array) = find(&self.arrays, index) else {
            return;
        };
        if n < array.len {
            self.cells[array.start as usize + n as usize] = item;
        }
    }

    /// Puts the array that an argument makes, for which there are cells.
    pub fn put(&mut self, arg: &Arg)
        requires array { IsShort arg.now }
        requires room { has_room self.old (record { place = place_of arg.now; items = items_of arg.now }) ≡ true }
        ensures { self.new ≡ with_array self.old (record { place = place_of arg.now; items = items_of arg.now }) }
    {
        let start = self.cells.len();
        append_items(&mut self.cells, arg);
        let len = self.cells.len() - start;
        let place = place_of(arg);
        append(
            &mut self.arrays,
            Array {
                place,
                start: start as u32,
                len: len as u32,
            },
        );
    }

    /// Makes an array of zeros, where there are cells for it.
    pub fn make_zeros(&mut self, place: Place, len: u32) -> bool
        requires { len < 2 ^ 31 }
        ensures room { result ≡ has_room self.old (zeros place len) }
        ensures new { self.new ≡ with_array self.old (zeros place len) }
    {
        let start = self.cells.len();
        let end = start + len as usize;
        if self.limit as usize <= end + self.arrays.len() {
            return false;
        }
        fill(&mut self.cells, end);
        append(
            &mut self.arrays,
            Array {
                place,
                start: start as u32,
                len,
            },
        );
        true
    }
}
