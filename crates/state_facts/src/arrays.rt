//! Loads, stores and new arrays.

ghost use Rattle.std.specs.Prelude.{◌≡◌, ◌<ℤ◌, ◌^◌, ◌-◌, pos, false, true, [], IfOk, OnOk, OnErr, None, Some, is_some};
ghost use Rattle.std.specs.List.{AllByRecursion};
ghost use Rattle.std.specs.Option.{option_and_then};
ghost use Rattle.array_segments.specs.SegmentLists.{HasForm as HasSegments};
ghost use Rattle.number_facts.specs.Ends.{range_of};
ghost use Rattle.number_facts.specs.Facts.{IsNamed};
ghost use Rattle.number_facts.specs.Fresh.{expr_made, facts_made, fresh};
ghost use Rattle.state_facts.specs.Forms.{HasForm, HasNumber};
ghost use Rattle.state_facts.specs.Moves as rule;

use crate::known::Known;
use crate::moves::is_byte;
use alias_facts::Nullness;
use array_contents::Segs;
use cil_model::Place;
use domain_api::{Expr, NoMemory, Order, Values};
use frame_names::{Reference, Var};
use interval_domain::Range;
use number_facts::Numbers;
use number_spans::{Span, less_by, range_but_for, range_within};

/// The type of the items of an array of this place.
fn item_place(place: Place) -> Place
    ensures { result ≡ rule.item_place place }
{
    match place {
        Place::Bools => Place::Bool,
        _ => Place::Int,
    }
}

/// The int32 that an expression may be. None where there is none.
#[tactic(auto, unfolding(crate::specs::Moves::int32_in, number_spans::specs::Stored::range_without))]
fn int32_in(numbers: &Numbers, e: Expr) -> Option<Range>
    requires { IsNamed numbers.now e }
    ensures { result ≡ rule.int32_in (range_of numbers.now e) }
{
    let (lo, hi, hole) = numbers.ends(e);
    let range = range_within(Span { lo, hi, hole: None })?;
    match hole {
        None => Some(range),
        Some(hole) => range_but_for(range, hole),
    }
}

/// Returns whether a number may be 0.
#[tactic(auto, unfolding(number_facts::specs::Gaps::at_most))]
fn may_be_zero(numbers: &Numbers, e: Expr) -> bool
    ensures { result ≡ rule.may_be_zero numbers.now e }
{
    match numbers.gap(0, e.sym) {
        None => true,
        Some(gap) => i128::from(gap) < less_by(1, e.k),
    }
}

impl Known {
    /// The type of a reference. That of reference 0 does not matter.
    pub fn place(&self, r: u32) -> Place
        ensures { result ≡ rule.place_at self.now r }
    {
        match self.reference_at(r) {
            None => Place::Ints,
            Some(reference) => reference.place,
        }
    }

    /// Pushes a number of a range, of which no more is known. False: there is none.
    #[tactic(auto, unfolding(crate::specs::Moves::with_one_of))]
    fn push_one_of(&mut self, range: Range) -> Result<bool, NoMemory>
        ensures reached { IfOk result (λ reached. reached ≡ is_some (rule.with_one_of range self.old)) }
        ensures ok { IfOk result (λ reached. reached ≡ true → rule.with_one_of range self.old ≡ Some self.new) }
        ensures err { OnErr result (self.new ≡ self.old) }
    {
        self.variables.reserve(1)?;
        let Some(e) = self.numbers.fresh(range.lo(), range.hi(), range.hole())? else {
            return Ok(false);
        };
        self.variables.push(Var::Number(e))?;
        Ok(true)
    }

    /// Pushes the item of array r at an index: a number of the segments that may have it. False: nothing is reached.
    ///
    /// Cost: a look at each bound of the reference.
    ///
    /// # Errors
    ///
    /// Want of memory leaves what was known.
    #[tactic(auto, using(array_contents::proofs::FormLaws::formed_each), unfolding(crate::specs::Moves::with_item))]
    pub fn load(&mut self, r: u32, at: Expr) -> Result<bool, NoMemory>
        requires { HasForm self.old }
        ensures reached { IfOk result (λ reached. reached ≡ is_some (rule.with_item r at self.old)) }
        ensures ok { IfOk result (λ reached. reached ≡ true → rule.with_item r at self.old ≡ Some self.new) }
        ensures err { OnErr result (self.new ≡ self.old) }
    {
        let range = self.contents.load(&self.numbers, r, at);
        self.push_one_of(range)
    }

    /// Returns whether another reference may be the same array.
    fn may_be(&self, r: u32, q: u32) -> bool
        ensures { result ≡ rule.may_be self.now r q }
    {
        q != r && !self.is_apart(r, q)
    }

    /// Which of the references from 1 on are others that may be the same array as reference r.
    fn others(&self, r: u32) -> Result<Vec<bool>, NoMemory>
        ensures { IfOk result (λ others. others.items ≡ rule.others self.now r) }
    {
        let next = self.next_reference()?;
        let mut others = Vec::with_capacity(*self.variables.allocator(), self.references.len())?;
        for q in 1..next {
            others.push(self.may_be(r, q))?;
        }
        Ok(others)
    }

    /// Stores a number into array r at an index, as it is. False: nothing is reached.
    #[tactic(auto, unfolding(crate::specs::Moves::with_written))]
    fn write(&mut self, r: u32, at: Expr, value: Expr) -> Result<bool, NoMemory>
        requires form { AllByRecursion HasSegments self.old.contents }
        requires next { at.k <ℤ pos (2 ^ 63 - 1) }
        requires value { IsNamed self.old.facts value }
        ensures reached { IfOk result (λ reached. reached ≡
            is_some (rule.with_written r at self.old (record { expr = value; facts = self.old.facts }))) }
        ensures ok { IfOk result (λ reached. reached ≡ true →
            rule.with_written r at self.old (record { expr = value; facts = self.old.facts }) ≡ Some self.new) }
        ensures err { OnErr result (self.new ≡ self.old) }
    {
        let others = self.others(r)?;
        let Some(range) = int32_in(&self.numbers, value) else {
            return Ok(false);
        };
        let alloc = *self.variables.allocator();
        self.contents
            .store(alloc, &self.numbers, r, at, range, others.as_slice())?;
        Ok(true)
    }

    /// Makes a number of bool, of which no more is known.
    fn make_byte(&mut self) -> Result<Option<Expr>, NoMemory>
        ensures value { IfOk result (λ e. e ≡ expr_made (fresh self.old.facts (pos 0) (pos 255) None [])) }
        ensures known { OnOk result (self.new ≡ record self.old {
          facts = facts_made self.old.facts (fresh self.old.facts (pos 0) (pos 255) None []);
        }) }
        ensures err { OnErr result (self.new ≡ self.old) }
    {
        self.numbers.fresh(0, 255, None)
    }

    /// Stores a number of bool, of which no more is known, into array r at an index. False: nothing is reached.
    ///
    /// Cost: what is known of numbers is copied, and put back where memory runs out.
    fn write_byte(&mut self, r: u32, at: Expr) -> Result<bool, NoMemory>
        requires form { AllByRecursion HasSegments self.old.contents }
        requires next { at.k <ℤ pos (2 ^ 63 - 1) }
        ensures reached { IfOk result (λ reached. reached ≡ is_some
            (option_and_then (rule.with_written r at self.old) (fresh self.old.facts (pos 0) (pos 255) None []))) }
        ensures ok { IfOk result (λ reached. reached ≡ true →
            option_and_then (rule.with_written r at self.old) (fresh self.old.facts (pos 0) (pos 255) None [])
            ≡ Some self.new) }
        ensures err { OnErr result (self.new ≡ self.old) }
    {
        let before = self.numbers.copy(*self.variables.allocator())?;
        let Some(value) = self.make_byte()? else {
            return Ok(false);
        };
        match self.write(r, at, value) {
            Ok(reached) => Ok(reached),
            Err(refused) => {
                self.numbers = before;
                Err(refused)
            }
        }
    }

    /// Returns whether a number is stored into array r as it is. Else a number of bool is made.
    #[tactic(auto, unfolding(crate::specs::Moves::placed))]
    fn stays(&self, r: u32, value: Expr) -> bool
        requires { IsNamed self.now.facts value }
        ensures stays { result ≡ true → rule.placed self.now.facts value (rule.item_place (rule.place_at self.now r))
            ≡ Some (record { expr = value; facts = self.now.facts }) }
        ensures made { result ≡ false → rule.placed self.now.facts value (rule.item_place (rule.place_at self.now r))
            ≡ fresh self.now.facts (pos 0) (pos 255) None [] }
    {
        match item_place(self.place(r)) {
            Place::Bool => is_byte(&self.numbers, value),
            _ => true,
        }
    }

    /// Stores a number into array r at an index: the segments of the reference have it there, and those of each
    /// reference that may be the same array may have it. False: nothing is reached.
    ///
    /// Cost: a test of each reference, and a look at each bound of those that may be the same array. What is known of
    /// numbers is copied where the array is one of bool, and the number may be none of bool.
    ///
    /// # Errors
    ///
    /// Want of memory leaves what was known.
    #[tactic(auto, using(array_contents::proofs::FormLaws::formed_each), unfolding(crate::specs::Moves::with_stored))]
    pub fn store(&mut self, r: u32, at: Expr, value: Expr) -> Result<bool, NoMemory>
        requires form { HasForm self.old }
        requires index { HasNumber self.old at }
        requires value { HasNumber self.old value }
        ensures reached { IfOk result (λ reached. reached ≡ is_some (rule.with_stored r at value self.old)) }
        ensures ok { IfOk result (λ reached. reached ≡ true → rule.with_stored r at value self.old ≡ Some self.new) }
        ensures err { OnErr result (self.new ≡ self.old) }
    {
        if self.stays(r, value) {
            self.write(r, at, value)
        } else {
            self.write_byte(r, at)
        }
    }

    /// Pushes a new array of this type and length in items, all of which are 0. It is not null, and none of the
    /// references that are there.
    ///
    /// # Errors
    ///
    /// Want of memory leaves what was known.
    #[tactic(auto, unfolding(crate::specs::Moves::with_array))]
    pub fn new_array(&mut self, place: Place, length: Expr) -> Result<(), NoMemory>
        ensures ok { OnOk result (self.new ≡ rule.with_array place length self.old) }
        ensures err { OnErr result (self.new ≡ self.old) }
    {
        let r = self.next_reference()?;
        self.variables.reserve(1)?;
        self.references.reserve(1)?;
        self.contents.segments.reserve(1)?;
        let may_be_empty = may_be_zero(&self.numbers, length);
        let zeros = Segs::whole(
            *self.variables.allocator(),
            length,
            Range::constant(0),
            may_be_empty,
        )?;
        self.apart.set_apart_from_earlier(r)?;
        self.contents.segments.push(zeros)?;
        self.references.push(Reference {
            place,
            nullness: Nullness::NotNull,
            length,
        })?;
        self.variables.push(Var::Reference(r))?;
        Ok(())
    }
}
