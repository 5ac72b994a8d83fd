//! What a call leaves.

ghost use Rattle.std.specs.Prelude.{◌≡◌, ◌≤◌, ◌+◌, ◌++◌, ◌∷◌, [], true, length, map, IfOk, OnOk, OnErr, Some, is_some};
ghost use Rattle.std.specs.List.{range_with_len};
ghost use Rattle.state_facts.specs.Calls as rule;

use crate::known::Known;
use alias_facts::{Apart, Nullness};
use array_contents::Unknown;
use cil_model::Place;
use domain_api::{Expr, NoMemory, Values};
use frame_names::{Reference, Var};
use interval_domain::Range;

/// All that an item of an array of this place may be.
#[tactic(auto, using(crate::proofs::ArrayItems::hull_of_bytes))]
fn items_of(place: Place) -> Range
    ensures { result ≡ rule.items_of place }
{
    match place {
        Place::Bools => Range::constant(0).hull(&Range::constant(255)),
        _ => Range::full(),
    }
}

impl Known {
    /// Returns whether a reference is known not to be the array that is passed, if one is.
    fn is_apart_from(&self, q: u32, passed: &Var) -> bool
        ensures { result ≡ rule.apart_from self.now q passed.now }
    {
        match passed {
            Var::Reference(r) => self.is_apart(q, *r),
            Var::Number(_) | Var::Text | Var::Address(..) => true,
        }
    }

    /// Returns whether a reference is known to be none of the arrays that are passed.
    fn is_apart_from_all(&self, q: u32, passed: &[Var]) -> bool
        ensures { result ≡ rule.apart_from_all self.now passed.now q }
    {
        passed.iter().all(|v| self.is_apart_from(q, v))
    }

    /// The pairs of references that are not the same array, where the result of a call gets the next number: it is an
    /// array that was passed, or a new one.
    ///
    /// Cost: each reference is compared with each that is passed.
    #[tactic(auto, using(crate::proofs::Searching::apart_one_more, crate::proofs::Searching::apart_no_more))]
    fn apart_with_result(&self, passed: &[Var]) -> Result<Apart, NoMemory>
        ensures { IfOk result (λ apart. apart ≡
            rule.apart_with (rule.apart_from_all self.now passed.now) (length self.now.references + 1)
            (length self.now.references) self.now.apart) }
    {
        let result = self.next_reference()?;
        let mut apart = self.apart.copy(*self.variables.allocator())?;
        for q in 1..result {
            if self.is_apart_from_all(q, passed) {
                apart.set_apart(result, q)?;
            }
        }
        Ok(apart)
    }

    /// Of each reference, from reference 1 on, whether it may have been changed by a call to which these were passed.
    fn changed(&self, passed: &[Var]) -> Result<Vec<Option<Unknown>>, NoMemory>
        ensures { IfOk result (λ changed. changed.items ≡
            map (rule.changed_at self.now passed.now) (range_with_len 1 (length self.now.references))) }
    {
        let next = self.next_reference()?;
        let mut changed = Vec::with_capacity(*self.variables.allocator(), self.references.len())?;
        for q in 1..next {
            changed.push(self.changed_at(q, passed))?;
        }
        Ok(changed)
    }

    /// Of a reference that may have been changed its length, and all that its items may be.
    fn changed_at(&self, q: u32, passed: &[Var]) -> Option<Unknown>
        ensures { result ≡ rule.changed_at self.now passed.now q }
    {
        if self.is_apart_from_all(q, passed) {
            return None;
        }
        let reference = self.reference_at(q)?;
        Some(Unknown {
            length: reference.length,
            items: items_of(reference.place),
        })
    }

    /// Makes a reference to an array of which only its length and its place are known, where these pairs are apart.
    /// Pushes what names it.
    pub(crate) fn push_naming(
        &mut self,
        apart: Apart,
        place: Place,
        length: Expr,
        naming: Var,
    ) -> Result<(), NoMemory>
        ensures ok { OnOk result (self.new ≡ record (rule.returned apart place self.old
            (record { expr = length; facts = self.old.facts })) { variables = self.old.variables ++ naming ∷ [] }) }
        ensures err { OnErr result (self.new ≡ self.old) }
    {
        self.variables.reserve(1)?;
        self.references.reserve(1)?;
        self.contents
            .push(*self.variables.allocator(), length, items_of(place), true)?;
        self.references.push(Reference {
            place,
            nullness: Nullness::May,
            length,
        })?;
        self.variables.push(naming)?;
        self.apart = apart;
        Ok(())
    }

    /// Pushes an array that a call gives. False: nothing is reached.
    ///
    /// Cost: what is known of numbers is copied, and put back where memory runs out.
    #[tactic(auto, unfolding(crate::specs::Calls::with_returned))]
    pub(crate) fn push_returned(&mut self, apart: Apart, place: Place) -> Result<bool, NoMemory>
        ensures reached { IfOk result (λ reached. reached ≡ is_some (rule.with_returned apart place self.old)) }
        ensures ok { IfOk result (λ reached. reached ≡ true → rule.with_returned apart place self.old ≡ Some self.new) }
        ensures err { OnErr result (self.new ≡ self.old) }
    {
        let r = self.next_reference()?;
        let before = self.numbers.copy(*self.variables.allocator())?;
        let Some(length) = self.numbers.fresh(0, 2_147_483_647, None)? else {
            return Ok(false);
        };
        match self.push_naming(apart, place, length, Var::Reference(r)) {
            Ok(()) => Ok(true),
            Err(refused) => {
                self.numbers = before;
                Err(refused)
            }
        }
    }

    /// Pushes what a call gives, unless it gives nothing. False: nothing is reached.
    #[tactic(auto, unfolding(crate::specs::Calls::with_result))]
    fn push_result(&mut self, first: usize, args: usize, place: Place) -> Result<bool, NoMemory>
        requires { first + args ≤ length self.old.variables }
        ensures reached { IfOk result (λ reached. reached ≡ is_some (rule.with_result first args place self.old)) }
        ensures ok { IfOk result (λ reached. reached ≡ true →
            rule.with_result first args place self.old ≡ Some self.new) }
        ensures err { OnErr result (self.new ≡ self.old) }
    {
        match place {
            Place::Void => Ok(true),
            Place::Bool => self.push_number(0, 255),
            Place::Int => self.push_number(i64::from(i32::MIN), i64::from(i32::MAX)),
            Place::Bools | Place::Ints => {
                let passed = &self.variables[first..first + args];
                let apart = self.apart_with_result(passed)?;
                self.push_returned(apart, place)
            }
        }
    }

    /// Forgets the items of arrays that may be among those that are passed. Want of memory leaves what was known.
    fn forget_items(&mut self, first: usize, args: usize) -> Result<(), NoMemory>
        requires { first + args ≤ length self.old.variables }
        ensures ok { OnOk result (self.new ≡ rule.without_items (rule.passed first args self.old) self.old) }
        ensures err { OnErr result (self.new ≡ self.old) }
    {
        let changed = self.changed(&self.variables[first..first + args])?;
        self.contents
            .forget(*self.variables.allocator(), changed.as_slice())
    }

    /// What a call leaves to which so many variables were passed, from the first one on, counted from 0. Arrays that it
    /// may have been given may have been changed. It pushes what the call gives: a value of this type, or nothing.
    /// False: nothing is reached.
    ///
    /// Cost: each reference is compared with each that is passed. What is known of items is copied, and put back where
    /// memory runs out.
    ///
    /// # Errors
    ///
    /// Want of memory leaves what was known.
    #[tactic(auto, unfolding(crate::specs::Calls::with_call))]
    pub fn forget(&mut self, first: usize, args: usize, place: Place) -> Result<bool, NoMemory>
        requires { first + args ≤ length self.old.variables }
        ensures reached { IfOk result (λ reached. reached ≡ is_some (rule.with_call first args place self.old)) }
        ensures ok { IfOk result (λ reached. reached ≡ true →
            rule.with_call first args place self.old ≡ Some self.new) }
        ensures err { OnErr result (self.new ≡ self.old) }
    {
        let before = self.contents.copy(*self.variables.allocator())?;
        self.forget_items(first, args)?;
        match self.push_result(first, args, place) {
            Ok(reached) => Ok(reached),
            Err(refused) => {
                self.contents = before;
                Err(refused)
            }
        }
    }
}
