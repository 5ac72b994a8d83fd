//! What is known of a point, where something is reached.

ghost use Rattle.std.specs.Prelude.{◌≡◌, ◌≢◌, ◌+◌, ◌≤◌, ◌<◌, length, slice_get, Some, IfOk, OnOk, OnErr};
ghost use Rattle.state_facts.specs.StateFacts as rule;

use alias_facts::{Apart, Nullness};
use array_contents::Contents;
use cil_model::Place;
use domain_api::{Expr, NoMemory};
use frame_names::{Reference, Var};
use number_facts::Numbers;
use std::alloc::{AllocError, Global};
use std::marker::Model;

/// What is known of a point, where something is reached. Symbols and references that no variable has any more stay
/// until the normal form is taken.
#[derive(Drop)]
pub struct Known {
    /// What each variable has: the arguments at the entry, the arguments, the locals, the stack from the bottom.
    pub variables: Vec<Var>,
    /// What is known of symbols, of which expressions speak.
    pub numbers: Numbers,
    /// What is known of each reference, that of reference r at place r - 1.
    pub references: Vec<Reference>,
    /// Which references are known not to be the same array.
    pub apart: Apart,
    /// What is known of the items of each reference, that of reference r at place r - 1.
    pub contents: Contents,
}

impl Model for Known {
    ghost use Rattle.state_facts.specs.StateFacts.{StateFacts};

    ghost Value = { StateFacts };

    ghost view = { λ k. record {
      variables = k.variables.items;
      facts = k.numbers;
      references = k.references.items;
      apart = k.apart;
      contents = k.contents;
    } };
}

impl Known {
    /// The same again. Costs one pass over all lists.
    ///
    /// # Errors
    ///
    /// Want of memory.
    pub fn copy(&self, alloc: Global) -> Result<Known, NoMemory>
        ensures { IfOk result (λ again. again ≡ self.now) }
    {
        Ok(Known {
            variables: Vec::from_slice(alloc, self.variables.as_slice())?,
            numbers: self.numbers.copy(alloc)?,
            references: Vec::from_slice(alloc, self.references.as_slice())?,
            apart: self.apart.copy(alloc)?,
            contents: self.contents.copy(alloc)?,
        })
    }

    /// What is known of a reference. None for reference 0, which is null.
    #[tactic(auto, unfolding(crate::specs::StateFacts::reference_at))]
    pub fn reference_at(&self, r: u32) -> Option<Reference>
        ensures { result ≡ rule.reference_at self.now.references r }
    {
        if r == 0 {
            return None;
        }
        self.references.get(r as usize - 1).copied()
    }

    /// What is known of whether reference r is null. Reference 0 is, and so is one that is not there.
    pub fn nullness(&self, r: u32) -> Nullness
        ensures { result ≡ rule.nullness_at self.now r }
    {
        match self.reference_at(r) {
            None => Nullness::Null,
            Some(reference) => reference.nullness,
        }
    }

    /// The length of the array that reference r is, in items. That of reference 0, and of one that is not there, is 0.
    pub fn length(&self, r: u32) -> Expr
        ensures { result ≡ rule.length_at self.now r }
    {
        match self.reference_at(r) {
            None => Expr { sym: 0, k: 0 },
            Some(reference) => reference.length,
        }
    }

    /// Returns whether two references have the same type, or one is reference 0.
    fn is_of_same_place(&self, r: u32, q: u32) -> bool
        ensures { result ≡ rule.of_same_place self.now r q }
    {
        match (self.reference_at(r), self.reference_at(q)) {
            (Some(a), Some(b)) => a.place == b.place,
            _ => true,
        }
    }

    /// Returns whether two references are known not to be the same array.
    #[tactic(auto, unfolding(crate::specs::StateFacts::are_apart))]
    pub(crate) fn is_apart(&self, r: u32, q: u32) -> bool
        ensures { result ≡ rule.are_apart self.now r q }
    {
        let same_place = self.is_of_same_place(r, q);
        self.apart
            .cannot_be_same(r, q, same_place, self.nullness(r), self.nullness(q))
    }

    /// The number that the next reference gets. Want of memory where there are as many references as a `u32` counts.
    pub(crate) fn next_reference(&self) -> Result<u32, NoMemory>
        ensures { IfOk result (λ r. r ≡ length self.now.references + 1) }
    {
        u32::try_from(self.references.len() + 1).map_err(|_| AllocError)
    }
}
