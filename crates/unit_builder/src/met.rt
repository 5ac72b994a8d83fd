//! Methods in the order in which they are met.

ghost use Rattle.std.specs.Prelude.{◌≡◌, ℕ, ◌+◌, ◌-◌, ◌<◌, ◌≤◌, ◌^◌, [], length, map, slice_index, IfOk, OnOk, Some};
ghost use Rattle.std.specs.List.{AllByRecursion};
ghost use Rattle.cc_base.specs.declared.token.Token.{Token};
ghost use Rattle.unit_builder.specs.Met.{all_met, first_method, met, place_in, IsAmong};

use cc_base::Token;
use std::alloc::{AllocError, Global};
use std::marker::Model;

/// The token of the first method of an assembly. The tokens of the others follow it.
pub(crate) const FIRST_METHOD: u32 = 0x0600_0001;

/// The index of a method of an assembly, counted from 0.
pub(crate) fn index_of(token: Token) -> usize
    requires from { first_method ≤ token.0 }
    ensures value { result ≡ token.0 - first_method }
    ensures small { token.0 < 2 ^ 32 }
{
    (token.0 - FIRST_METHOD) as usize
}

/// Methods of an assembly in the order in which they were met, each once. Contracts see their tokens, and how many
/// methods the assembly has.
#[derive(Drop)]
pub(crate) struct Met {
    order: Vec<Token>,
    /// For each method of the assembly its list index in the order plus 1, or 0.
    places: Vec<u32>,
}

impl Model for Met {
    ghost use Rattle.std.specs.Prelude.{List, ℕ, length, map};
    ghost use Rattle.unit_builder.specs.Met.{Order, TellsPlaces};

    ghost Value = { Order };

    ghost view = { λ m. record { count = length m.places.items; tokens = map (λ token. token.0) m.order.items } };

    ghost invariant = { λ m. TellsPlaces m.places.items (map (λ token. token.0) m.order.items) };
}

impl Met {
    /// No method of an assembly that has so many.
    pub(crate) fn none(alloc: Global, count: usize) -> Result<Met, AllocError>
        requires short { first_method + count ≤ 2 ^ 32 }
        ensures { IfOk result (λ met. met ≡ record { count = count; tokens = [] }) }
    {
        Ok(Met {
            order: Vec::new(alloc),
            places: vec![in alloc; 0; count]?,
        })
    }

    /// Returns how many were met.
    pub(crate) fn len(&self) -> usize
        ensures value { result ≡ length self.now.tokens }
        ensures few { result ≤ self.now.count }
    {
        self.order.len()
    }

    /// Their tokens.
    pub(crate) fn tokens(&self) -> &[Token]
        ensures value { map (λ token. token.0) result.now ≡ self.now.tokens }
        ensures among { (place : ℕ) → place < length self.now.tokens → IsAmong self.now.count (slice_index self.now.tokens place) }
        ensures each { (place : ℕ) → place < length self.now.tokens → place_in self.now.tokens (slice_index self.now.tokens place) ≡ Some place }
    {
        &self.order
    }

    /// Returns the list index of a method in the order, None where it was not met.
    pub(crate) fn place(&self, token: Token) -> Option<u32>
        ensures { result ≡ place_in self.now.tokens token.0 }
    {
        let places = self.places.as_slice();
        let index = token.0.checked_sub(FIRST_METHOD)?;
        places.get(index as usize)?.checked_sub(1)
    }

    /// Meets a method: it comes after the others, unless it was met before.
    pub(crate) fn meet(&mut self, token: Token) -> Result<(), AllocError>
        requires among { IsAmong self.old.count token.0 }
        ensures { OnOk result (self.new ≡ record self.old { tokens = met self.old.tokens token.0 }) }
    {
        let index = index_of(token);
        if self.places[index] == 0 {
            self.order.push(token)?;
            self.places[index] = self.order.len() as u32;
        }
        Ok(())
    }

    /// Meets some methods, one after another.
    pub(crate) fn meet_all(&mut self, tokens: &[Token]) -> Result<(), AllocError>
        requires among { AllByRecursion (λ token. IsAmong self.old.count token.0) tokens.now }
        ensures { OnOk result (self.new ≡ record self.old { tokens = all_met self.old.tokens (map (λ token. token.0) tokens.now) }) }
    {
        for token in tokens {
            self.meet(*token)?;
        }
        Ok(())
    }
}
