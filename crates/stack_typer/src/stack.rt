//! Stacks of kinds.

ghost use Rattle.std.specs.Prelude.{◌≡◌, ◌<◌, [], ◌∷◌, length, reverse, take, drop, Some, IfOk, OnOk, MatchOption, is_some, false, true};
ghost use Rattle.std.specs.Option.{option_or};
ghost use Rattle.cil_model.specs.Kinds.{take_each};
ghost use Rattle.cil_model.specs.Passes.{merged};
ghost use Rattle.stack_typer.specs.Room.{nulls};

use crate::merging::{merge_into, merges};
use crate::operands::take_each;
use cil_model::{Kind, Place};
use std::alloc::{AllocError, Global};
use std::marker::Model;

/// The kinds of the values on a stack. Contracts see the list of them, the top first.
#[derive(Drop)]
pub struct Stack {
    /// The bottom comes first, so that a push moves nothing.
    kinds: Vec<Kind>,
}

impl Model for Stack {
    ghost use Rattle.std.specs.Prelude.{List, reverse};
    ghost use Rattle.cil_model.specs.declared.place.Kind.{Kind};

    ghost Value = { List Kind };

    ghost view = { λ s. reverse s.kinds.items };
}

impl Stack {
    /// The empty stack. It takes no memory.
    pub fn new(alloc: Global) -> Stack
        ensures { result ≡ [] }
    {
        Stack {
            kinds: Vec::new(alloc),
        }
    }

    pub fn len(&self) -> usize
        ensures { result ≡ length self.now }
    {
        self.kinds.len()
    }

    /// The kinds, the bottom first.
    pub fn as_slice(&self) -> &[Kind]
        ensures { reverse result.now ≡ self.now }
    {
        self.kinds.as_slice()
    }

    pub fn push(&mut self, kind: Kind) -> Result<(), AllocError>
        ensures { OnOk result (self.new ≡ kind ∷ self.old) }
    {
        self.kinds.push(kind)?;
        Ok(())
    }

    /// Takes the top, if there is one.
    pub fn pop(&mut self) -> Option<Kind>
        ensures { MatchOption result ((self.old ≡ []) × (self.new ≡ [])) (λ kind. self.old ≡ kind ∷ self.new) }
    {
        self.kinds.pop()
    }

    /// Takes so many from the top, or all.
    #[tactic(auto, using(crate::proofs::TurnedLemmas::rest_turned))]
    pub fn pop_many(&mut self, count: usize)
        ensures { self.new ≡ drop count self.old }
    {
        let rest = self.kinds.len().saturating_sub(count);
        self.kinds.truncate(rest);
    }

    /// Returns whether parameters of these places take the topmost values, the last of them the top.
    pub fn fits(&self, places: &[Place]) -> bool
        ensures { result ≡ take_each places.now (reverse (take (length places.now) self.now)) }
    {
        let rest = self.kinds.len().saturating_sub(places.len());
        take_each(places, &self.kinds[rest..])
    }

    /// Makes this stack the same as another one.
    pub fn copy_from(&mut self, other: &Stack) -> Result<(), AllocError>
        ensures { OnOk result (self.new ≡ other.now) }
    {
        self.kinds.clear();
        self.kinds.extend_from_slice(other.as_slice())
    }

    /// A stack of its own with the same kinds.
    pub fn copied(&self) -> Result<Stack, AllocError>
        ensures { IfOk result (λ stack. stack ≡ self.now) }
    {
        Ok(Stack {
            kinds: self.kinds.clone()?,
        })
    }

    /// Returns whether the two stacks merge.
    #[tactic(auto, using(crate::proofs::TurnedLemmas::merges_turned))]
    pub fn merges_with(&self, other: &Stack) -> bool
        ensures { result ≡ is_some (merged self.now other.now) }
    {
        merges(&self.kinds, &other.kinds)
    }

    /// Merges another stack into this one, where they merge, and says whether a kind changed.
    pub fn merge(&mut self, other: &Stack) -> bool
        ensures stack { Some self.new ≡ option_or (merged self.old other.now) (Some self.old) }
        ensures same { result ≡ false → self.new ≡ self.old }
        ensures fewer { result ≡ true → nulls self.new < nulls self.old }
    {
        merge_into(&mut self.kinds, &other.kinds)
    }
}
