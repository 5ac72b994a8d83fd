//! The argument lists of a method, one after another.
//!
//! The lists are counted, and never held; their model is the list of all that are left. One machine serves all runs.

ghost use Rattle.std.specs.Prelude.{◌≡◌, ◌≤◌, IfOk, IfSome, OnOk, drop, length, option_map, slice_get};
ghost use Rattle.cil_model.specs.Limits.{MAX_VARIABLES};
ghost use Rattle.cil_model.specs.WellFormed.{HoldValues};
ghost use Rattle.witness_search.specs.Choices.{argument_lists};

use crate::choice::{Choice, copy_of, go_on};
use crate::values::values_of;
use cil_model::{Arg, List, Place};
use std::alloc::{AllocError, Global};
use std::marker::Model;

/// Argument lists of a method, of which one is there at a time.
#[derive(Drop)]
pub(crate) struct ArgumentLists {
    choices: Vec<Choice>,
    /// The list that is there.
    args: Vec<Arg>,
    /// Whether no list is left.
    done: bool,
}

impl Model for ArgumentLists {
    ghost use Rattle.std.specs.Prelude.{◌≡◌, false, List};
    ghost use Rattle.cil_model.specs.declared.arg.Arg.{Arg};

    ghost Value = { List (List Arg) };

    ghost use Rattle.witness_search.specs.ListsLeft.{AreChosen, lists_left};

    ghost view = { λ l. lists_left l.done l.choices.items };

    ghost invariant = { λ l. l.done ≡ false → AreChosen l.choices.items l.args.items };
}

impl ArgumentLists {
    /// All argument lists of a method whose parameters have these types.
    #[tactic(auto, using(crate::proofs::ListLemmas::some_values, crate::proofs::ListLemmas::chosen_more, crate::proofs::ListLemmas::begun_more, crate::proofs::ListLemmas::begun_lists))]
    pub fn make(alloc: Global, types: &[Place]) -> Result<ArgumentLists, AllocError>
        requires values { HoldValues types.now }
        requires few { length types.now ≤ MAX_VARIABLES }
        ensures { IfOk result (λ lists. lists ≡ argument_lists types.now) }
    {
        let mut choices = Vec::with_capacity(alloc, types.len())?;
        let mut args = Vec::with_capacity(alloc, types.len())?;
        for (k, place) in types.iter().enumerate() {
            let values = values_of(alloc, &types[..k], *place)?;
            args.push(copy_of(alloc, &values[0])?)?;
            choices.push(Choice::begin(values))?;
        }
        Ok(ArgumentLists {
            choices,
            args,
            done: false,
        })
    }

    /// The first list that is left.
    #[tactic(auto, using(crate::proofs::ListLemmas::first_left))]
    pub fn first(&self) -> Option<&[Arg]>
        ensures { option_map (λ args. args.now) result ≡ slice_get self.now 0 }
    {
        if self.done {
            return None;
        }
        Some(self.args.as_slice())
    }

    /// Leaves the lists after the first.
    #[tactic(auto, using(crate::proofs::ListLemmas::left_after))]
    pub fn go_on(&mut self, alloc: Global) -> Result<(), AllocError>
        ensures { OnOk result (self.new ≡ drop 1 self.old) }
    {
        if !self.done {
            self.done = !go_on(alloc, &mut self.choices, &mut self.args)?;
        }
        Ok(())
    }

    /// The first list that is left.
    #[tactic(auto, using(crate::proofs::ListLemmas::first_is))]
    pub fn into_first(self) -> List<Arg>
        ensures { IfSome (slice_get self 0) (λ first. result ≡ first) }
    {
        List::from_vec(self.args)
    }
}
