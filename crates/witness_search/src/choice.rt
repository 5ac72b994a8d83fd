//! Choices of one value for each parameter.

ghost use Rattle.std.specs.Prelude.{◌≡◌, nat_lt, IfOk, map};
ghost use Rattle.witness_search.specs.ListsLeft.{AreChosen, IsMade, IsNextOf, begun, next_of, value_of, values_in, went_on};

use cil_model::{Arg, List};
use std::alloc::{AllocError, Global};

/// The values of a parameter, and the one of them that is chosen.
#[derive(Drop)]
pub(crate) struct Choice {
    pub values: List<Arg>,
    /// The index of the value that is chosen.
    pub chosen: usize,
}

impl Choice {
    /// The choice of the first of these values.
    pub fn begin(values: Vec<Arg>) -> Choice
        ensures { result ≡ begun values.items }
    {
        Choice {
            values: List::from_vec(values),
            chosen: 0,
        }
    }

    /// The index of the value after the one that is chosen. After the last value comes the first.
    fn next(&self) -> usize
        requires { IsMade self.now }
        ensures { result ≡ next_of self.now }
    {
        let count = self.values.as_slice().len();
        if self.chosen + 1 < count {
            self.chosen + 1
        } else {
            0
        }
    }

    /// A copy of the value after the one that is chosen.
    fn copy_next(&self, alloc: Global) -> Result<Arg, AllocError>
        requires { IsMade self.now }
        ensures { IfOk result (λ copy. copy ≡ value_of (went_on self.now)) }
    {
        copy_of(alloc, &self.values.as_slice()[self.next()])
    }

    /// Chooses the next value, and returns whether it comes later.
    fn go_on(&mut self) -> bool
        requires { IsMade self.old }
        ensures next { self.new ≡ went_on self.old }
        ensures later { result ≡ nat_lt 0 self.new.chosen }
    {
        self.chosen = self.next();
        0 < self.chosen
    }
}

/// A copy of an argument.
pub(crate) fn copy_of(alloc: Global, arg: &Arg) -> Result<Arg, AllocError>
    ensures { IfOk result (λ copy. copy ≡ arg.now) }
{
    Ok(match arg {
        Arg::Int(n) => Arg::Int(*n),
        Arg::Bool(b) => Arg::Bool(*b),
        Arg::Null => Arg::Null,
        Arg::Ints(items) => Arg::Ints(items.copy(alloc)?),
        Arg::Bools(items) => Arg::Bools(items.copy(alloc)?),
        Arg::Same(k) => Arg::Same(*k),
    })
}

/// Goes on to the next list, and returns whether there is one. After the last list comes the first one again.
#[tactic(auto, using(crate::proofs::ChoiceLemmas::nothing_to_choose, crate::proofs::ChoiceLemmas::after_others, crate::proofs::ChoiceLemmas::first_goes_on))]
pub(crate) fn go_on(
    alloc: Global,
    choices: &mut [Choice],
    args: &mut [Arg],
) -> Result<bool, AllocError>
    requires chosen { AreChosen choices.old args.old }
    ensures chosen { AreChosen choices.new args.new }
    ensures values { map values_in choices.new ≡ map values_in choices.old }
    ensures next { IfOk result (IsNextOf choices.old choices.new) }
{
    let Some((choice, others)) = choices.split_first_mut() else {
        return Ok(false);
    };
    let Some((arg, rest)) = args.split_first_mut() else {
        return Ok(false);
    };
    if go_on(alloc, others, rest)? {
        return Ok(true);
    }
    *arg = choice.copy_next(alloc)?;
    Ok(choice.go_on())
}
