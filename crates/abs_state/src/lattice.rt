//! Join, widening, normal form and inclusion of states.

ghost use Rattle.std.specs.Prelude.{◌≡◌, IfOk};
ghost use Rattle.state_facts.specs.Holds.{HoldsAt};
ghost use Rattle.merged_states.specs.Merging as states;
ghost use Rattle.merged_states.specs.Alike.{AreLikeStates};
ghost use Rattle.merged_states.specs.Inclusion.{is_included};
ghost use Rattle.merged_states.specs.Rules.{rule_of};
ghost use Rattle.merged_states.specs.Laws.StatesHold as laws;

use crate::state::AbsState;
use domain_api::{Lattice, NoMemory};
use machine_points::Point;
use merged_states::{Merging, includes, merged, named};
use std::alloc::Global;

impl AbsState {
    /// Two states as one. Where one is not reached it is the other.
    fn merged(&self, alloc: Global, rule: Merging, other: &AbsState) -> Result<AbsState, NoMemory>
        requires { AreLikeStates self.now other.now }
        ensures { IfOk result (λ merged. merged ≡ states.merged (rule_of rule) self.now other.now) }
    {
        match (&self.known, &other.known) {
            (None, _) => other.copy(alloc),
            (_, None) => self.copy(alloc),
            (Some(a), Some(b)) => {
                let both = merged(alloc, rule, a, b)?;
                AbsState::of_known(alloc, both)
            }
        }
    }

    /// The normal form: what is known of variables, and of the references and lengths of these, in the names of first
    /// uses. Where no values of the machine are such, nothing is reached.
    ///
    /// Cost: that of naming, a pass over the bounds for each symbol that has a name, and a look at each two references
    /// that have one.
    pub fn norm(&self, alloc: Global) -> Result<AbsState, NoMemory>
        ensures value { IfOk result (λ normal. normal ≡ states.normal self.now) }
        ensures keeps { IfOk result (λ normal. (p : Point) → HoldsAt self.now p → HoldsAt normal p) }
    {
        match &self.known {
            None => Ok(AbsState::nothing()),
            Some(known) => {
                let normal = named(alloc, known)?;
                AbsState::of_known(alloc, normal)
            }
        }
    }
}

impl Lattice for AbsState {
    type Point = Point;

    ghost holds = { HoldsAt };

    ghost like = { AreLikeStates };

    ghost join = { states.join };

    ghost widen = { states.widen };

    ghost leq = { is_included };

    fn join(&self, alloc: Global, other: &AbsState) -> Result<AbsState, NoMemory> {
        self.merged(alloc, Merging::Join, other)
    }

    fn widen(&self, alloc: Global, other: &AbsState) -> Result<AbsState, NoMemory> {
        self.merged(alloc, Merging::Widening, other)
    }

    fn leq(&self, alloc: Global, other: &AbsState) -> Result<bool, NoMemory> {
        match (&self.known, &other.known) {
            (None, _) => Ok(true),
            (_, None) => Ok(false),
            (Some(a), Some(b)) => includes(alloc, a, b),
        }
    }

    ghost join_left = { laws.join_left };

    ghost join_right = { laws.join_right };

    ghost widen_left = { laws.widen_left };

    ghost widen_right = { laws.widen_right };

    ghost leq_holds = { laws.leq_holds };
}
