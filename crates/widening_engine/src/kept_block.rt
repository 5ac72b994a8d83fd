//! What is kept of a block from one round to the next.

ghost use Rattle.std.specs.Prelude.{◌≡◌, ◌↔◌, true, false, unwrap_or, if◌then◌else◌, None, Some, IfOk};
ghost use Rattle.widening_engine.specs.Kept.{IsSettled, IsStepped, TellsChange, join_of, no_block};

use domain_api::{FlowState, NoMemory};
use std::alloc::Global;
use std::mem;

/// The state of a block, and what flowed into it.
#[derive(Drop)]
pub(crate) struct KeptBlock<S> {
    /// The state.
    pub state: S,
    /// What flowed into the block, joined. None where that is its state.
    pub join: Option<S>,
    /// A widening of the state by the join is known to give the state.
    pub settled: bool,
}

impl<S: FlowState + Drop> KeptBlock<S> {
    /// A block that is not reached.
    pub(crate) fn unreached() -> KeptBlock<S>
        ensures { result ≡ no_block S.nothing }
    {
        KeptBlock {
            state: S::nothing(),
            join: None,
            settled: false,
        }
    }

    /// What flowed into the block, joined.
    fn joined(&self) -> &S
        ensures { result.now ≡ join_of self.now }
    {
        match &self.join {
            Some(join) => join,
            None => &self.state,
        }
    }

    /// Takes what flows into the block now, if it was joined anew.
    fn take_join(&mut self, fresh: Option<S>)
        ensures join { join_of self.new ≡ unwrap_or fresh (join_of self.old) }
        ensures state { self.new.state ≡ self.old.state }
        ensures settled { IsSettled S.widen self.old → IsSettled S.widen self.new }
    {
        let Some(join) = fresh else {
            return;
        };
        if !self.joined().same(&join) {
            self.join = Some(join);
            self.settled = false;
        }
    }

    /// Takes the state, and tells whether it is another one than before.
    pub(crate) fn take_state(&mut self, state: S) -> bool
        ensures state { self.new.state ≡ state }
        ensures join { join_of self.new ≡ join_of self.old }
        ensures settled { IsSettled S.widen self.old → IsSettled S.widen self.new }
        ensures changed { TellsChange self.old.state self.new.state result }
    {
        if self.state.same(&state) {
            return false;
        }
        let before = mem::replace(&mut self.state, state);
        if self.join.is_none() {
            self.join = Some(before);
        }
        self.settled = false;
        true
    }

    /// Sets the block's state to the join of what flows into it.
    fn become_join(&mut self) -> bool
        ensures state { self.new.state ≡ join_of self.old }
        ensures join { join_of self.new ≡ join_of self.old }
        ensures settled { IsSettled S.widen self.old → IsSettled S.widen self.new }
        ensures changed { TellsChange self.old.state self.new.state result }
    {
        let Some(join) = self.join.take() else {
            return false;
        };
        let changed = !self.state.same(&join);
        self.state = join;
        self.settled = false;
        changed
    }

    /// Widens the state by what flows into the block, if it is not known to be what comes of that.
    fn widen(&mut self, alloc: Global) -> Result<bool, NoMemory>
        requires like { S.like self.old.state (join_of self.old) }
        requires settled { IsSettled S.widen self.old }
        ensures { IfOk result (IsStepped S.widen true None self.old self.new) }
    {
        if self.settled {
            return Ok(false);
        }
        let widened = self.state.widen(alloc, self.joined())?;
        let changed = self.take_state(widened);
        self.settled = !changed;
        Ok(changed)
    }

    /// Goes on to the next state, and tells whether it is another one: what flows into the block, or the widening of
    /// the old state by that. `fresh` is what flows into it, where that was joined anew.
    pub(crate) fn step(
        &mut self,
        alloc: Global,
        widens: bool,
        fresh: Option<S>,
    ) -> Result<bool, NoMemory>
        requires like { S.like self.old.state (unwrap_or fresh (join_of self.old)) }
        requires settled { IsSettled S.widen self.old }
        ensures { IfOk result (IsStepped S.widen widens fresh self.old self.new) }
    {
        self.take_join(fresh);
        if widens {
            return self.widen(alloc);
        }
        Ok(self.become_join())
    }
}
