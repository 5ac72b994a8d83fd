//! The rules, by the keywords of cases.

use abs_state::AbsState;
use rule_text::{Failure, Line, Rules};
use state_text::state;
use std::alloc::Global;

/// The state of a case that is run.
#[derive(Drop)]
pub struct AbsRules {
    alloc: Global,
    /// What its steps made of the state before them.
    state: AbsState,
}

impl AbsRules {
    /// Asks what a rule tells.
    fn ask(&self, keyword: &str, argument: &str) -> Result<(), Failure> {
        let (alloc, state) = (self.alloc, &self.state);
        match keyword {
            "made" => state_answers::made(alloc, argument),
            "refused" => state_answers::refused(alloc, argument),
            "after" => state_answers::after(alloc, state, argument),
            "differs" => state_answers::differs(alloc, state, argument),
            "leq" => state_answers::leq(alloc, state, argument),
            "ends" => state_answers::ends(alloc, state, argument),
            "exact" => state_answers::exact(alloc, state, argument),
            "gap" => state_answers::gap(alloc, state, argument),
            "nullness" => state_answers::nullness(alloc, state, argument),
            "length" => state_answers::length(alloc, state, argument),
            "variable" => state_answers::variable(alloc, state, argument),
            _ => Err(Failure::Unread("a keyword")),
        }
    }

    /// Takes a step, if the keyword is that of one.
    fn step(&mut self, keyword: &str, argument: &str) -> Result<bool, Failure> {
        let (alloc, state) = (self.alloc, &mut self.state);
        match keyword {
            "push" => state_steps::push(alloc, state, argument)?,
            "pop" => state.pop()?,
            "put" => state_steps::put(alloc, state, argument)?,
            "arith" => state_steps::arith(alloc, state, argument)?,
            "compare" => state_steps::compare(alloc, state, argument)?,
            "assume" => state_steps::assume(alloc, state, argument, true)?,
            "assume-not" => state_steps::assume(alloc, state, argument, false)?,
            "load" => state_steps::load(alloc, state, argument)?,
            "store" => state_steps::store(alloc, state, argument)?,
            "load-at" => state_steps::load_at(alloc, state, argument)?,
            "store-at" => state_steps::store_at(alloc, state, argument)?,
            "new-array" => state_steps::new_array(alloc, state, argument)?,
            "forget" => state_steps::forget(alloc, state, argument)?,
            "norm" => *state = state.norm(alloc)?,
            "join" => *state = state_steps::join(alloc, state, argument)?,
            "widen" => *state = state_steps::widen(alloc, state, argument)?,
            _ => return Ok(false),
        }
        Ok(true)
    }
}

impl Rules for AbsRules {
    fn new(alloc: Global) -> AbsRules {
        AbsRules {
            alloc,
            state: AbsState::nothing(),
        }
    }

    fn take(&mut self, keyword: &str, argument: &str) -> Result<Line, Failure> {
        if keyword == "before" {
            self.state = state(self.alloc, argument)?;
            return Ok(Line::Begin);
        }
        if self.step(keyword, argument)? {
            return Ok(Line::Step);
        }
        self.ask(keyword, argument)?;
        Ok(Line::Answer)
    }
}
