//! The rules, by the keywords of cases.

use crate::{condition_rules, tree_rules};
use abs_state::AbsState;
use clause_trees::TreeEnv;
use rule_text::{Failure, Line, Rules};
use state_text::{state, state_text};
use std::alloc::Global;

/// The state of a case that is run.
#[derive(Drop)]
pub struct TreeRules {
    alloc: Global,
    /// What its steps made of the state before them.
    state: AbsState,
    /// Where trees find arguments and the result.
    env: TreeEnv,
}

/// `after STATE`: the state is this one.
fn after(alloc: Global, found: &AbsState, argument: &str) -> Result<(), Failure> {
    if found.same(&state(alloc, argument)?) {
        Ok(())
    } else {
        Err(Failure::Found(state_text(alloc, found)?))
    }
}

impl TreeRules {
    /// Asks what a rule tells.
    fn ask(&mut self, keyword: &str, argument: &str) -> Result<(), Failure> {
        let (alloc, state, env) = (self.alloc, &mut self.state, &self.env);
        match keyword {
            "after" => after(alloc, state, argument),
            "shown" => tree_rules::shown(alloc, state, env, argument),
            "shown-false" => tree_rules::shown_false(alloc, state, env, argument),
            "owes" => condition_rules::owes(alloc, state, argument),
            "judged" => condition_rules::judged(alloc, state, argument),
            _ => Err(Failure::Unread("a keyword")),
        }
    }

    /// Takes a step, if the keyword is that of one.
    fn step(&mut self, keyword: &str, argument: &str) -> Result<bool, Failure> {
        let (alloc, state, env) = (self.alloc, &mut self.state, &self.env);
        match keyword {
            "assume-tree" => *state = tree_rules::assumed(alloc, state, env, argument)?,
            "assume-tree-false" => {
                *state = tree_rules::assumed_false(alloc, state, env, argument)?;
            }
            "assume-no" => condition_rules::assume_no(alloc, state, argument)?,
            _ => return Ok(false),
        }
        Ok(true)
    }
}

impl Rules for TreeRules {
    fn new(alloc: Global) -> TreeRules {
        TreeRules {
            alloc,
            state: AbsState::nothing(),
            env: TreeEnv {
                args: 0,
                result: None,
            },
        }
    }

    fn take(&mut self, keyword: &str, argument: &str) -> Result<Line, Failure> {
        if keyword == "before" {
            self.state = state(self.alloc, argument)?;
            return Ok(Line::Begin);
        }
        if tree_rules::place(&mut self.env, keyword, argument)? {
            return Ok(Line::Setting);
        }
        if self.step(keyword, argument)? {
            return Ok(Line::Step);
        }
        self.ask(keyword, argument)?;
        Ok(Line::Answer)
    }
}
