//! The rules, by the keywords of cases.

use crate::facts::{facts, nothing};
use crate::{merge_rules, number_rules, range_rules};
use number_facts::Numbers;
use rule_text::{Failure, Line, Rules};
use std::alloc::Global;

/// What is known in a case that is run.
#[derive(Drop)]
pub struct NumberRules {
    alloc: Global,
    /// None where nothing is reached any more.
    numbers: Option<Numbers>,
    /// What another state knows.
    beside: Numbers,
}

/// Asks a rule on ranges alone, if the keyword is that of one. Answers whether it is.
fn ask_range(alloc: Global, keyword: &str, argument: &str) -> Result<bool, Failure> {
    match keyword {
        "range" => range_rules::between(alloc, argument)?,
        "constant" => range_rules::constant(alloc, argument)?,
        "full" => range_rules::full(alloc, argument)?,
        "without" => range_rules::without(alloc, argument)?,
        "within" => range_rules::within(alloc, argument)?,
        "ranges" => range_rules::operate(alloc, argument)?,
        _ => return Ok(false),
    }
    Ok(true)
}

impl NumberRules {
    /// Takes a line that asks a rule.
    fn ask(&mut self, keyword: &str, argument: &str) -> Result<Line, Failure> {
        let alloc = self.alloc;
        if ask_range(alloc, keyword, argument)? {
            return Ok(Line::Answer);
        }
        let Some(numbers) = &mut self.numbers else {
            return Err(Failure::Unread("`after unreachable`, or another state"));
        };
        match keyword {
            "ends" => number_rules::ends(alloc, numbers, argument)?,
            "gap" => number_rules::gap(alloc, numbers, argument)?,
            "fresh" => number_rules::fresh(alloc, numbers, argument)?,
            "arith" => number_rules::arith(alloc, numbers, argument)?,
            "exact" => number_rules::exact(alloc, numbers, argument)?,
            "compare" => number_rules::compare(alloc, numbers, argument)?,
            "joined" | "widened" | "normed" => {
                merge_rules::merged(alloc, numbers, &self.beside, keyword, argument)?;
            }
            "within-beside" => merge_rules::within(alloc, numbers, &self.beside, argument)?,
            _ => return Err(Failure::Unread("a keyword")),
        }
        Ok(Line::Answer)
    }

    /// Takes a step.
    fn assume(&mut self, argument: &str, holds: bool) -> Result<Line, Failure> {
        let Some(numbers) = &mut self.numbers else {
            return Err(Failure::Unread("`after unreachable`, or another state"));
        };
        if !number_rules::assume(numbers, argument, holds)? {
            self.numbers = None;
        }
        Ok(Line::Step)
    }
}

impl Rules for NumberRules {
    fn new(alloc: Global) -> NumberRules {
        NumberRules {
            alloc,
            numbers: Some(nothing(alloc)),
            beside: nothing(alloc),
        }
    }

    fn take(&mut self, keyword: &str, argument: &str) -> Result<Line, Failure> {
        match keyword {
            "before" => {
                self.numbers = Some(facts(self.alloc, argument)?);
                Ok(Line::Begin)
            }
            "beside" => {
                self.beside = facts(self.alloc, argument)?;
                Ok(Line::Setting)
            }
            "assume" => self.assume(argument, true),
            "assume-not" => self.assume(argument, false),
            "after" => {
                number_rules::after(self.alloc, &self.numbers, argument)?;
                Ok(Line::Answer)
            }
            _ => self.ask(keyword, argument),
        }
    }
}
