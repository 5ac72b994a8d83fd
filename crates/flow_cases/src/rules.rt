//! The rules, by the keywords of cases.

ghost use Rattle.std.specs.List.{AllByRecursion};
ghost use Rattle.unit_flow.specs.Flow.{IsLawful};

use crate::flows;
use crate::flows::read_number;
use crate::units::KnownUnits;
use crate::verdicts::{verdicts_text, world_text};
use abs_state::Invariant;
use invariant_checker::judge;
use rule_text::{Failure, Line, Rules, check, check_yes};
use state_text::state;
use std::alloc::Global;
use transfer_rules::{has_shape, inductive};
use unit_flow::UnitFlow;
use world_checker::judge_world;

/// The units and the states of a case that is run.
#[derive(Drop)]
pub struct FlowRules {
    alloc: Global,
    units: KnownUnits,
    /// For each unit, what is told to hold at the start of each of its blocks.
    invariants: Vec<Invariant>,
}

/// No block has a state.
fn no_states(alloc: Global) -> Invariant {
    Invariant {
        states: Vec::new(alloc),
    }
}

/// `verdicts 4 overflow proved, 9 assert unproved`: the verdict on each obligation of the unit.
fn verdicts(
    alloc: Global,
    code: &UnitFlow,
    invariant: &Invariant,
    told: &str,
) -> Result<(), Failure>
    requires lawful { IsLawful code.now }
{
    let found = judge(alloc, code, invariant)?;
    check(verdicts_text(alloc, found.as_slice())?, told)
}

/// `world 4 overflow proved | none`: the verdicts on each unit of the world.
fn world(
    alloc: Global,
    codes: &[UnitFlow],
    invariants: &[Invariant],
    told: &str,
) -> Result<(), Failure>
    requires lawful { AllByRecursion IsLawful codes.now }
{
    if invariants.len() != codes.len() {
        return Err(Failure::Unmet("there is an invariant for each unit"));
    }
    let found = judge_world(alloc, codes, invariants)?;
    check(world_text(alloc, found.as_slice())?, told)
}

/// Asks what a rule tells of a unit and the states in its blocks.
fn ask_of(
    alloc: Global,
    code: &UnitFlow,
    invariant: &Invariant,
    keyword: &str,
    argument: &str,
) -> Result<(), Failure>
    requires lawful { IsLawful code.now }
{
    let states = invariant.states.as_slice();
    match keyword {
        "entry" => flows::entry(alloc, code, argument),
        "unknown" => flows::unknown(alloc, code, argument),
        "edge" => flows::edge(alloc, code, states, argument),
        "post" => flows::behind(alloc, code, states, argument),
        "shape" => check_yes(alloc, has_shape(code, states), argument),
        "inductive" => check_yes(alloc, inductive(alloc, code, states)?, argument),
        "verdicts" => verdicts(alloc, code, invariant, argument),
        _ => Err(Failure::Unread("a keyword")),
    }
}

impl FlowRules {
    /// `unit 43435531..`: the next unit of the world, that of a file. None of its blocks has a state yet.
    fn begin(&mut self, digits: &str) -> Result<(), Failure> {
        self.units.read(self.alloc, digits)?;
        self.invariants.push(no_states(self.alloc))?;
        Ok(())
    }

    /// `at 2 STATE`: the state at the start of a block of the last unit. It takes the place of one that is there, or is
    /// the next one.
    fn put(&mut self, argument: &str) -> Result<(), Failure> {
        let Some((block, told)) = argument.split_once(' ') else {
            return Err(Failure::Unread("a block and a state"));
        };
        let block = read_number(block)? as usize;
        let state = state(self.alloc, told)?;
        let Some(invariant) = self.invariants.last_mut() else {
            return Err(Failure::Unread("a unit"));
        };
        let states = &mut invariant.states;
        if block > states.len() {
            return Err(Failure::Unread("the next block"));
        }
        if block == states.len() {
            states.push(state)?;
        } else {
            states[block] = state;
        }
        Ok(())
    }

    /// Asks what a rule tells of the last unit.
    fn ask(&self, keyword: &str, argument: &str) -> Result<(), Failure> {
        let (Some(code), Some(invariant)) = (self.units.last(), self.invariants.last()) else {
            return Err(Failure::Unread("a unit"));
        };
        ask_of(self.alloc, code, invariant, keyword, argument)
    }
}

impl Rules for FlowRules {
    fn new(alloc: Global) -> FlowRules {
        FlowRules {
            alloc,
            units: KnownUnits::new(alloc),
            invariants: Vec::new(alloc),
        }
    }

    fn take(&mut self, keyword: &str, argument: &str) -> Result<Line, Failure> {
        match keyword {
            "unit" => {
                self.begin(argument)?;
                Ok(Line::Setting)
            }
            "at" => {
                self.put(argument)?;
                Ok(Line::Step)
            }
            "world" => {
                world(self.alloc, self.units.codes(), &self.invariants, argument)?;
                Ok(Line::Answer)
            }
            _ => {
                self.ask(keyword, argument)?;
                Ok(Line::Answer)
            }
        }
    }
}
