//! The rules, by the keywords of cases.

use crate::bytes::{test_bytes, test_reading};
use crate::told::told_text;
use abs_state::AbsState;
use cil_model::{List, Place, Unit};
use domain_api::NoMemory;
use invariant_text::invariant_text;
use rule_text::{Failure, Line, Rules, two_words};
use state_text::state;
use std::alloc::Global;

/// The unit and the blocks of a case that is run.
#[derive(Drop)]
pub struct TextRules {
    alloc: Global,
    /// How many arguments the unit has.
    args: u32,
    /// How many locals it has.
    locals: u32,
    /// The IL offset of each block.
    blocks: Vec<u32>,
    /// The state at the start of each block.
    states: Vec<AbsState>,
}

/// The number of a word.
fn read_number(word: &str) -> Result<u32, Failure> {
    word.parse::<u32>().ok().ok_or(Failure::Unread("a number"))
}

/// So many types.
fn places(alloc: Global, count: u32) -> Result<List<Place>, NoMemory> {
    let mut places = Vec::new(alloc);
    for _ in 0..count {
        places.push(Place::Int)?;
    }
    Ok(List::from_vec(places))
}

/// A unit with these arguments and locals.
fn unit_of(alloc: Global, args: List<Place>, locals: List<Place>) -> Unit {
    Unit {
        name: List::from_vec(Vec::new(alloc)),
        result: Place::Void,
        args,
        locals,
        max_stack: 8,
        callees: List::from_vec(Vec::new(alloc)),
        code: List::from_vec(Vec::new(alloc)),
        clauses: List::from_vec(Vec::new(alloc)),
        body_start: 0,
        instrs: List::from_vec(Vec::new(alloc)),
    }
}

/// A unit with so many arguments and locals.
fn unit(alloc: Global, args: u32, locals: u32) -> Result<Unit, NoMemory> {
    let args = places(alloc, args)?;
    let locals = places(alloc, locals)?;
    Ok(unit_of(alloc, args, locals))
}

/// The text that was found is the one that is told.
fn check_text(found: Vec<u8>, told: &str) -> Result<(), Failure> {
    if found.as_slice() == told.as_bytes() {
        return Ok(());
    }
    match String::from_utf8(found) {
        Ok(text) => Err(Failure::Found(text)),
        Err(_) => Err(Failure::Unread("a text")),
    }
}

impl TextRules {
    /// `unit 2 1`: how many arguments and locals the unit has. It has no blocks yet.
    fn begin(&mut self, argument: &str) -> Result<(), Failure> {
        let (args, locals) = two_words(argument)?;
        self.args = read_number(args)?;
        self.locals = read_number(locals)?;
        self.blocks = Vec::new(self.alloc);
        self.states = Vec::new(self.alloc);
        Ok(())
    }

    /// `block 9 STATE`: one more block, its IL offset and its state.
    fn add(&mut self, argument: &str) -> Result<(), Failure> {
        let Some((at, told)) = argument.split_once(' ') else {
            return Err(Failure::Unread("an offset and a state"));
        };
        self.blocks.push(read_number(at)?)?;
        self.states.push(state(self.alloc, told)?)?;
        Ok(())
    }

    /// The text of all blocks.
    fn found(&self) -> Result<Vec<u8>, Failure> {
        if self.blocks.len() != self.states.len() {
            return Err(Failure::Unmet("there is a state for each block"));
        }
        let unit = unit(self.alloc, self.args, self.locals)?;
        Ok(invariant_text(self.alloc, &unit, &self.blocks, &self.states)?)
    }

    /// `text LINES`: the text of all blocks.
    fn test(&self, lines: &str) -> Result<(), Failure> {
        let told = told_text(self.alloc, lines)?;
        check_text(self.found()?, told.as_str())
    }
}

impl Rules for TextRules {
    fn new(alloc: Global) -> TextRules {
        TextRules {
            alloc,
            args: 0,
            locals: 0,
            blocks: Vec::new(alloc),
            states: Vec::new(alloc),
        }
    }

    fn take(&mut self, keyword: &str, argument: &str) -> Result<Line, Failure> {
        match keyword {
            "unit" => {
                self.begin(argument)?;
                Ok(Line::Begin)
            }
            "block" => {
                self.add(argument)?;
                Ok(Line::Step)
            }
            "text" => {
                self.test(argument)?;
                Ok(Line::Answer)
            }
            "bytes" => {
                test_bytes(self.alloc, &self.states, argument)?;
                Ok(Line::Answer)
            }
            "read" => {
                test_reading(self.alloc, argument)?;
                Ok(Line::Answer)
            }
            _ => Err(Failure::Unread("a keyword")),
        }
    }
}
