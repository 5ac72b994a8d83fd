//! The rules, by the keywords of cases.

use crate::answers;
use asm_image::{AsmRefusal, Assembly};
use case_fixtures::{Given, Stop};
use case_reader::Field;
use rule_text::{Failure, Line, Rules, asked};
use std::alloc::Global;

/// The files of a case that is run.
#[derive(Drop)]
pub struct UnitRules {
    alloc: Global,
    given: Given,
}

/// Why a line that gives a file fails.
fn failure(stop: Stop) -> Failure {
    match stop {
        Stop::Wrong(wrong) => Failure::Found(wrong.text),
        Stop::NoMemory => Failure::NoMemory,
    }
}

/// The assembly of a file.
fn read<'a>(alloc: Global, bytes: &'a [u8]) -> Result<Assembly<'a>, Failure> {
    match Assembly::read(alloc, bytes) {
        Ok(assembly) => Ok(assembly),
        Err(AsmRefusal::Bad(_)) => Err(Failure::Unmet("the file is an assembly")),
        Err(AsmRefusal::NoMemory) => Err(Failure::NoMemory),
    }
}

/// The index of a method, counted from 0.
fn read_index(word: &str) -> Result<usize, Failure> {
    word.parse::<usize>()
        .ok()
        .ok_or(Failure::Unread("a number"))
}

/// Asks what a rule tells of an assembly, and of its method of an index where it has one.
fn ask_of(
    alloc: Global,
    assembly: &Assembly<'_>,
    keyword: &str,
    index: &str,
    told: &str,
) -> Result<(), Failure> {
    match keyword {
        "entries" => answers::entries(alloc, assembly, told),
        "unit" => answers::unit(alloc, assembly, read_index(index)?, told),
        "callees" => answers::callees(alloc, assembly, read_index(index)?, told),
        "world" => answers::world(alloc, assembly, read_index(index)?, told),
        _ => Err(Failure::Unread("a keyword")),
    }
}

impl UnitRules {
    /// Asks what a rule tells of a file.
    fn ask(&self, keyword: &str, argument: &str) -> Result<(), Failure> {
        let (question, told) = asked(argument)?;
        let (name, index) = question.split_once(' ').unwrap_or((question, ""));
        let Some(bytes) = self.given.files.files.get(name) else {
            return Err(Failure::Unread("the name of a file"));
        };
        let assembly = read(self.alloc, bytes)?;
        ask_of(self.alloc, &assembly, keyword, index, told)
    }
}

impl Rules for UnitRules {
    fn new(alloc: Global) -> UnitRules {
        UnitRules {
            alloc,
            given: Given::new(alloc),
        }
    }

    fn take(&mut self, keyword: &str, argument: &str) -> Result<Line, Failure> {
        let field = Field {
            line: 0,
            keyword,
            argument,
        };
        match self.given.take(self.alloc, field) {
            Ok(true) => Ok(Line::Setting),
            Ok(false) => {
                self.ask(keyword, argument)?;
                Ok(Line::Answer)
            }
            Err(stop) => Err(failure(stop)),
        }
    }
}
