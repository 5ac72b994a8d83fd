//! The rules, by the keywords of cases.

use crate::files::{filled_bytes, reading, told_bytes};
use rule_text::{Failure, Line, Rules, asked, check};
use std::alloc::Global;

/// What a case is run with.
#[derive(Drop)]
pub struct ProofRules {
    alloc: Global,
}

/// Reading the file gives what is told.
fn test_file(alloc: Global, bytes: &[u8], told: &str) -> Result<Line, Failure> {
    match String::from_utf8(reading(alloc, bytes)?) {
        Ok(text) => {
            check(text, told)?;
            Ok(Line::Answer)
        }
        Err(_) => Err(Failure::Unread("a text")),
    }
}

impl ProofRules {
    /// `read HEX = ok 1`, or the fault, as `form 00000010`: what reading this file gives.
    fn test_reading(&self, argument: &str) -> Result<Line, Failure> {
        let (hex, told) = asked(argument)?;
        let bytes = told_bytes(self.alloc, hex)?;
        test_file(self.alloc, &bytes, told)
    }

    /// `filled COUNT = too large`: what a file of the first line and zeros gives, with so many bytes.
    fn test_filled(&self, argument: &str) -> Result<Line, Failure> {
        let (count, told) = asked(argument)?;
        let Some(count) = count.parse::<u32>().ok() else {
            return Err(Failure::Unread("a number"));
        };
        let bytes = filled_bytes(self.alloc, count as usize)?;
        test_file(self.alloc, &bytes, told)
    }
}

impl Rules for ProofRules {
    fn new(alloc: Global) -> ProofRules {
        ProofRules { alloc }
    }

    fn take(&mut self, keyword: &str, argument: &str) -> Result<Line, Failure> {
        match keyword {
            "read" => self.test_reading(argument),
            "filled" => self.test_filled(argument),
            _ => Err(Failure::Unread("a keyword")),
        }
    }
}
