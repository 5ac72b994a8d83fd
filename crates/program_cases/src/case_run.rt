//! Running a case: one call of the program, or several on the same devices.

use crate::reported::{asked_report, compare_report};
use case_fixtures::{
    CaseSink, Expected, Given, Stop, Wrong, difference, number_of, stop_at, two_parts, word_of,
};
use case_reader::{Case, Field};
use check_driver::run_words;
use std::alloc::{AllocError, Global};
use widening_engine::{Dirty, Plain};

/// The devices of a case, and what was read of its next call.
#[derive(Drop)]
struct Script {
    alloc: Global,
    given: Given,
    out: CaseSink,
    err: CaseSink,
    finders: Finders,
    words: Vec<String>,
    expected: Expected,
}

/// The finders of a case: that of the program, and the one that computes each round anew.
#[derive(Drop)]
struct Finders {
    dirty: Dirty,
    plain: Plain,
    /// The next call is handed the one that computes each round anew.
    is_plain: bool,
}

impl Finders {
    /// Creates both finders, of which none was asked. The one of cccheck is used.
    fn new(alloc: Global) -> Finders {
        Finders {
            dirty: Dirty::new(alloc),
            plain: Plain::new(alloc),
            is_plain: false,
        }
    }

    /// The bytes of the units that were asked for, in order.
    fn asked(&self) -> &[Vec<u8>] {
        if self.is_plain {
            &self.plain.asked
        } else {
            &self.dirty.asked
        }
    }

    /// The number of edges that were computed.
    fn edges(&self) -> u64 {
        if self.is_plain {
            self.plain.edges()
        } else {
            self.dirty.edges()
        }
    }
}

/// What is wrong with the case or with an answer to it, if anything is.
pub fn run_case(
    alloc: Global,
    bases: &[Case<'_>],
    case: &Case<'_>,
) -> Result<Option<Wrong>, AllocError> {
    match try_case(alloc, bases, case) {
        Ok(()) => Ok(None),
        Err(Stop::Wrong(it)) => Ok(Some(it)),
        Err(Stop::NoMemory) => Err(AllocError),
    }
}

/// Runs a case, and compares what came with what it expects.
fn try_case(alloc: Global, bases: &[Case<'_>], case: &Case<'_>) -> Result<(), Stop> {
    let mut script = Script {
        alloc,
        given: Given::new(alloc),
        out: CaseSink::new(alloc),
        err: CaseSink::new(alloc),
        finders: Finders::new(alloc),
        words: Vec::new(alloc),
        expected: Expected::new(alloc),
    };
    for field in &case.fields {
        script.take(bases, *field)?;
    }
    script.call(case.line)
}

impl Script {
    /// Takes one more line.
    fn take(&mut self, bases: &[Case<'_>], field: Field<'_>) -> Result<(), Stop> {
        if self.given.take(self.alloc, field)? || self.expected.take(self.alloc, field)? {
            return Ok(());
        }
        match field.keyword {
            "words" => self.take_words(field),
            "word" => self.take_word(field.line, field.argument),
            "copy" => self.given.copy(self.alloc, bases, field),
            "fails" => self.take_failing(field),
            "lacks" => self.take_lacking(field),
            "plain" => {
                self.finders.is_plain = true;
                Ok(())
            }
            "then" => self.call(field.line),
            _ => Err(stop_at(self.alloc, field.line, "an unknown keyword")),
        }
    }

    /// Words that stand on one line, parted by blanks.
    fn take_words(&mut self, field: Field<'_>) -> Result<(), Stop> {
        for word in field.argument.split(' ') {
            self.take_word(field.line, word)?;
        }
        Ok(())
    }

    /// `word TEXT`: one more word of the call.
    fn take_word(&mut self, line: u64, text: &str) -> Result<(), Stop> {
        self.words.push(word_of(self.alloc, line, text)?)?;
        Ok(())
    }

    /// `fails DEVICE N`: the call of the device with this number, from 1, fails.
    fn take_failing(&mut self, field: Field<'_>) -> Result<(), Stop> {
        let (device, number) = two_parts(self.alloc, field)?;
        let number = number_of(self.alloc, field.line, number)? as u64;
        let numbers = match device {
            "read" => &mut self.given.files.files.fail_reads,
            "replace" => &mut self.given.files.files.fail_replaces,
            "out" => &mut self.out.sink.fail_puts,
            "err" => &mut self.err.sink.fail_puts,
            _ => return Err(stop_at(self.alloc, field.line, "an unknown device")),
        };
        numbers.push(number)?;
        Ok(())
    }

    /// `lacks DEVICE N`: the call of the device with this number, from 1, lacks memory.
    fn take_lacking(&mut self, field: Field<'_>) -> Result<(), Stop> {
        let (device, number) = two_parts(self.alloc, field)?;
        let number = number_of(self.alloc, field.line, number)? as u64;
        let numbers = match device {
            "read" => &mut self.given.files.lacking_reads,
            "replace" => &mut self.given.files.lacking_replaces,
            "out" => &mut self.out.lacking,
            "err" => &mut self.err.lacking,
            _ => return Err(stop_at(self.alloc, field.line, "an unknown device")),
        };
        numbers.push(number)?;
        Ok(())
    }

    /// Calls the program, compares its answer, and begins anew with the words and answers of a next call. The line is
    /// one to tell where the case has no better.
    fn call(&mut self, line: u64) -> Result<(), Stop> {
        self.given.close(self.alloc)?;
        let replaces = self.given.files.replaces;
        let status = self.answer();
        let Some((line, wanted)) = self.expected.status else {
            return Err(stop_at(self.alloc, line, "the case has no status"));
        };
        if status != wanted {
            let text = format!(in self.alloc; "status {status}")?;
            return Err(Stop::Wrong(Wrong { line, text }));
        }
        self.compare_text(line)?;
        self.compare_report()?;
        self.compare_asked(line)?;
        self.compare_files(line, replaces)?;
        self.words = Vec::new(self.alloc);
        self.expected = Expected::new(self.alloc);
        self.out.sink.bytes.clear();
        self.err.sink.bytes.clear();
        self.finders = Finders::new(self.alloc);
        Ok(())
    }

    /// The status of the call.
    fn answer(&mut self) -> u8 {
        let files = &mut self.given.files;
        let (out, err) = (&mut self.out, &mut self.err);
        if self.finders.is_plain {
            let finder = &mut self.finders.plain;
            run_words(self.alloc, &self.words, files, out, err, finder)
        } else {
            let finder = &mut self.finders.dirty;
            run_words(self.alloc, &self.words, files, out, err, finder)
        }
    }

    /// Compares what was put to both sinks with what is expected there.
    fn compare_text(&self, line: u64) -> Result<(), Stop> {
        let out = self.out.sink.bytes.as_slice();
        if out != self.expected.out.as_slice() {
            let text = difference(self.alloc, "out", &self.expected.out, out)?;
            return Err(Stop::Wrong(Wrong { line, text }));
        }
        let err = self.err.sink.bytes.as_slice();
        if err != self.expected.err.as_slice() {
            let text = difference(self.alloc, "err", &self.expected.err, err)?;
            return Err(Stop::Wrong(Wrong { line, text }));
        }
        Ok(())
    }

    /// Compares what `report` gives of the file that the second word names, where a line asks for it.
    fn compare_report(&self) -> Result<(), Stop> {
        let Some(line) = self.expected.report else {
            return Ok(());
        };
        let Some((name, show)) = asked_report(&self.words) else {
            return Err(stop_at(self.alloc, line, "no file is named"));
        };
        let file = self.given.files.files.get(name);
        compare_report(self.alloc, line, name, show, file, &self.out.sink.bytes)
    }

    /// Compares the edges that were computed, and the units that were asked for, where the case tells them.
    fn compare_asked(&self, line: u64) -> Result<(), Stop> {
        if let Some(edges) = self.expected.edges
            && edges != self.finders.edges()
        {
            let text = format!(in self.alloc; "{} edges are computed", self.finders.edges())?;
            return Err(Stop::Wrong(Wrong { line, text }));
        }
        let Some(wanted) = &self.expected.asked else {
            return Ok(());
        };
        let found = self.finders.asked();
        if wanted.len() != found.len() {
            return Err(stop_at(self.alloc, line, "another number of units is asked for"));
        }
        for (want, have) in wanted.iter().zip(found) {
            if want.as_slice() != have.as_slice() {
                return Err(stop_at(self.alloc, line, "another unit is asked for"));
            }
        }
        Ok(())
    }

    /// Compares what files hold after the call with the lines that say so. The call may replace, or try to, no more
    /// files than these lines, where so many had been before it.
    fn compare_files(&self, line: u64, replaces: u64) -> Result<(), Stop> {
        let (after, after_none) = (&self.expected.after, &self.expected.after_none);
        let told = after.len() as u64 + after_none.len() as u64;
        if self.given.files.replaces.saturating_sub(replaces) > told {
            return Err(stop_at(self.alloc, line, "a file is replaced"));
        }
        let files = &self.given.files.files;
        for file in after {
            if files.get(file.name.as_str()) != Some(file.bytes.as_slice()) {
                return Err(stop_at(self.alloc, line, "a file holds other bytes after the call"));
            }
        }
        for name in after_none {
            if files.get(name.as_str()).is_some() {
                return Err(stop_at(self.alloc, line, "a file is held after the call"));
            }
        }
        Ok(())
    }
}
