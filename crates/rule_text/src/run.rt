//! The run of files of cases.

use crate::failure::Failure;
use case_reader::{Case, CaseFile, Field, read_cases};
use std::alloc::Global;
use std::process::ExitCode;
use std::rt::{Env, Files};
use std::{env, fmt, fs, io};

/// What a line of a case was for.
#[derive(Clone, Copy, Debug, PartialEq, Eq)]
pub enum Line {
    /// It tells of what the lines behind it are, and asks for nothing.
    Setting,
    /// It is where steps begin.
    Begin,
    /// It takes a step.
    Step,
    /// It tells an answer, and that is right.
    Answer,
}

/// Rules that cases can ask for.
pub trait Rules: Drop + Sized {
    /// Before a case.
    fn new(alloc: Global) -> Self;

    /// Does what a line of a case asks for.
    fn take(&mut self, keyword: &str, argument: &str) -> Result<Line, Failure>;
}

/// A failure, and the line that shows it.
#[derive(Drop)]
struct Wrong {
    line: u64,
    failure: Failure,
}

/// How many cases there were, how many answers they tell, and how many cases failed.
#[derive(Clone, Copy)]
struct Tally {
    cases: u64,
    answers: u64,
    failed: u64,
}

/// A case that is run.
#[derive(Drop)]
struct CaseRun<R: Rules> {
    rules: R,
    answers: u64,
    /// No answer follows yet on what began.
    open: bool,
}

impl<R: Rules> CaseRun<R> {
    /// Takes a line.
    fn take(&mut self, field: &Field<'_>) -> Result<(), Failure> {
        match self.rules.take(field.keyword, field.argument)? {
            Line::Setting => {}
            Line::Begin => {
                self.close()?;
                self.open = true;
            }
            Line::Step => self.open = true,
            Line::Answer => {
                self.answers = self.answers.saturating_add(1);
                self.open = false;
            }
        }
        Ok(())
    }

    /// Tests that an answer followed on what began.
    fn close(&self) -> Result<(), Failure> {
        if self.open {
            return Err(Failure::Unread("an answer"));
        }
        Ok(())
    }

    /// Tests the same, and that there was an answer, at the end of the case.
    fn end(&self) -> Result<(), Failure> {
        if self.answers == 0 {
            return Err(Failure::Unread("an answer"));
        }
        self.close()
    }

    /// Takes the lines of a case or of a base.
    fn take_lines(&mut self, fields: &[Field<'_>]) -> Result<(), Wrong> {
        for field in fields {
            if let Err(failure) = self.take(field) {
                return Err(Wrong {
                    line: field.line,
                    failure,
                });
            }
        }
        Ok(())
    }

    /// Takes the lines of a case. A line `from NAME` stands for those of the base of this name.
    fn take_case(&mut self, case: &Case<'_>, bases: &[Case<'_>]) -> Result<(), Wrong> {
        let mut fields = case.fields.as_slice();
        if let [
            Field {
                line,
                keyword: "from",
                argument,
            },
            others @ ..,
        ] = fields
        {
            let Some(base) = bases.iter().find(|base| base.name == *argument) else {
                return Err(Wrong {
                    line: *line,
                    failure: Failure::Unread("the name of a base"),
                });
            };
            self.take_lines(base.fields.as_slice())?;
            fields = others;
        }
        self.take_lines(fields)?;
        match self.end() {
            Ok(()) => Ok(()),
            Err(failure) => Err(Wrong {
                line: case.line,
                failure,
            }),
        }
    }
}

/// Tells a failure on both streams, since a failed gate shows the errors alone.
fn tell(rt: &(impl Print + Eprint), text: &str) -> io::Result<()> {
    println!(rt; "{text}")?;
    eprintln!(rt; "{text}")
}

/// Runs a case. Answers how many answers it tells, or what is wrong.
fn run_case<R: Rules>(alloc: Global, case: &Case<'_>, bases: &[Case<'_>]) -> Result<u64, Wrong> {
    let mut run: CaseRun<R> = CaseRun {
        rules: R::new(alloc),
        answers: 0,
        open: false,
    };
    run.take_case(case, bases)?;
    Ok(run.answers)
}

/// Tells what is wrong in a case.
fn tell_wrong(
    rt: &(impl Print + Eprint),
    alloc: Global,
    name: &str,
    case: &Case<'_>,
    wrong: &Wrong,
) -> io::Result<()> {
    let text = format!(in alloc; "{name}:{}: {}: {}", wrong.line, case.name, wrong.failure)?;
    tell(rt, &text)
}

/// Runs the cases of a file.
fn run_cases<R: Rules>(
    rt: &(impl Print + Eprint),
    alloc: Global,
    name: &str,
    file: &CaseFile<'_>,
) -> io::Result<Tally> {
    let mut answers = 0u64;
    let mut failed = 0u64;
    for case in &file.cases {
        match run_case::<R>(alloc, case, file.bases.as_slice()) {
            Ok(more) => answers = answers.saturating_add(more),
            Err(wrong) => {
                failed = failed.saturating_add(1);
                tell_wrong(rt, alloc, name, case, &wrong)?;
            }
        }
    }
    Ok(Tally {
        cases: file.cases.len() as u64,
        answers,
        failed,
    })
}

/// Tells that a file is not run, which is one failure.
fn unread(rt: &(impl Print + Eprint), name: &str, why: &(impl fmt::Display)) -> io::Result<Tally> {
    println!(rt; "{name}: {why}")?;
    eprintln!(rt; "{name}: {why}")?;
    Ok(Tally {
        cases: 0,
        answers: 0,
        failed: 1,
    })
}

/// Reads a file of cases and runs them.
fn run_file<R: Rules>(
    rt: &(impl Print + Eprint + Files + AllocGlobal),
    alloc: Global,
    name: &str,
) -> io::Result<Tally> {
    let bytes = match fs::read(rt, name) {
        Ok(bytes) => bytes,
        Err(error) => return unread(rt, name, &error),
    };
    let Ok(text) = std::str::from_utf8(&bytes) else {
        return unread(rt, name, &"not UTF-8");
    };
    match read_cases(alloc, text) {
        Ok(file) => run_cases::<R>(rt, alloc, name, &file),
        Err(refusal) => unread(rt, name, &refusal),
    }
}

/// Runs a file of cases, and tells its tally.
fn run_named<R: Rules>(
    rt: &(impl Print + Eprint + Files + AllocGlobal),
    name: &str,
) -> io::Result<Tally> {
    let tally = run_file::<R>(rt, rt.alloc(), name)?;
    println!(rt;
        "{name}: {} cases, {} answers, {} failed",
        tally.cases, tally.answers, tally.failed
    )?;
    Ok(tally)
}

/// Runs the files of cases that the program's words name. Answers whether no case failed.
fn run_words<R: Rules>(rt: &(impl Print + Eprint + Files + Env + AllocGlobal)) -> io::Result<bool> {
    let mut cases = 0u64;
    let mut failed = 0u64;
    for name in env::args(rt)?.skip(1) {
        let tally = run_named::<R>(rt, &name)?;
        cases = cases.saturating_add(tally.cases);
        failed = failed.saturating_add(tally.failed);
    }
    println!(rt; "{cases} cases")?;
    Ok(cases > 0 && failed == 0)
}

/// Runs the files of cases that the program's words name, and tells each failure and how many cases there were. The
/// status is 0 where there were cases and none failed, 1 where one did or a file was not read, and 2 where nothing
/// could be told.
pub fn run_files<R: Rules>(rt: &(impl Print + Eprint + Files + Env + AllocGlobal)) -> ExitCode {
    match run_words::<R>(rt) {
        Ok(true) => ExitCode::from(0),
        Ok(false) => ExitCode::from(1),
        Err(error) => {
            let _ = eprintln!(rt; "cases: {error}");
            ExitCode::from(2)
        }
    }
}
