//! Runs cases of the whole program: words, files and devices, and what cccheck must answer to them.
//!
//! The words are the names of files of cases. What differs is told on both streams; the status is 0 where nothing does.
#![tactic(auto)]

mod case_run;
mod reported;

use case_reader::{CaseFile, read_cases};
use case_run::run_case;
use cc_base::Refusal;
use std::alloc::Global;
use std::process::ExitCode;
use std::rt::{Env, Files};
use std::{env, fs, io};

/// How many cases were run, and how many of them failed.
#[derive(Clone, Copy)]
struct Tally {
    cases: u64,
    failed: u64,
}

/// Tells a failure on both streams, since a failed gate shows the errors alone.
fn tell(rt: &(impl Print + Eprint), text: &str) -> io::Result<()> {
    println!(rt; "{text}")?;
    eprintln!(rt; "{text}")
}

/// Runs the cases of a file.
fn run_cases(
    rt: &(impl Print + Eprint),
    alloc: Global,
    name: &str,
    file: &CaseFile<'_>,
) -> io::Result<Tally> {
    let mut failed = 0u64;
    for case in &file.cases {
        if let Some(it) = run_case(alloc, &file.bases, case)? {
            failed = failed.saturating_add(1);
            let text = format!(in alloc; "{name}:{}: {}: {}", it.line, case.name, it.text)?;
            tell(rt, &text)?;
        }
    }
    Ok(Tally {
        cases: file.cases.len() as u64,
        failed,
    })
}

/// Reads a file of cases and runs them. A file that cannot be read as cases is one failure.
fn run_file(
    rt: &(impl Print + Eprint + Files + AllocGlobal),
    alloc: Global,
    name: &str,
) -> io::Result<Tally> {
    let text = fs::read(rt, name)?;
    let unread = match std::str::from_utf8(&text) {
        Err(_) => format!(in alloc; "{name}: not UTF-8")?,
        Ok(text) => match read_cases(alloc, text) {
            Ok(file) => return run_cases(rt, alloc, name, &file),
            Err(Refusal::Bad(fault)) => format!(in alloc; "{name}: {fault}")?,
            Err(Refusal::NoMemory) => format!(in alloc; "{name}: no memory")?,
        },
    };
    tell(rt, &unread)?;
    Ok(Tally {
        cases: 0,
        failed: 1,
    })
}

/// Runs the files of cases that the words name. Returns whether no case failed.
fn run(rt: &(impl Print + Eprint + Files + Env + AllocGlobal)) -> io::Result<bool> {
    let mut failed = 0u64;
    for name in env::args(rt)?.skip(1) {
        let tally = run_file(rt, rt.alloc(), &name)?;
        println!(rt; "{name}: {} cases, {} failed", tally.cases, tally.failed)?;
        failed = failed.saturating_add(tally.failed);
    }
    Ok(failed == 0)
}

fn main(rt: HostRuntime) -> ExitCode {
    match run(&rt) {
        Ok(true) => ExitCode::from(0),
        Ok(false) => ExitCode::from(1),
        Err(error) => {
            let _ = eprintln!(rt; "program_cases: {error}");
            ExitCode::from(2)
        }
    }
}
