//! Runs cases of the text and of the bytes of invariants.
//!
//! The words are the names of files of cases. docs/CASES.md says how a case is written.
#![tactic(auto)]

mod bytes;
mod rules;
mod told;

use rule_text::run_files;
use rules::TextRules;
use std::process::ExitCode;

fn main(rt: HostRuntime) -> ExitCode {
    run_files::<TextRules>(&rt)
}
