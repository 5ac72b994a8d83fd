//! Runs cases of single rules on whole states: variables, numbers, references, and which of these are apart.
//!
//! The words are the names of files of cases. docs/CASES.md says how a case is written.
#![tactic(auto)]

mod rules;

use rule_text::run_files;
use rules::AbsRules;
use std::process::ExitCode;

fn main(rt: HostRuntime) -> ExitCode {
    run_files::<AbsRules>(&rt)
}
