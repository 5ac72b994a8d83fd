//! Runs cases of proof files: what reading one gives, and that what was read is written again.
//!
//! The words are the names of files of cases. docs/CASES.md says how a case is written.
#![tactic(auto)]

mod files;
mod rules;

use rule_text::run_files;
use rules::ProofRules;
use std::process::ExitCode;

fn main(rt: HostRuntime) -> ExitCode {
    run_files::<ProofRules>(&rt)
}
