//! Runs cases of states that flow along the edges of units, of forged invariants, and of the verdicts under them.
//!
//! The words are the names of files of cases. docs/CASES.md says how a case is written.
#![tactic(auto)]

mod flows;
mod rules;
mod units;
mod verdicts;

use rule_text::run_files;
use rules::FlowRules;
use std::process::ExitCode;

fn main(rt: HostRuntime) -> ExitCode {
    run_files::<FlowRules>(&rt)
}
