//! Runs cases of the units of assemblies: what comes of each method, which methods one calls, and its world.
//!
//! The words are the names of files of cases. docs/CASES.md says how a case is written.
#![tactic(auto)]

mod answers;
mod rules;
mod texts;

use rule_text::run_files;
use rules::UnitRules;
use std::process::ExitCode;

fn main(rt: HostRuntime) -> ExitCode {
    run_files::<UnitRules>(&rt)
}
