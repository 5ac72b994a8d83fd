//! Runs cases of trees of clauses in whole states, and of the conditions of operations.
//!
//! The words are the names of files of cases. docs/CASES.md says how a case is written.
#![tactic(auto)]

mod condition_rules;
mod reading;
mod rules;
mod tree_rules;
mod tree_text;

use rule_text::run_files;
use rules::TreeRules;
use std::process::ExitCode;

fn main(rt: HostRuntime) -> ExitCode {
    run_files::<TreeRules>(&rt)
}
