//! Runs cases of single rules on bounds, names and references: what each gives, or that it may not be asked.
//!
//! The words are the names of files of cases. docs/CASES.md says how a case is written.
#![tactic(auto)]

mod apart_rules;
mod bound_rules;
mod definition_rules;
mod name_rules;
mod rules;
mod words;

use rule_text::run_files;
use rules::RelationRules;
use std::process::ExitCode;

fn main(rt: HostRuntime) -> ExitCode {
    run_files::<RelationRules>(&rt)
}
