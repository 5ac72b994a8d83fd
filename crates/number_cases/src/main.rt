//! Runs cases of single rules on ranges, and on numbers of which ranges, bounds and definitions are known together.
//!
//! The words are the names of files of cases. docs/CASES.md says how a case is written.
#![tactic(auto)]

mod facts;
mod merge_rules;
mod number_rules;
mod range_rules;
mod rules;

use rule_text::run_files;
use rules::NumberRules;
use std::process::ExitCode;

fn main(rt: HostRuntime) -> ExitCode {
    run_files::<NumberRules>(&rt)
}
