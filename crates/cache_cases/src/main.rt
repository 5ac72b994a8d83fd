//! Runs cases of caches: their files, read and written, and what is put in them and found.
//!
//! The words are the names of files of cases. docs/CASES.md says how a case is written.
#![tactic(auto)]

mod files;
mod rules;

use rule_text::run_files;
use rules::CacheRules;
use std::process::ExitCode;

fn main(rt: HostRuntime) -> ExitCode {
    run_files::<CacheRules>(&rt)
}
