//! Whether the segments that were found are those that are told.

use array_segments::Segs;
use interval_domain::Range;
use rule_text::{Failure, append_segments, check};
use std::alloc::Global;

/// The segments that were found are those that are told.
pub fn check_segments(alloc: Global, found: &Segs<Range>, told: &str) -> Result<(), Failure> {
    let mut text = String::new(alloc);
    append_segments(&mut text, found)?;
    check(text, told)
}
