//! The text of cases for single rules: numbers, ranges, symbols and references, definitions, facts and segments; the
//! names of operators, types and faults; the tests of what a rule on numbers asks of its caller; and the run of files
//! of cases.
//!
//! A *number* is `7`, or `s2`, `s2+7` or `s2-7` of symbol 2. A *range* is `0..9`, or `0..9!5` without 5, or `int32`. An
//! *operand* is a number, or a range in its place: that is a new symbol of this range, as in `0..9`, and `(0..9)+3` the
//! same with 3 added.
//!
//! A *fact* is `s2 in 0..9`, the range of a symbol, `s1+3 <= s2`, a bound, or `s3 is lt s1 s2+1`, a definition. That is
//! `eq`, `lt`, `lt.un` or `difference` of two numbers, or `null r1`, `not-null r1`. `null` stands for reference 0.
//!
//! Segments of an array are `{0} 0..9 ? {s1 s2+1} 5..5 {s3}`: bounds, and between them a range, marked where there may
//! be no item.
#![tactic(auto)]

mod answers;
mod definitions;
mod facts;
mod failure;
mod names;
mod nullness_names;
mod numbers;
mod premises;
mod ranges;
mod run;
mod segment_text;
mod words;

pub use answers::{asked, check, check_yes, three_words, two_words};
pub use definitions::{append_definition, definition};
pub use facts::{
    Fact, add_range, append_bounds, append_definitions, append_ranges, read_fact, separate_fact,
};
pub use failure::Failure;
pub use names::{comparison, fault, operator, place};
pub use nullness_names::{nullness, nullness_name};
pub use numbers::{append_number, operand};
pub use premises::{are_narrow, may_operate};
pub use ranges::{append_range, append_wide_range, range};
pub use run::{Line, Rules, run_files};
pub use segment_text::{append_segments, segment, segments};
pub use words::{append_reference, expr, exprs, reference, separate, symbol};
