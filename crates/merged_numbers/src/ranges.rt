//! Spans as ranges that are stored.

ghost use Rattle.std.specs.Prelude.{◌≡◌, ◌≤ℤ◌, None};
ghost use Rattle.cil_model.specs.Arithmetic as arithmetic;
ghost use Rattle.number_spans.specs.Stored.{range_without};
ghost use Rattle.merged_numbers.specs.Meaning.{IsCut};
ghost use Rattle.merged_numbers.specs.Spans as rule;

use interval_domain::Range;
use number_spans::{Span, range_but_for, range_without};

/// All numbers between two ends. None exactly where there is none.
#[tactic(auto, using(number_spans::proofs::NoNumbers::none_below))]
fn range_between(lo: i128, hi: i128) -> Option<Range>
    requires least { arithmetic.LEAST ≤ℤ lo }
    requires greatest { hi ≤ℤ arithmetic.GREATEST }
    ensures { result ≡ range_without lo hi None }
{
    if hi < lo {
        return None;
    }
    range_without(lo as i64, hi as i64, None)
}

/// A range but for a hole. None exactly where that is its only number.
fn but_for(range: Range, hole: Option<i128>) -> Option<Range>
    ensures { result ≡ rule.but_for range hole }
{
    match hole {
        None => Some(range),
        Some(hole) => range_but_for(range, hole),
    }
}

/// A span as it is stored. None exactly where it has no number.
pub(crate) fn stored(span: Span) -> Option<Range>
    requires { IsCut span }
    ensures { result ≡ rule.stored span }
{
    match range_between(span.lo, span.hi) {
        None => None,
        Some(range) => but_for(range, span.hole),
    }
}
