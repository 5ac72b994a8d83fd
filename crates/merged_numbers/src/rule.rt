//! How two states become one.

ghost use Rattle.std.specs.Prelude.{◌≡◌};
ghost use Rattle.interval_domain.specs.Joins as settling;
ghost use Rattle.merged_numbers.specs.Spans as spans;
ghost use Rattle.merged_numbers.specs.Spans.{gap_by, kept_hole, span_by};

use number_spans::Span;

/// How two spans become one, and two gaps.
#[derive(Clone, Copy)]
pub(crate) enum Rule {
    /// What either has.
    Join,
    /// What either has, with ends that settle.
    Widening,
}

/// The hole, where the other span excludes it too.
fn kept_hole(hole: Option<i128>, other: Span) -> Option<i128>
    ensures { result ≡ kept_hole hole other }
{
    match hole {
        Some(hole) if other.excludes(hole) => Some(hole),
        _ => None,
    }
}

/// All from the lower of the lower ends to the higher of the higher ones, but for a hole that both exclude.
#[tactic(auto, unfolding(crate::specs::Spans::hull))]
pub fn hull(a: Span, b: Span) -> Span
    ensures { result ≡ spans.hull a b }
{
    Span {
        lo: a.lo.min(b.lo),
        hi: a.hi.max(b.hi),
        hole: kept_hole(a.hole, b).or(kept_hole(b.hole, a)),
    }
}

/// Where a lower end settles: the greatest landmark that is not above it.
#[tactic(auto, unfolding(interval_domain::specs::Joins::floor_of))]
fn floor_of(n: i128) -> i128
    ensures { result ≡ settling.floor_of n }
{
    match n {
        2_147_483_647.. => 2_147_483_647,
        1.. => 1,
        0 => 0,
        -1 => -1,
        -2_147_483_648.. => -2_147_483_648,
        _ => -9_223_372_036_854_775_808,
    }
}

/// Where an upper end settles: the least landmark that is not below it.
#[tactic(auto, unfolding(interval_domain::specs::Joins::ceiling_of))]
fn ceiling_of(n: i128) -> i128
    ensures { result ≡ settling.ceiling_of n }
{
    match n {
        ..=-2_147_483_648 => -2_147_483_648,
        ..=-1 => -1,
        0 => 0,
        1 => 1,
        ..=2_147_483_647 => 2_147_483_647,
        _ => 9_223_372_036_854_775_807,
    }
}

/// The lower end of a widened span, from those of two.
#[tactic(auto, unfolding(interval_domain::specs::Joins::lower_end))]
fn lower_end(a: i128, b: i128) -> i128
    ensures { result ≡ settling.lower_end a b }
{
    if b < a { floor_of(b) } else { a }
}

/// The upper end of a widened span, from those of two.
#[tactic(auto, unfolding(interval_domain::specs::Joins::upper_end))]
fn upper_end(a: i128, b: i128) -> i128
    ensures { result ≡ settling.upper_end a b }
{
    if a < b { ceiling_of(b) } else { a }
}

/// All that either has. An end that the second one passes settles.
#[tactic(auto, unfolding(crate::specs::Spans::widened))]
fn widened(a: Span, b: Span) -> Span
    ensures { result ≡ spans.widened a b }
{
    Span {
        lo: lower_end(a.lo, b.lo),
        hi: upper_end(a.hi, b.hi),
        hole: kept_hole(a.hole, b),
    }
}

/// The lesser of two gaps, where both are known.
fn lesser(a: Option<i128>, b: Option<i128>) -> Option<i128>
    ensures { result ≡ spans.lesser a b }
{
    match (a, b) {
        (Some(k), Some(l)) => Some(k.min(l)),
        _ => None,
    }
}

/// The first gap, where the second is known and not lesser.
fn steady(a: Option<i128>, b: Option<i128>) -> Option<i128>
    ensures { result ≡ spans.steady a b }
{
    match (a, b) {
        (Some(k), Some(l)) if k <= l => Some(k),
        _ => None,
    }
}

impl Rule {
    /// What becomes of two spans.
    pub(crate) fn span(self, a: Span, b: Span) -> Span
        ensures { result ≡ span_by self a b }
    {
        match self {
            Rule::Join => hull(a, b),
            Rule::Widening => widened(a, b),
        }
    }

    /// What becomes of two gaps.
    pub(crate) fn gap(self, a: Option<i128>, b: Option<i128>) -> Option<i128>
        ensures { result ≡ gap_by self a b }
    {
        match self {
            Rule::Join => lesser(a, b),
            Rule::Widening => steady(a, b),
        }
    }
}
