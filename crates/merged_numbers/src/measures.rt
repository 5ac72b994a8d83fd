//! Sums and differences of ends and constants.

ghost use Rattle.std.specs.Prelude.{◌≡◌, ◌+ℤ◌, ◌-ℤ◌, pos, if◌then◌else◌};
ghost use Rattle.std.specs.Int.{int_min, int_max};
ghost use Rattle.cil_model.specs.Arithmetic as arithmetic;
ghost use Rattle.interval_domain.specs.Interval.{inner_hole, is_hole};
ghost use Rattle.number_spans.specs.Sizes.{IsBounded, IsLongHole, IsWide};
ghost use Rattle.number_spans.specs.Spans.{moved_hole};
ghost use Rattle.merged_numbers.specs.Known as rule;
ghost use Rattle.merged_numbers.specs.Meaning.{IsMeasured};

use number_spans::Span;

/// The least int32.
const LEAST: i128 = -2_147_483_648;

/// The greatest int32.
const GREATEST: i128 = 2_147_483_647;

/// The sum of two numbers.
pub(crate) fn plus(n: i128, k: i128) -> i128
    requires first { IsWide n }
    requires second { IsWide k }
    ensures value { result ≡ n +ℤ k }
    ensures bound { IsBounded result }
{
    n + k
}

/// Their difference.
pub(crate) fn minus(n: i128, k: i128) -> i128
    requires first { IsWide n }
    requires second { IsWide k }
    ensures value { result ≡ n -ℤ k }
    ensures bound { IsBounded result }
{
    n - k
}

/// A constant and a number more.
pub(crate) fn more(k: i64, n: i128) -> i128
    requires { IsBounded n }
    ensures { result ≡ k +ℤ n }
{
    i128::from(k) + n
}

/// A number and a constant, less another number.
pub(crate) fn apart(n: i128, k: i64, less: i128) -> i128
    requires first { IsWide n }
    requires second { IsWide less }
    ensures { result ≡ (n +ℤ k) -ℤ less }
{
    (n + i128::from(k)) - less
}

/// The lower end, cut to int32.
fn raised(lo: i128) -> i128
    requires { IsBounded lo }
    ensures value { result ≡ int_max lo arithmetic.LEAST }
    ensures bound { IsBounded result }
{
    lo.max(LEAST)
}

/// The upper end, cut to int32.
fn lowered(hi: i128) -> i128
    requires { IsBounded hi }
    ensures value { result ≡ int_min hi arithmetic.GREATEST }
    ensures bound { IsBounded result }
{
    hi.min(GREATEST)
}

/// A hole with k added.
fn moved_hole(hole: Option<i128>, k: i128) -> Option<i128>
    requires hole { IsLongHole hole }
    requires more { IsWide k }
    ensures { result ≡ moved_hole hole k }
{
    match hole {
        None => None,
        Some(hole) => Some(plus(hole, k)),
    }
}

/// Returns whether the number is the hole.
fn is_hole(hole: Option<i128>, n: i128) -> bool
    ensures { result ≡ is_hole hole n }
{
    match hole {
        None => false,
        Some(hole) => hole == n,
    }
}

/// The lower end, behind a hole that meets it.
fn behind_hole(lo: i128, hole: Option<i128>) -> i128
    requires { IsBounded lo }
    ensures { result ≡ (if is_hole hole lo then lo +ℤ pos 1 else lo) }
{
    if is_hole(hole, lo) { lo + 1 } else { lo }
}

/// The upper end, before a hole that meets it.
fn before_hole(hi: i128, hole: Option<i128>) -> i128
    requires { IsBounded hi }
    ensures { result ≡ (if is_hole hole hi then hi -ℤ pos 1 else hi) }
{
    if is_hole(hole, hi) { hi - 1 } else { hi }
}

/// A hole, where it stands strictly between the ends.
#[tactic(auto, unfolding(interval_domain::specs::Interval::inner_hole))]
fn inner_hole(lo: i128, hi: i128, hole: Option<i128>) -> Option<i128>
    ensures { result ≡ inner_hole lo hi hole }
{
    match hole {
        Some(hole) if lo < hole && hole < hi => Some(hole),
        _ => None,
    }
}

/// The numbers between two ends but for a hole, which moves an end that it meets.
#[tactic(auto, unfolding(crate::specs::Known::met))]
fn met(lo: i128, hi: i128, hole: Option<i128>) -> Span
    requires low { IsBounded lo }
    requires high { IsBounded hi }
    ensures { result ≡ rule.met lo hi hole }
{
    if hole.is_none() {
        return Span { lo, hi, hole: None };
    }
    Span {
        lo: behind_hole(lo, hole),
        hi: before_hole(hi, hole),
        hole: inner_hole(lo, hi, hole),
    }
}

/// The int32 of a span, each with k added.
#[tactic(auto, unfolding(crate::specs::Known::int32_of))]
pub(crate) fn int32_of(span: Span, k: i128) -> Span
    requires span { IsMeasured span }
    requires more { IsWide k }
    ensures { result ≡ rule.int32_of span k }
{
    met(
        raised(plus(span.lo, k)),
        lowered(plus(span.hi, k)),
        moved_hole(span.hole, k),
    )
}
