//! Hulls and widening of ranges.

ghost use Rattle.std.specs.Prelude.{◌≡◌, ◌≤ℤ◌};
ghost use Rattle.interval_domain.specs.Joins.{kept_hole, hull, floor_of, ceiling_of, lower_end, upper_end, widened};

use crate::range::{GREATEST_32, LEAST_32, Range};

/// The hole, where the other range excludes it too.
#[tactic(auto, unfolding(crate::specs::Joins::kept_hole))]
fn kept_hole(hole: Option<i64>, other: Range) -> Option<i64>
    ensures { result ≡ kept_hole hole other }
{
    match hole {
        Some(hole) if other.excludes(hole) => Some(hole),
        _ => None,
    }
}

/// Returns what either range has.
#[tactic(auto, unfolding(crate::specs::Joins::hull))]
pub fn hull(a: Range, b: Range) -> Range
    ensures { result ≡ hull a b }
{
    let hole = kept_hole(a.hole(), b).or(kept_hole(b.hole(), a));
    Range::with_hole(a.lo().min(b.lo()), a.hi().max(b.hi()), hole)
}

/// Where a lower end settles: the greatest landmark that is not above it.
#[tactic(auto, unfolding(crate::specs::Joins::floor_of))]
fn floor_of(n: i64) -> i64
    ensures value { result ≡ floor_of n }
    ensures below { result ≤ℤ n }
{
    match n {
        GREATEST_32.. => GREATEST_32,
        1.. => 1,
        0 => 0,
        -1 => -1,
        LEAST_32.. => LEAST_32,
        _ => i64::MIN,
    }
}

/// Where an upper end settles: the least landmark that is not below it.
#[tactic(auto, unfolding(crate::specs::Joins::ceiling_of))]
fn ceiling_of(n: i64) -> i64
    ensures value { result ≡ ceiling_of n }
    ensures above { n ≤ℤ result }
{
    match n {
        ..=LEAST_32 => LEAST_32,
        ..=-1 => -1,
        0 => 0,
        1 => 1,
        ..=GREATEST_32 => GREATEST_32,
        _ => i64::MAX,
    }
}

/// The lower end of a widened range, from those of two.
#[tactic(auto, unfolding(crate::specs::Joins::lower_end))]
fn lower_end(a: i64, b: i64) -> i64
    ensures value { result ≡ lower_end a b }
    ensures below { result ≤ℤ a }
{
    if b < a { floor_of(b) } else { a }
}

/// The upper end of a widened range, from those of two.
#[tactic(auto, unfolding(crate::specs::Joins::upper_end))]
fn upper_end(a: i64, b: i64) -> i64
    ensures value { result ≡ upper_end a b }
    ensures above { a ≤ℤ result }
{
    if a < b { ceiling_of(b) } else { a }
}

/// Returns what either range has, with ends that settle.
#[tactic(auto, unfolding(crate::specs::Joins::widened))]
pub fn widened(a: Range, b: Range) -> Range
    ensures { result ≡ widened a b }
{
    let lo = lower_end(a.lo(), b.lo());
    let hi = upper_end(a.hi(), b.hi());
    Range::with_hole(lo, hi, kept_hole(a.hole(), b))
}
