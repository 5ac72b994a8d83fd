//! The sums and differences of the numbers of two ranges.
//!
//! An end beyond 64 bits is brought to the nearest number of 64 bits: no result that fits 64 bits is lost.

ghost use Rattle.std.specs.Prelude.{◌≡◌, ◌+ℤ◌, ◌-ℤ◌, ◌≤ℤ◌};
ghost use Rattle.interval_domain.specs.Arithmetic.{near, is_one, moved_hole, shifted, sum, hole_down, shifted_down, difference, near_between};

use crate::range::Range;

/// The sum of two numbers, brought to 64 bits.
#[tactic(auto, unfolding(crate::specs::Arithmetic::near))]
fn near_sum(a: i64, b: i64) -> i64
    ensures { result ≡ near (a +ℤ b) }
{
    a.saturating_add(b)
}

/// The difference of two numbers, brought to 64 bits.
#[tactic(auto, unfolding(crate::specs::Arithmetic::near))]
fn near_difference(a: i64, b: i64) -> i64
    ensures { result ≡ near (a -ℤ b) }
{
    a.saturating_sub(b)
}

/// Returns whether the range has one number alone.
pub(crate) fn is_one(range: Range) -> bool
    ensures { result ≡ is_one range }
{
    range.lo() == range.hi()
}

/// A hole with k added.
fn moved_hole(hole: Option<i64>, k: i64) -> Option<i64>
    ensures { result ≡ moved_hole hole k }
{
    match hole {
        Some(hole) => Some(near_sum(hole, k)),
        None => None,
    }
}

/// The numbers of a range, each with k added.
#[tactic(auto, using(crate::proofs::Nearest::near_sums_rise), unfolding(crate::specs::Arithmetic::shifted))]
fn shifted(range: Range, k: i64) -> Range
    ensures { result ≡ shifted range k }
{
    let lo = near_sum(range.lo(), k);
    let hi = near_sum(range.hi(), k);
    Range::with_hole(lo, hi, moved_hole(range.hole(), k))
}

/// From the sum of the lower ends of two ranges to that of the upper ones.
#[tactic(auto, using(crate::proofs::Nearest::near_sums_rise), unfolding(crate::specs::Arithmetic::near_between))]
fn sums_of_ends(a_lo: i64, a_hi: i64, b_lo: i64, b_hi: i64) -> Range
    requires first { a_lo ≤ℤ a_hi }
    requires second { b_lo ≤ℤ b_hi }
    ensures { result ≡ near_between (a_lo +ℤ b_lo) (a_hi +ℤ b_hi) }
{
    Range::between(near_sum(a_lo, b_lo), near_sum(a_hi, b_hi))
}

/// The sums.
#[tactic(auto, unfolding(crate::specs::Arithmetic::sum))]
pub fn sum(a: Range, b: Range) -> Range
    ensures { result ≡ sum a b }
{
    if is_one(b) {
        return shifted(a, b.lo());
    }
    if is_one(a) {
        return shifted(b, a.lo());
    }
    sums_of_ends(a.lo(), a.hi(), b.lo(), b.hi())
}

/// A hole less k.
fn hole_down(hole: Option<i64>, k: i64) -> Option<i64>
    ensures { result ≡ hole_down hole k }
{
    match hole {
        Some(hole) => Some(near_difference(hole, k)),
        None => None,
    }
}

/// The numbers of a range, each less k.
#[tactic(auto, using(crate::proofs::Nearest::near_differences_rise), unfolding(crate::specs::Arithmetic::shifted_down))]
fn shifted_down(range: Range, k: i64) -> Range
    ensures { result ≡ shifted_down range k }
{
    let lo = near_difference(range.lo(), k);
    let hi = near_difference(range.hi(), k);
    Range::with_hole(lo, hi, hole_down(range.hole(), k))
}

/// From the least difference of two ranges to the greatest.
#[tactic(auto, using(crate::proofs::Nearest::near_differences_rise), unfolding(crate::specs::Arithmetic::near_between))]
fn differences_of_ends(a_lo: i64, a_hi: i64, b_lo: i64, b_hi: i64) -> Range
    requires first { a_lo ≤ℤ a_hi }
    requires second { b_lo ≤ℤ b_hi }
    ensures { result ≡ near_between (a_lo -ℤ b_hi) (a_hi -ℤ b_lo) }
{
    Range::between(near_difference(a_lo, b_hi), near_difference(a_hi, b_lo))
}

/// The differences.
#[tactic(auto, unfolding(crate::specs::Arithmetic::difference))]
pub fn difference(a: Range, b: Range) -> Range
    ensures { result ≡ difference a b }
{
    if is_one(b) {
        return shifted_down(a, b.lo());
    }
    differences_of_ends(a.lo(), a.hi(), b.lo(), b.hi())
}
