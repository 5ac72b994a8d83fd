//! The products of the numbers of two ranges.

ghost use Rattle.std.specs.Prelude.{◌≡◌, ◌*ℤ◌, ◌≤ℤ◌};
ghost use Rattle.interval_domain.specs.Interval.{between};
ghost use Rattle.interval_domain.specs.Arithmetic.{near_product, least, greatest, corners, is_number_one, product};

use crate::range::Range;

/// The product of two numbers, brought to 64 bits.
#[tactic(auto, unfolding(crate::specs::Arithmetic::near))]
fn near_product(a: i64, b: i64) -> i64
    ensures { result ≡ near_product a b }
{
    a.saturating_mul(b)
}

/// The least of four numbers.
#[tactic(auto, unfolding(crate::specs::Arithmetic::least))]
fn least(a: i64, b: i64, c: i64, d: i64) -> i64
    ensures value { result ≡ least a b c d }
    ensures bound { result ≤ℤ a }
{
    a.min(b).min(c.min(d))
}

/// The greatest of four numbers.
#[tactic(auto, unfolding(crate::specs::Arithmetic::greatest))]
fn greatest(a: i64, b: i64, c: i64, d: i64) -> i64
    ensures value { result ≡ greatest a b c d }
    ensures bound { a ≤ℤ result }
{
    a.max(b).max(c.max(d))
}

/// The numbers from the least of four to the greatest.
fn spanned(a: i64, b: i64, c: i64, d: i64) -> Range
    ensures { result ≡ between (least a b c d) (greatest a b c d) }
{
    Range::between(least(a, b, c, d), greatest(a, b, c, d))
}

/// From the least to the greatest product of two ends.
#[tactic(auto, unfolding(crate::specs::Arithmetic::corners))]
fn corners(a: Range, b: Range) -> Range
    ensures { result ≡ corners a b }
{
    spanned(
        near_product(a.lo(), b.lo()),
        near_product(a.lo(), b.hi()),
        near_product(a.hi(), b.lo()),
        near_product(a.hi(), b.hi()),
    )
}

/// Returns whether the range has the number 1 alone.
fn is_number_one(range: Range) -> bool
    ensures { result ≡ is_number_one range }
{
    range.lo() == 1 && range.hi() == 1
}

/// The products.
#[tactic(auto, unfolding(crate::specs::Arithmetic::product))]
pub fn product(a: Range, b: Range) -> Range
    ensures { result ≡ product a b }
{
    if is_number_one(b) {
        return a;
    }
    if is_number_one(a) {
        return b;
    }
    corners(a, b)
}
