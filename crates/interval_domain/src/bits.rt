//! The bits that numbers of two ranges have in common.

ghost use Rattle.std.specs.Prelude.{◌≡◌, pos, ◌≤ℤ◌, ◌&&◌};
ghost use Rattle.std.specs.Int.{w64, int_min, int_bit_and};
ghost use Rattle.interval_domain.specs.Interval.{between, one};
ghost use Rattle.interval_domain.specs.Joins.{full};
ghost use Rattle.interval_domain.specs.Arithmetic.{is_narrow, bits_below, common_bits};

use crate::range::{GREATEST_32, LEAST_32, Range};
use crate::sums::is_one;

/// Returns whether the numbers of the range are int32.
fn is_narrow(range: Range) -> bool
    ensures { result ≡ is_narrow range }
{
    LEAST_32 <= range.lo() && range.hi() <= GREATEST_32
}

/// The bits, where a range has more than one number.
#[tactic(auto, unfolding(crate::specs::Arithmetic::bits_below))]
fn bits_below(a: Range, b: Range) -> Range
    ensures { result ≡ bits_below a b }
{
    if 0 <= a.lo() && 0 <= b.lo() {
        return Range::between(0, a.hi().min(b.hi()));
    }
    if 0 <= a.lo() {
        return Range::between(0, a.hi());
    }
    if 0 <= b.lo() {
        return Range::between(0, b.hi());
    }
    if is_narrow(a) && is_narrow(b) {
        return Range::between(LEAST_32, GREATEST_32);
    }
    Range::between(i64::MIN, i64::MAX)
}

/// The common bits of two numbers.
fn exact_bits(m: i64, n: i64) -> Range
    ensures { result ≡ one (int_bit_and w64 m n) }
{
    let only = m & n;
    Range::between(only, only)
}

/// The bits that the numbers have in common.
#[tactic(auto, unfolding(crate::specs::Arithmetic::common_bits))]
pub fn common_bits(a: Range, b: Range) -> Range
    ensures { result ≡ common_bits a b }
{
    if is_one(a) && is_one(b) {
        return exact_bits(a.lo(), b.lo());
    }
    bits_below(a, b)
}
