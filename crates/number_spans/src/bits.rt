//! Bits of two numbers.

ghost use Rattle.std.specs.Prelude.{◌≡◌, ◌≤ℤ◌, pos};
ghost use Rattle.std.specs.Int.{int_max};
ghost use Rattle.number_spans.specs.Sizes.{IsSmall, IsEnd};
ghost use Rattle.number_spans.specs.Bits as rule;

use crate::exact::greater;
use crate::span::Span;

/// The bits that two numbers have in common.
#[tactic(auto, unfolding(crate::specs::Bits::common_bits))]
pub fn common_bits(r: Span, q: Span) -> Span
    ensures { result ≡ rule.common_bits r q }
{
    match (r.is_not_negative(), q.is_not_negative()) {
        (true, true) => Span::between(0, r.hi.min(q.hi)),
        (true, false) => Span::between(0, r.hi),
        (false, true) => Span::between(0, q.hi),
        (false, false) => Span::full(),
    }
}

/// The number of all ones that has as many bits as n.
#[tactic(auto, using(crate::proofs::Ones::ones), unfolding(crate::specs::Bits::all_ones))]
fn all_ones(n: i128) -> i128
    requires least { pos 0 ≤ℤ n }
    requires end { IsEnd n }
    ensures { result ≡ rule.all_ones n }
{
    let n = n as u64;
    if n == 0 {
        return 0;
    }
    i128::from(u64::MAX >> n.leading_zeros())
}

/// As many ones as the greater of two ends has places.
#[tactic(auto, using(crate::proofs::Products::greater_least))]
fn ones_over(r: Span, q: Span) -> i128
    requires first { IsSmall r }
    requires second { IsSmall q }
    ensures { result ≡ rule.all_ones (int_max (pos 0) (int_max r.hi q.hi)) }
{
    all_ones(greater(0, greater(r.hi, q.hi)))
}

/// Returns whether the numbers are 0 and 1, or one of them.
fn is_bit(r: Span) -> bool
    ensures { result ≡ rule.is_bit r }
{
    0 <= r.lo && r.hi <= 1
}

/// The bits that either has, or one alone.
#[tactic(auto, unfolding(crate::specs::Bits::bits_of_either))]
pub fn bits_of_either(r: Span, q: Span) -> Span
    requires first { IsSmall r }
    requires second { IsSmall q }
    ensures { result ≡ rule.bits_of_either r q }
{
    if is_bit(r) && is_bit(q) {
        Span::between(0, 1)
    } else if r.is_not_negative() && q.is_not_negative() {
        Span::between(0, ones_over(r, q))
    } else {
        Span::full()
    }
}
