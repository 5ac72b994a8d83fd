//! How symbols and expressions are known to lie to each other.

ghost use Rattle.std.specs.Prelude.{◌≡◌, ◌-ℤ◌, ◌+ℤ◌, ◌≤ℤ◌, pos};
ghost use Rattle.number_spans.specs.Sizes.{IsWide, IsBounded};
ghost use Rattle.number_facts.specs.Sizes.{IsFar};
ghost use Rattle.number_facts.specs.Ends.{range_of, span_at};
ghost use Rattle.number_facts.specs.Gaps.{at_most, equal, gap};

use crate::numbers::Numbers;
use domain_api::{Expr, Order};
use number_spans::{less_by, sum_of};

/// The difference of two ends.
pub(crate) fn far(from: i128, to: i128) -> i128
    requires first { IsWide from }
    requires second { IsWide to }
    ensures value { result ≡ to -ℤ from }
    ensures bound { IsFar result }
{
    to - from
}

impl Numbers {
    /// How far the numbers of the second symbol lie above those of the first.
    pub(crate) fn distance(&self, s: u32, t: u32) -> i128
        ensures { result ≡ (span_at self.now t).lo -ℤ (span_at self.now s).hi }
    {
        far(self.left_to(s).hi, self.left_to(t).lo)
    }

    /// Returns whether the first expression and a number more are known to be at most the second.
    #[tactic(auto, unfolding(crate::specs::Gaps::at_most))]
    pub(crate) fn is_at_most(&self, a: Expr, more: i64, b: Expr) -> bool
        ensures { result ≡ at_most self.now a more b }
    {
        let n = less_by(sum_of(a.k, more), b.k);
        match self.gap(a.sym, b.sym) {
            None => false,
            Some(gap) => n <= i128::from(gap),
        }
    }

    /// Returns whether they are known to be equal.
    #[tactic(auto, unfolding(crate::specs::Gaps::equal))]
    pub(crate) fn is_equal(&self, a: Expr, b: Expr) -> bool
        ensures { result ≡ equal self.now a b }
    {
        self.is_at_most(a, 0, b) && self.is_at_most(b, 0, a)
    }
}
