//! Sides whose bounds are tight and settled over the ends of their spans, and keys that are symbols of theirs.

ghost use Rattle.std.specs.Prelude.{◌≡◌, pos, negsuc, ◌≤ℤ◌, IsTrue};
ghost use Rattle.merged_numbers.specs.Known.{known};
ghost use Rattle.merged_numbers.specs.Settled as rule;
ghost use Rattle.merged_numbers.specs.Settled.{AreNamed, AreNamedToo, IsNamed, IsNamedToo, IsNear, IsSettledSide};

use crate::side::Side;
use interval_domain::Range;
use number_spans::Span;
use pentagon_domain::Ends;
use symbolic_values::Key;

/// A constant of a key is near where it lies between this and its opposite.
const NEAR: i128 = 1_099_511_627_776;

/// Returns whether ends are those of a span.
fn is_exact(ends: Ends, span: Span) -> bool
    ensures { result ≡ rule.is_exact ends span }
{
    i128::from(ends.lo) == span.lo && i128::from(ends.hi) == span.hi
}

/// Returns whether the ends of each symbol are those of its span.
#[tactic(auto, using(crate::proofs::SettledTests::exacts))]
fn are_exact(ends: &[Ends], spans: &[Span]) -> bool
    ensures { result ≡ rule.are_exact ends.now spans.now }
{
    if ends.len() != spans.len() {
        return false;
    }
    for s in 0..ends.len() {
        if !is_exact(ends[s], spans[s]) {
            return false;
        }
    }
    true
}

/// Returns whether a constant is near.
fn is_near(k: i128) -> bool
    ensures { IsTrue result → IsNear k }
{
    -NEAR <= k && k <= NEAR
}

/// The ends of a range.
pub(crate) fn ends_at(range: &Range) -> Ends
    ensures { result ≡ rule.ends_at range.now }
{
    Ends {
        lo: range.lo(),
        hi: range.hi(),
    }
}

impl Side<'_> {
    /// Returns whether it is noted that the bounds are tight and settled over the ends of the spans. It costs one pass
    /// over the spans.
    pub(crate) fn is_settled(&self) -> bool
        ensures { IsTrue result → IsSettledSide (known self.now) }
    {
        match self.bounds.settled_over() {
            None => false,
            Some(ends) => are_exact(ends, self.spans),
        }
    }

    /// Returns whether on the first side a key stands for a symbol that is there, with a near constant.
    fn is_named(&self, key: &Key) -> bool
        ensures { IsTrue result → IsNamed (known self.now) key.now }
    {
        (key.s as usize) < self.spans.len() && is_near(i128::from(key.first))
    }

    /// Returns whether this is so of each key.
    #[tactic(auto, using(pentagon_domain::proofs::TightTests::rest))]
    pub(crate) fn are_named(&self, keys: &[Key]) -> bool
        ensures { IsTrue result → AreNamed (known self.now) keys.now }
    {
        for key in keys {
            if !self.is_named(key) {
                return false;
            }
        }
        true
    }

    /// Returns whether on the second side a key stands for a symbol that is there, with a near constant.
    fn is_named_too(&self, key: &Key) -> bool
        ensures { IsTrue result → IsNamedToo (known self.now) key.now }
    {
        (key.t as usize) < self.spans.len()
            && is_near(i128::from(key.first) + i128::from(key.shift))
    }

    /// Returns whether this is so of each key.
    #[tactic(auto, using(pentagon_domain::proofs::TightTests::rest))]
    pub(crate) fn are_named_too(&self, keys: &[Key]) -> bool
        ensures { IsTrue result → AreNamedToo (known self.now) keys.now }
    {
        for key in keys {
            if !self.is_named_too(key) {
                return false;
            }
        }
        true
    }
}
