//! New ranges that are no wider than the spans of a side.

ghost use Rattle.std.specs.Prelude.{◌≡◌, ◌+ℤ◌, ◌≤ℤ◌, length, IsTrue};
ghost use Rattle.number_spans.specs.Sizes.{IsWide};
ghost use Rattle.merged_numbers.specs.Known.{known};
ghost use Rattle.merged_numbers.specs.Meaning.{AreMeasured, IsMeasured};
ghost use Rattle.merged_numbers.specs.Own.{AreKept, IsKept};

use crate::measures::plus;
use crate::side::Side;
use crate::term::Term;
use interval_domain::Range;
use number_spans::Span;
use symbolic_values::Key;

/// Returns whether a span with a constant added is no narrower than a range.
fn is_as_wide(span: Span, k: i128, range: Range) -> bool
    requires span { IsMeasured span }
    requires near { IsWide k }
    ensures low { IsTrue result → (span.lo +ℤ k) ≤ℤ range.lo }
    ensures high { IsTrue result → range.hi ≤ℤ (span.hi +ℤ k) }
{
    plus(span.lo, k) <= i128::from(range.lo()) && i128::from(range.hi()) <= plus(span.hi, k)
}

impl Side<'_> {
    /// Returns whether the span of a key's symbol, with the constant added, is no narrower than a range.
    fn is_kept(&self, key: &Key, range: Range) -> bool
        requires { AreMeasured self.now.spans.now }
        ensures { IsTrue result → IsKept (known self.now) key.now range }
    {
        let first = Term::first_of(key);
        match self.span_of(first.sym) {
            None => false,
            Some(span) => is_as_wide(span, first.k, range),
        }
    }

    /// Returns whether this is so of each key and of its range. It costs one pass.
    #[tactic(auto, using(crate::proofs::KeptLaws::kept_more))]
    pub(crate) fn are_kept(&self, keys: &[Key], ranges: &[Range]) -> bool
        requires measured { AreMeasured self.now.spans.now }
        requires as_many { length ranges.now ≡ length keys.now }
        ensures { IsTrue result → AreKept (known self.now) keys.now ranges.now }
    {
        for place in 0..keys.len() {
            if !self.is_kept(&keys[place], ranges[place]) {
                return false;
            }
        }
        true
    }
}
