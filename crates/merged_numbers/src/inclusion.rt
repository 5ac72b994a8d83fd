//! When a state says no more of numbers than another one does.

ghost use Rattle.std.specs.Prelude.{◌≡◌, ◌+ℤ◌, int_le, true, IfSome, IsTrue};
ghost use Rattle.std.specs.List.{list_all};
ghost use Rattle.number_spans.specs.Sizes.{IsWide};
ghost use Rattle.number_spans.specs.Spans.{moved_hole};
ghost use Rattle.domain_api.specs.Order.{gap_is_at_least};
ghost use Rattle.merged_numbers.specs.Known.{gap, known};
ghost use Rattle.merged_numbers.specs.Meaning.{AreMeasured};
ghost use Rattle.merged_numbers.specs.Included as rule;
ghost use Rattle.merged_numbers.specs.Included.{Includes, bound_term, included};

use crate::measures::apart;
use crate::side::Side;
use crate::term::Term;
use domain_api::gap_is_at_least;
use frame_names::Bound;
use interval_domain::Range;
use number_spans::{Span, sum_of};
use pentagon_domain::{BoundRow, Bounds};

/// What a bound symbol itself is worth.
fn term_of(bound: &Bound) -> Term
    ensures value { result ≡ bound_term bound.now }
    ensures near { IsWide result.k }
{
    Term {
        sym: bound.value.sym,
        k: i128::from(bound.value.k) - i128::from(bound.offset),
    }
}

/// Returns whether a hole is no number of a span, once an offset is added.
fn lacks(span: Span, hole: Option<i64>, offset: i64) -> bool
    ensures { result ≡ rule.lacks span (moved_hole hole offset) }
{
    match hole {
        None => true,
        Some(hole) => span.excludes(sum_of(hole, offset)),
    }
}

/// Returns whether a number is at least the sum of two.
fn is_from(lo: i64, offset: i64, n: i128) -> bool
    ensures { result ≡ int_le (lo +ℤ offset) n }
{
    sum_of(lo, offset) <= n
}

/// Returns whether a number is at most the sum of two.
fn is_up_to(n: i128, hi: i64, offset: i64) -> bool
    ensures { result ≡ int_le n (hi +ℤ offset) }
{
    n <= sum_of(hi, offset)
}

/// Returns whether the numbers of a span, less an offset, lie within a range.
#[tactic(auto, unfolding(crate::specs::Included::lies_within))]
fn lies_within(span: Span, offset: i64, range: &Range) -> bool
    ensures { result ≡ rule.lies_within span offset range.now }
{
    is_from(range.lo(), offset, span.lo)
        && is_up_to(span.hi, range.hi(), offset)
        && lacks(span, range.hole(), offset)
}

/// What a symbol stands for, if it is bound.
#[tactic(auto, using(crate::proofs::InclusionLaws::terms))]
fn term_at(binding: &[Bound], symbol: u32) -> Option<Term>
    ensures value { result ≡ rule.term_at binding.now symbol }
    ensures near { IfSome result (λ x. IsWide x.k) }
{
    if symbol == 0 {
        return Some(Term::of(0, 0));
    }
    match binding.get(symbol as usize - 1) {
        None => None,
        Some(bound) => Some(term_of(bound)),
    }
}

impl Side<'_> {
    /// Returns whether what a symbol is bound to lies within its range.
    fn is_within(&self, bound: &Bound, range: &Range) -> bool
        requires { AreMeasured self.now.spans.now }
        ensures { result ≡ rule.is_within (known self.now) bound.now range.now }
    {
        let value = Term::of(bound.value.sym, bound.value.k);
        lies_within(self.int32s(value), bound.offset, range)
    }

    /// Returns whether what each symbol is bound to lies within its range.
    #[tactic(auto, using(crate::proofs::InclusionLaws::all))]
    fn all_within(&self, binding: &[Bound], ranges: &[Range]) -> bool
        requires { AreMeasured self.now.spans.now }
        ensures { result ≡ rule.all_within (known self.now) binding.now ranges.now }
    {
        if binding.len() != ranges.len() {
            return false;
        }
        for place in 0..ranges.len() {
            if !self.is_within(&binding[place], &ranges[place]) {
                return false;
            }
        }
        true
    }

    /// Returns whether a stored bound tells that the second of two distinct symbols lies so far above the first.
    #[tactic(auto, using(crate::proofs::StoredLaws::stored_reaches))]
    fn is_stored(&self, s: u32, t: u32, n: i128, guess: &mut usize) -> bool
        ensures { IsTrue result → gap_is_at_least (gap (known self.now) s t) n ≡ true }
    {
        s != t && gap_is_at_least(self.bounds.stored_near(s, t, guess), n)
    }

    /// Returns whether the second symbol is known to lie so far above the first. A stored bound is looked at first.
    fn lies_above(&self, s: u32, t: u32, n: i128, guess: &mut usize) -> bool
        requires { AreMeasured self.now.spans.now }
        ensures { result ≡ gap_is_at_least (gap (known self.now) s t) n }
    {
        self.is_stored(s, t, n, guess) || gap_is_at_least(self.gap(s, t), n)
    }

    /// Returns whether a bound follows. It is guessed where one is stored that tells it.
    fn follows(&self, binding: &[Bound], row: &BoundRow, guess: &mut usize) -> bool
        requires { AreMeasured self.now.spans.now }
        ensures { result ≡ rule.follows (known self.now) binding.now row.now }
    {
        match (term_at(binding, row.s), term_at(binding, row.t)) {
            (Some(x), Some(y)) => { self.lies_above(x.sym, y.sym, apart(x.k, row.k, y.k), guess) }
            _ => false,
        }
    }

    /// Returns whether all bounds follow. Stored bounds that tell them are mostly next to each other.
    #[tactic(auto, using(crate::proofs::InclusionLaws::each))]
    fn all_follow(&self, binding: &[Bound], rows: &[BoundRow]) -> bool
        requires { AreMeasured self.now.spans.now }
        ensures { result ≡ list_all (rule.follows (known self.now) binding.now) rows.now }
    {
        let mut guess = 0;
        for row in rows {
            if !self.follows(binding, row, &mut guess) {
                return false;
            }
        }
        true
    }
}

/// Returns whether all that ranges and bounds say of symbols is known of what these are bound to.
fn is_included(a: &Side, binding: &[Bound], ranges: &[Range], bounds: &Bounds) -> bool
    requires { AreMeasured a.now.spans.now }
    ensures { result ≡ included (known a.now) binding.now ranges.now bounds.now }
{
    a.all_within(binding, ranges) && a.all_follow(binding, bounds.rows())
}

/// Returns whether all that ranges and bounds say of symbols is known of what these are bound to. The range of symbol s
/// and what it is bound to stand at place s - 1; where there are not as many of both, the answer is no. Ends count as
/// numbers, also where a state leaves a value none.
///
/// Cost: a look at each range, and for each bound a look next to the bound that told the one before it, or a search;
/// where that finds no bound that tells it, a search for each bound that goes from what its first symbol is bound to.
/// Takes no memory.
#[tactic(auto, using(crate::proofs::InclusionLaws::included_so))]
pub fn includes(a: &Side, binding: &[Bound], ranges: &[Range], bounds: &Bounds) -> bool
    requires { AreMeasured a.now.spans.now }
    ensures value { result ≡ included (known a.now) binding.now ranges.now bounds.now }
    ensures holds { Includes (known a.now) binding.now ranges.now bounds.now result }
{
    is_included(a, binding, ranges, bounds)
}
