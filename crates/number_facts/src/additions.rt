//! Sums and differences.

ghost use Rattle.std.specs.Prelude.{◌≡◌, ◌+ℤ◌, ◌-ℤ◌, ◌++◌, [], ◌∷◌, IfOk, OnOk, IfSome};
ghost use Rattle.std.specs.Option.{option_map};
ghost use Rattle.cc_base.specs.Wrap.{wrap32};
ghost use Rattle.number_spans.specs.Constants.{constant};
ghost use Rattle.number_spans.specs.Sizes.{IsBounded, IsSmall, IsWide};
ghost use Rattle.number_facts.specs.Additions as rule;
ghost use Rattle.number_facts.specs.Ends.{range_of};
ghost use Rattle.number_facts.specs.Facts.{AreNarrow, IsThere};
ghost use Rattle.number_facts.specs.declared.relation.Relation.TheVariants as relations;

use crate::assume::and_more;
use crate::differences::Difference;
use crate::gap::far;
use crate::numbers::Numbers;
use crate::outcome::Outcome;
use crate::relation::Relation;
use domain_api::{Expr, NoMemory, Order};
use number_spans::{
    Span, constant, differences, less_by, minus, more_by, negated, plus, sum_of, sums, takes,
    with_constant, wrap,
};
use symbolic_values::Def;

/// Returns whether both ends are int32.
fn is_inside(r: Span) -> bool
    ensures { result ≡ rule.is_inside r }
{
    -2_147_483_648 <= r.lo && r.hi <= 2_147_483_647
}

/// The numbers of a result, modulo 2^32 where it may leave int32.
fn settled_span(r: Span) -> Span
    requires { IsBounded r.lo }
    ensures { result ≡ rule.settled_span r }
{
    if is_inside(r) { r } else { r.wrapped() }
}

/// The difference of two constants.
pub(crate) fn constants_apart(a: Expr, b: Expr) -> i128
    ensures value { result ≡ a.k -ℤ b.k }
    ensures bound { IsWide result }
{
    i128::from(a.k) - i128::from(b.k)
}

/// A lower end, raised by what a gap tells.
#[tactic(auto, using(crate::proofs::Uppers::raises))]
fn raised_by_gap(gap: Option<i64>, more: i128, n: i128) -> i128
    requires more { IsWide more }
    requires end { IsBounded n }
    ensures value { result ≡ rule.greater_of gap more n }
    ensures bound { IsBounded result }
{
    match gap {
        None => n,
        Some(gap) => n.max(more_by(more, gap)),
    }
}

/// An upper end, lowered by what a gap tells.
fn lowered_by_gap(gap: Option<i64>, more: i128, n: i128) -> i128
    requires { IsWide more }
    ensures { result ≡ rule.lesser_of gap more n }
{
    match gap {
        None => n,
        Some(gap) => n.min(less_by(more, gap)),
    }
}

/// The exact constant of what bounds a sum of `a` and `b` from above, where a symbol is x - y and `gap` above `b`.
#[tactic(auto, using(crate::proofs::Uppers::regroups))]
fn constant_above(a: Expr, b: Expr, x: Expr, y: Expr, gap: i64) -> i128
    ensures value { result ≡ x.k +ℤ (((a.k +ℤ b.k) -ℤ y.k) -ℤ gap) }
    ensures bound { IsBounded result }
{
    and_more(far(sum_of(y.k, gap), sum_of(a.k, b.k)), x.k)
}

/// The greatest number of a symbol with an exact constant.
fn end_of(hi: i128, k: i128) -> i128
    requires end { IsWide hi }
    requires constant { IsBounded k }
    ensures { result ≡ hi +ℤ k }
{
    hi + k
}

/// Notes that a sum is at least an expression and the least of the other one, and at most that and its greatest.
fn note_beside(known: &mut Vec<Relation>, e: Expr, r: Span) -> Result<(), NoMemory>
    requires { IsSmall r }
    ensures { OnOk result (known.new.items ≡ known.old.items ++ rule.beside e r) }
{
    known.push(Relation::AtLeast(e.sym, i128::from(e.k) + r.lo))?;
    known.push(Relation::AtMost(e.sym, i128::from(e.k) + r.hi))?;
    Ok(())
}

/// Notes that a difference is at least an expression less the greatest of the other one, and at most that less its
/// least.
fn note_below(known: &mut Vec<Relation>, e: Expr, r: Span) -> Result<(), NoMemory>
    requires { IsSmall r }
    ensures { OnOk result (known.new.items ≡
        known.old.items ++ relations.AtLeast e.sym (e.k -ℤ r.hi) ∷ relations.AtMost e.sym (e.k -ℤ r.lo) ∷ []) }
{
    known.push(Relation::AtLeast(e.sym, minus(i128::from(e.k), r.hi)))?;
    known.push(Relation::AtMost(e.sym, minus(i128::from(e.k), r.lo)))?;
    Ok(())
}

impl Numbers {
    /// What a difference says that no sum of its subtrahend's symbol is above: a symbol and an exact constant.
    fn above_by(&self, a: Expr, b: Expr, difference: &Difference) -> Option<(u32, i128)>
        ensures value { result ≡ option_map (λ u. (u.sym, u.k)) (rule.above_difference self.now a b difference.now) }
        ensures bound { IfSome result (λ u. IsBounded u.1) }
    {
        let gap = self.gap(b.sym, difference.symbol)?;
        Some((
            difference.minuend.sym,
            constant_above(a, b, difference.minuend, difference.subtrahend, gap),
        ))
    }

    /// An upper end of a sum, cut by what a difference says.
    #[tactic(auto, unfolding(crate::specs::Ends::range_of, number_spans::specs::Spans::shifted))]
    fn cut_once(&self, a: Expr, b: Expr, difference: &Difference, hi: i128) -> i128
        ensures { result ≡ rule.cut_by self.now (rule.with_some (rule.above_difference self.now a b difference.now) []) hi }
    {
        match self.above_by(a, b, difference) {
            None => hi,
            Some((sym, k)) => hi.min(end_of(self.left_to(sym).hi, k)),
        }
    }

    /// An upper end of a sum, cut by what the definitions of one order say.
    ///
    /// Cost: a search, and the gap and the range of each difference that subtracts the symbol of the first expression.
    #[tactic(auto, using(crate::proofs::Uppers::cuts))]
    fn cut_by(&self, a: Expr, b: Expr, hi: i128) -> i128
        ensures { result ≡ rule.cut_by self.now (rule.all_above self.now a b self.now.definitions) hi }
    {
        let mut cut = hi;
        let differences = self.definitions.subtracting(a.sym);
        for difference in differences {
            cut = self.cut_once(a, b, difference, cut);
        }
        cut
    }

    /// Notes what a difference says that a sum is at most.
    fn note_once(
        &self,
        a: Expr,
        b: Expr,
        difference: &Difference,
        known: &mut Vec<Relation>,
    ) -> Result<(), NoMemory>
        ensures { OnOk result (known.new.items ≡ known.old.items
            ++ rule.at_most (rule.with_some (rule.above_difference self.now a b difference.now) [])) }
    {
        match self.above_by(a, b, difference) {
            None => Ok(()),
            Some((sym, k)) => {
                known.push(Relation::AtMost(sym, k))?;
                Ok(())
            }
        }
    }

    /// Notes what the definitions of one order say that a sum is at most.
    ///
    /// Cost: as of `cut_by`.
    #[tactic(auto, using(crate::proofs::Uppers::notes))]
    fn note_above(&self, a: Expr, b: Expr, known: &mut Vec<Relation>) -> Result<(), NoMemory>
        ensures { OnOk result (known.new.items ≡
            known.old.items ++ rule.at_most (rule.all_above self.now a b self.now.definitions)) }
    {
        let differences = self.definitions.subtracting(a.sym);
        for difference in differences {
            self.note_once(a, b, difference, known)?;
        }
        Ok(())
    }

    /// Where a sum lies before it wraps, of expressions that have these numbers.
    #[tactic(auto, using(crate::proofs::Uppers::both), unfolding(crate::specs::Additions::sum_span, crate::specs::Additions::uppers))]
    fn span_of_sum(&self, a: Expr, r: Span, b: Expr, q: Span) -> Span
        requires first { r ≡ range_of self.now a }
        requires second { q ≡ range_of self.now b }
        requires first_ends { IsSmall r }
        requires second_ends { IsSmall q }
        ensures value { result ≡ rule.sum_span self.now a b }
        ensures bound { IsBounded result.lo }
    {
        let hi = self.cut_by(b, a, self.cut_by(a, b, plus(r.hi, q.hi)));
        Span::between(plus(r.lo, q.lo), hi)
    }

    /// Where a sum lies before it wraps.
    pub(crate) fn sum_span(&self, a: Expr, b: Expr) -> Span
        requires first { IsThere self.now a }
        requires second { IsThere self.now b }
        requires narrow { AreNarrow self.now }
        ensures value { result ≡ rule.sum_span self.now a b }
        ensures bound { IsBounded result.lo }
    {
        self.span_of_sum(a, self.small_range_of(a), b, self.small_range_of(b))
    }

    /// The sum.
    #[tactic(auto, unfolding(crate::specs::Additions::sum))]
    pub(crate) fn sum(&self, a: Expr, b: Expr) -> Outcome
        requires first { IsThere self.now a }
        requires second { IsThere self.now b }
        requires narrow { AreNarrow self.now }
        ensures { result ≡ rule.sum self.now a b }
    {
        let r = self.small_range_of(a);
        if takes(r, b) {
            return Outcome::Is(with_constant(a, b));
        }
        let q = self.small_range_of(b);
        if takes(q, a) {
            return Outcome::Is(with_constant(b, a));
        }
        Outcome::Within(settled_span(self.span_of_sum(a, r, b, q)))
    }

    /// What else is known of a sum.
    #[tactic(auto, using(crate::proofs::Uppers::noted), unfolding(crate::specs::Additions::sum_relations, crate::specs::Additions::uppers))]
    pub(crate) fn sum_relations(&self, a: Expr, b: Expr) -> Result<Vec<Relation>, NoMemory>
        requires first { IsThere self.now a }
        requires second { IsThere self.now b }
        requires narrow { AreNarrow self.now }
        ensures { IfOk result (λ known. known.items ≡ rule.sum_relations self.now a b) }
    {
        let alloc = *self.ranges.allocator();
        let r = self.small_range_of(a);
        let q = self.small_range_of(b);
        if !is_inside(self.span_of_sum(a, r, b, q)) {
            return Ok(Vec::new(alloc));
        }
        let mut known = Vec::with_capacity(alloc, 4)?;
        note_beside(&mut known, a, q)?;
        note_beside(&mut known, b, r)?;
        self.note_above(a, b, &mut known)?;
        self.note_above(b, a, &mut known)?;
        Ok(known)
    }

    /// Where the difference of two symbols lies before it wraps.
    #[tactic(auto, unfolding(crate::specs::Additions::difference_span))]
    pub(crate) fn difference_span(&self, a: Expr, b: Expr) -> Span
        requires first { IsThere self.now a }
        requires second { IsThere self.now b }
        requires narrow { AreNarrow self.now }
        ensures value { result ≡ rule.difference_span self.now a b }
        ensures bound { IsBounded result.lo }
    {
        let r = self.small_range_of(a);
        let q = self.small_range_of(b);
        let more = constants_apart(a, b);
        let lo = raised_by_gap(self.gap(b.sym, a.sym), more, minus(r.lo, q.hi));
        let hi = lowered_by_gap(self.gap(a.sym, b.sym), more, minus(r.hi, q.lo));
        Span::between(lo, hi)
    }

    /// The difference.
    #[tactic(auto, using(crate::proofs::Small::negated_there), unfolding(crate::specs::Additions::difference))]
    pub(crate) fn difference(&self, a: Expr, b: Expr) -> Outcome
        requires first { IsThere self.now a }
        requires second { IsThere self.now b }
        requires narrow { AreNarrow self.now }
        ensures { result ≡ rule.difference self.now a b }
    {
        if b.sym == 0 {
            return self.sum(a, negated(b));
        }
        if a.sym == b.sym {
            return Outcome::Is(constant(i64::from(wrap(constants_apart(a, b)))));
        }
        Outcome::Within(settled_span(self.difference_span(a, b)))
    }

    /// What else is known of a difference.
    #[tactic(auto, using(crate::proofs::Small::negated_there), unfolding(crate::specs::Additions::difference_relations))]
    pub(crate) fn difference_relations(&self, a: Expr, b: Expr) -> Result<Vec<Relation>, NoMemory>
        requires first { IsThere self.now a }
        requires second { IsThere self.now b }
        requires narrow { AreNarrow self.now }
        ensures { IfOk result (λ known. known.items ≡ rule.difference_relations self.now a b) }
    {
        if b.sym == 0 {
            return self.sum_relations(a, negated(b));
        }
        let alloc = *self.ranges.allocator();
        if !is_inside(self.difference_span(a, b)) {
            return Ok(Vec::new(alloc));
        }
        let mut known = Vec::with_capacity(alloc, 3)?;
        known.push(Relation::Is(Def::Sub(a, b)))?;
        note_below(&mut known, a, self.small_range_of(b))?;
        Ok(known)
    }
}
