//! Segments that are shown to say at least as much as others.

ghost use Rattle.std.specs.Prelude.{◌≡◌, ◌+◌, ◌^◌, ◌<◌, ◌≤◌, ◌+ℤ◌, ◌-ℤ◌, ◌≤ℤ◌, ℕ, ℤ, pos, negsuc, true, ◌&&◌, List, None, Some, [], drop, get_or, is_some, length, map};
ghost use Rattle.std.specs.List.{list_all, list_any};
ghost use Rattle.domain_api.specs.declared.expr.Expr.{Expr};
ghost use Rattle.array_segments.specs.Inclusion.{all_equal, all_shown, are_within, as_own, both_at_most, both_below, both_equal, equals_rest, includes, is_shown, leads, leads_strictly, mapped, more_than};
ghost use Rattle.array_segments.specs.Loading.{first_place, last_place};
ghost use Rattle.array_segments.specs.Meaning.{AreNames, Holds, segments_of, worth};
ghost use Rattle.array_segments.specs.SegmentLists.{Has, HasForm, last_bound};
ghost use Rattle.array_segments.specs.Segments.{lists_of};

use crate::growing::SegmentView;
use crate::segments::Segs;
use domain_api::{Expr, Order, Values, gap_is_at_least};

/// The expression of a name, and a number added to it. Without a name, none.
#[derive(Clone, Copy)]
struct Moved {
    name: Option<Expr>,
    k: i64,
}

/// The name of a symbol.
fn name_of(names: &[Option<Expr>], symbol: u32) -> Option<Expr>
    ensures { result ≡ get_or names.now symbol None }
{
    match names.get(symbol as usize) {
        Some(name) => *name,
        None => None,
    }
}

/// An expression of the other side in this side's names.
fn in_names(names: &[Option<Expr>], expr: Expr) -> Moved
    ensures { more_than result.name result.k ≡ mapped names.now expr }
{
    Moved {
        name: name_of(names, expr.sym),
        k: expr.k,
    }
}

/// An expression of this side.
#[tactic(auto, using(crate::proofs::InclusionSteps::none_more))]
fn own(expr: Expr) -> Moved
    ensures { more_than result.name result.k ≡ Some expr }
{
    Moved {
        name: Some(expr),
        k: 0,
    }
}

/// The sum of two numbers.
fn sum(x: i64, a: i64) -> i128
    ensures value { result ≡ x +ℤ a }
    ensures low { negsuc (2 ^ 64) ≤ℤ result }
    ensures high { result ≤ℤ pos (2 ^ 64) }
{
    i128::from(x) + i128::from(a)
}

/// Returns how far the second would have to lie above the first.
fn distance(x: i128, y: i128) -> i128
    requires x_low { negsuc (2 ^ 64) ≤ℤ x }
    requires x_high { x ≤ℤ pos (2 ^ 64) }
    requires y_low { negsuc (2 ^ 64) ≤ℤ y }
    requires y_high { y ≤ℤ pos (2 ^ 64) }
    ensures { result ≡ x -ℤ y }
{
    x - y
}

/// The same, where it is to lie above it and not at it.
fn distance_above(x: i128, y: i128) -> i128
    requires x_low { negsuc (2 ^ 64) ≤ℤ x }
    requires x_high { x ≤ℤ pos (2 ^ 64) }
    requires y_low { negsuc (2 ^ 64) ≤ℤ y }
    requires y_high { y ≤ℤ pos (2 ^ 64) }
    ensures { result ≡ (x -ℤ y) +ℤ pos 1 }
{
    x - y + 1
}

/// Tells whether both are there and the first is shown to be at most the second.
fn is_at_most<O: Order>(order: &O, a: Moved, b: Moved) -> bool
    ensures { result ≡ both_at_most (O.gap order.now) (more_than a.name a.k) (more_than b.name b.k) }
{
    let Some(x) = a.name else {
        return false;
    };
    let Some(y) = b.name else {
        return false;
    };
    gap_is_at_least(
        order.gap(x.sym, y.sym),
        distance(sum(x.k, a.k), sum(y.k, b.k)),
    )
}

/// Tells whether both are there and the first is shown to be below the second.
fn is_below<O: Order>(order: &O, a: Moved, b: Moved) -> bool
    ensures { result ≡ both_below (O.gap order.now) (more_than a.name a.k) (more_than b.name b.k) }
{
    let Some(x) = a.name else {
        return false;
    };
    let Some(y) = b.name else {
        return false;
    };
    gap_is_at_least(
        order.gap(x.sym, y.sym),
        distance_above(sum(x.k, a.k), sum(y.k, b.k)),
    )
}

/// Tells whether the first is shown to be equal to an expression of the other side.
fn equals_other<O: Order>(order: &O, names: &[Option<Expr>], a: Moved, b: Expr) -> bool
    ensures { result ≡ both_equal (O.gap order.now) (more_than a.name a.k) (mapped names.now b) }
{
    let other = in_names(names, b);
    is_at_most(order, a, other) && is_at_most(order, other, a)
}

/// Tells whether an expression of the other side is shown to be at most one of a bound of that side.
fn one_leads<O: Order>(order: &O, names: &[Option<Expr>], a: Expr, second: &[Expr]) -> bool
    ensures { result
        ≡ list_any (λ b. both_at_most (O.gap order.now) (mapped names.now a) (mapped names.now b)) second.now }
{
    let first = in_names(names, a);
    second
        .iter()
        .any(|b| is_at_most(order, first, in_names(names, *b)))
}

/// Tells whether an expression of the other side is shown to be below one of a bound of that side.
fn one_leads_strictly<O: Order>(order: &O, names: &[Option<Expr>], a: Expr, second: &[Expr]) -> bool
    ensures { result
        ≡ list_any (λ b. both_below (O.gap order.now) (mapped names.now a) (mapped names.now b)) second.now }
{
    let first = in_names(names, a);
    second
        .iter()
        .any(|b| is_below(order, first, in_names(names, *b)))
}

/// Tells whether an expression of the other side is shown to be at most one of a bound of this side.
fn one_leads_own<O: Order>(order: &O, names: &[Option<Expr>], a: Expr, second: &[Expr]) -> bool
    ensures { result ≡ list_any (λ b. both_at_most (O.gap order.now) (mapped names.now a) (as_own b)) second.now }
{
    let first = in_names(names, a);
    second.iter().any(|b| is_at_most(order, first, own(*b)))
}

/// Tells whether an expression of this side is shown to be at most one of a bound of the other side.
fn one_own_leads<O: Order>(order: &O, names: &[Option<Expr>], a: Expr, second: &[Expr]) -> bool
    ensures { result ≡ list_any (λ b. both_at_most (O.gap order.now) (as_own a) (mapped names.now b)) second.now }
{
    let first = own(a);
    second
        .iter()
        .any(|b| is_at_most(order, first, in_names(names, *b)))
}

/// Tells whether the other side's first bound is shown to be at most its second one.
fn leads<O: Order>(order: &O, names: &[Option<Expr>], first: &[Expr], second: &[Expr]) -> bool
    ensures { result ≡ leads (O.gap order.now) (mapped names.now) (mapped names.now) first.now second.now }
{
    first.iter().any(|a| one_leads(order, names, *a, second))
}

/// Tells whether the other side's first bound is shown to be below its second one.
fn leads_strictly<O: Order>(
    order: &O,
    names: &[Option<Expr>],
    first: &[Expr],
    second: &[Expr],
) -> bool
    ensures { result ≡ leads_strictly (O.gap order.now) (mapped names.now) (mapped names.now) first.now second.now }
{
    first
        .iter()
        .any(|a| one_leads_strictly(order, names, *a, second))
}

/// Tells whether a bound of this side is shown to be at most one of the other side.
fn own_leads<O: Order>(order: &O, names: &[Option<Expr>], first: &[Expr], second: &[Expr]) -> bool
    ensures { result ≡ leads (O.gap order.now) as_own (mapped names.now) first.now second.now }
{
    first
        .iter()
        .any(|a| one_own_leads(order, names, *a, second))
}

/// Tells whether a bound of the other side is shown to be at most one of this side.
fn leads_own<O: Order>(order: &O, names: &[Option<Expr>], first: &[Expr], second: &[Expr]) -> bool
    ensures { result ≡ leads (O.gap order.now) (mapped names.now) as_own first.now second.now }
{
    first
        .iter()
        .any(|a| one_leads_own(order, names, *a, second))
}

/// Tells whether an expression of the other side is shown to be equal to each of some.
fn equals_each<O: Order>(order: &O, names: &[Option<Expr>], first: Expr, others: &[Expr]) -> bool
    ensures { result
        ≡ list_all (λ other. both_equal (O.gap order.now) (mapped names.now first) (mapped names.now other))
        others.now }
{
    let first = in_names(names, first);
    others
        .iter()
        .all(|other| equals_other(order, names, first, *other))
}

/// Tells whether an expression of the other side has a name.
fn has_name(names: &[Option<Expr>], expr: Expr) -> bool
    ensures { result ≡ is_some (mapped names.now expr) }
{
    match name_of(names, expr.sym) {
        Some(_) => true,
        None => false,
    }
}

/// Tells whether an expression of the other side has a name, and is shown to be equal to each of the others.
fn equals_rest<O: Order>(order: &O, names: &[Option<Expr>], first: Expr, others: &[Expr]) -> bool
    ensures { result ≡ equals_rest (O.gap order.now) names.now first others.now }
{
    has_name(names, first) && equals_each(order, names, first, others)
}

/// Tells whether all expressions of a bound of the other side have names, and are shown to be equal.
#[tactic(auto, using(crate::proofs::InclusionSteps::all_equal_more))]
fn all_equal<O: Order>(order: &O, names: &[Option<Expr>], bound: &[Expr]) -> bool
    ensures { result ≡ all_equal (O.gap order.now) names.now bound.now }
{
    for place in 0..bound.len() {
        if !equals_rest(order, names, bound[place], &bound[place + 1..]) {
            return false;
        }
    }
    true
}

/// Tells whether that is so of each bound.
#[tactic(auto, using(crate::proofs::InclusionSteps::list_all_more))]
fn each_all_equal<O: Order>(order: &O, names: &[Option<Expr>], bounds: &[Vec<Expr>]) -> bool
    ensures { result
        ≡ list_all (λ bound. all_equal (O.gap order.now) names.now bound) (map (λ bound. bound.items) bounds.now) }
{
    for bound in bounds {
        if !all_equal(order, names, bound) {
            return false;
        }
    }
    true
}

/// The last of these bounds that is shown to be at most the other side's one, or the first of all.
#[tactic(auto, using(crate::proofs::PlaceSteps::last_place_more))]
fn last_before<O: Order>(
    order: &O,
    names: &[Option<Expr>],
    bounds: &[Vec<Expr>],
    low: &[Expr],
) -> usize
    ensures { result
        ≡ last_place (λ x. leads (O.gap order.now) as_own (mapped names.now) x low.now) 0 0
        (map (λ bound. bound.items) bounds.now) }
{
    let mut last = 0;
    for (place, bound) in bounds.iter().enumerate() {
        if own_leads(order, names, bound, low) {
            last = place;
        }
    }
    last
}

/// The first of these bounds that is shown to be at least the other side's one, or the place behind all.
#[tactic(auto, using(crate::proofs::PlaceSteps::first_place_more))]
fn first_behind<O: Order>(
    order: &O,
    names: &[Option<Expr>],
    bounds: &[Vec<Expr>],
    high: &[Expr],
) -> usize
    ensures value { result
        ≡ first_place (λ x. leads (O.gap order.now) (mapped names.now) as_own high.now x) 0
        (map (λ bound. bound.items) bounds.now) }
    ensures inside { result ≤ length bounds.now }
{
    for place in 0..bounds.len() {
        if leads_own(order, names, high, &bounds[place]) {
            return place;
        }
    }
    bounds.len()
}

/// Tells whether each content is shown to be within another one.
fn all_within<C: Values>(contents: &[C], content: &C) -> bool
    ensures { result ≡ list_all (λ mine. C.within mine content.now) contents.now }
{
    contents.iter().all(|mine| mine.within(content))
}

impl<C: Values> Segs<C> {
    /// Tells whether the items between two bounds of the other side are shown to be in the content.
    #[tactic(auto, using(crate::proofs::PlaceSteps::starts_as_lists, crate::proofs::InclusionSteps::none_between))]
    fn are_within<O: Order>(
        &self,
        order: &O,
        names: &[Option<Expr>],
        content: &C,
        low: &[Expr],
        high: &[Expr],
    ) -> bool
        requires { HasForm (lists_of self.now) }
        ensures { result
            ≡ are_within C.within (O.gap order.now) names.now (lists_of self.now) content.now low.now high.now }
    {
        let from = last_before(order, names, &self.bounds, low);
        let to = first_behind(order, names, &self.bounds[..self.contents.len()], high);
        if to <= from {
            return true;
        }
        all_within(&self.contents[from..to], content)
    }

    /// Tells whether a segment of the other side, behind a bound, is shown to hold.
    fn shows<O: Order>(
        &self,
        order: &O,
        names: &[Option<Expr>],
        low: &[Expr],
        segment: SegmentView<'_, C>,
    ) -> bool
        requires { HasForm (lists_of self.now) }
        ensures { result
            ≡ is_shown C.within (O.gap order.now) names.now (lists_of self.now) low.now
            (record {
              content = segment.entry.content;
              may_be_empty = segment.entry.mark;
              upper = segment.entry.upper.now;
            }) }
    {
        let high = segment.upper;
        leads(order, names, low, high)
            && (segment.mark || leads_strictly(order, names, low, high))
            && (leads(order, names, high, low)
                || self.are_within(order, names, &segment.content, low, high))
    }

    /// Tells whether the segment at a place of the other side is shown to hold.
    fn shows_at<O: Order>(
        &self,
        other: &Self,
        order: &O,
        names: &[Option<Expr>],
        place: usize,
    ) -> bool
        requires form { HasForm (lists_of self.now) }
        requires other { HasForm (lists_of other.now) }
        requires place { place < length other.now.contents.items }
        ensures { all_shown C.within (O.gap order.now) names.now (lists_of self.now)
            (get_or (lists_of other.now).bounds place [])
            (drop place (segments_of (lists_of other.now)))
            ≡ (result && all_shown C.within (O.gap order.now) names.now (lists_of self.now)
            (get_or (lists_of other.now).bounds (place + 1) [])
            (drop (place + 1) (segments_of (lists_of other.now)))) }
    {
        let low = other.bounds[place].as_slice();
        let segment = other.segment(place);
        self.shows(order, names, low, segment)
    }

    /// Tells whether each segment of the other side is shown to hold.
    #[tactic(auto, using(crate::proofs::InclusionSteps::shown_past))]
    fn shows_all<O: Order>(&self, other: &Self, order: &O, names: &[Option<Expr>]) -> bool
        requires form { HasForm (lists_of self.now) }
        requires other { HasForm (lists_of other.now) }
        ensures { result
            ≡ all_shown C.within (O.gap order.now) names.now (lists_of self.now)
            (get_or (lists_of other.now).bounds 0 []) (segments_of (lists_of other.now)) }
    {
        for place in 0..other.contents.len() {
            if !self.shows_at(other, order, names, place) {
                return false;
            }
        }
        true
    }

    /// Tells whether these segments are shown to say at least as much as the other ones.
    fn includes<O: Order>(&self, other: &Self, order: &O, names: &[Option<Expr>]) -> bool
        requires form { HasForm (lists_of self.now) }
        requires other { HasForm (lists_of other.now) }
        ensures { result
            ≡ includes C.within (O.gap order.now) names.now (lists_of self.now) (lists_of other.now) }
    {
        each_all_equal(order, names, &other.bounds) && self.shows_all(other, order, names)
    }

    /// Tells whether these segments are shown to say at least as much as the other ones, whose symbols the map names
    /// by expressions of this side. Where an expression has no name, the answer is false. It takes no memory.
    ///
    /// For each bound of the other side each bound of this one is looked at, and the order is asked once for each pair
    /// of their expressions, so many times for a segment.
    pub fn leq_under<O: Order>(&self, other: &Self, order: &O, map: &[Option<Expr>]) -> bool
        requires form { HasForm (lists_of self.now) }
        requires other { HasForm (lists_of other.now) }
        ensures value { result
            ≡ includes C.within (O.gap order.now) map.now (lists_of self.now) (lists_of other.now) }
        ensures sound { result ≡ true → (number theirs : ℕ → ℤ) (items : List ℤ) (end : Expr)
            → O.allows order.now number → AreNames map.now theirs number → theirs 0 ≡ pos 0
            → Has end (last_bound (lists_of other.now)) → worth theirs end ≡ pos (length items)
            → Holds C.contains number items (lists_of self.now) → Holds C.contains theirs items (lists_of other.now) }
    {
        self.includes(other, order, map)
    }
}
