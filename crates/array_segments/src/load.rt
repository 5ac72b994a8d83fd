//! Loads, and the segments that an index may lie in.

ghost use Rattle.std.specs.Prelude.{◌≡◌, ◌≤◌, ◌<◌, ℕ, ℤ, List, map, drop, length};
ghost use Rattle.std.specs.List.{reduce};
ghost use Rattle.array_segments.specs.Comparing.{starts_by, ends_behind};
ghost use Rattle.array_segments.specs.Loading.{first_place, hull_between, last_place, loaded, start, stop_from};
ghost use Rattle.array_segments.specs.Meaning.{Holds, IsIndex, item};
ghost use Rattle.array_segments.specs.SegmentLists.{HasForm};
ghost use Rattle.array_segments.specs.Segments.{lists_of};

use crate::bound::{ends_behind, starts_by};
use crate::segments::Segs;
use domain_api::{Expr, Order, Values};

/// The last of these bounds that is shown to be at most the index, or the first of all.
#[tactic(auto, using(crate::proofs::PlaceSteps::last_place_more))]
fn last_start<O: Order>(order: &O, bounds: &[Vec<Expr>], at: Expr) -> usize
    ensures value { result ≡ last_place (starts_by (O.gap order.now) at) 0 0 (map (λ bound. bound.items) bounds.now) }
    ensures below { 0 < length bounds.now → result < length bounds.now }
{
    let mut start = 0;
    for (place, bound) in bounds.iter().enumerate() {
        if starts_by(order, bound, at) {
            start = place;
        }
    }
    start
}

/// The first of these bounds, from a place on, that is shown to be above the index, or the place behind all.
#[tactic(auto, using(crate::proofs::PlaceSteps::first_place_more))]
fn first_end<O: Order>(order: &O, bounds: &[Vec<Expr>], from: usize, at: Expr) -> usize
    requires { from ≤ length bounds.now }
    ensures value { result
        ≡ first_place (ends_behind (O.gap order.now) at) from (map (λ bound. bound.items) (drop from bounds.now)) }
    ensures above { from ≤ result }
    ensures within { result ≤ length bounds.now }
{
    for place in from..bounds.len() {
        if ends_behind(order, &bounds[place], at) {
            return place;
        }
    }
    bounds.len()
}

/// The hull of some sets, from the left; of none, nothing.
#[tactic(auto, using(crate::proofs::PlaceSteps::fold_more))]
pub(crate) fn hull_of<C: Values>(contents: &[C]) -> Option<C>
    ensures { result ≡ reduce C.hull contents.now }
{
    let (first, others) = contents.split_first()?;
    let mut hull = *first;
    for content in others {
        hull = hull.hull(content);
    }
    Some(hull)
}

impl<C: Values> Segs<C> {
    /// The bound where the segments begin that may have the index.
    #[tactic(auto, using(crate::proofs::PlaceSteps::starts_as_lists))]
    pub(crate) fn start<O: Order>(&self, order: &O, at: Expr) -> usize
        requires { HasForm (lists_of self.now) }
        ensures value { result ≡ start (O.gap order.now) (lists_of self.now) at }
        ensures below { result < length self.now.contents.items }
    {
        last_start(order, &self.bounds[..self.contents.len()], at)
    }

    /// The bound where they end.
    #[tactic(auto, using(crate::proofs::PlaceSteps::rest_as_lists))]
    pub(crate) fn stop<O: Order>(&self, order: &O, from: usize, at: Expr) -> usize
        requires form { HasForm (lists_of self.now) }
        requires from { from < length self.now.contents.items }
        ensures value { result ≡ stop_from (O.gap order.now) (lists_of self.now) at from }
        ensures above { from < result }
        ensures within { result ≤ length self.now.contents.items }
    {
        first_end(order, &self.bounds[..self.contents.len()], from + 1, at)
    }

    /// Returns a set that has what the segments from one bound to another have.
    pub(crate) fn hull_between(&self, from: usize, to: usize) -> C
        requires order { from ≤ to }
        requires within { to ≤ length self.now.contents.items }
        ensures { result ≡ hull_between C.hull C.full self.now.contents.items from to }
    {
        match hull_of(&self.contents[from..to]) {
            Some(hull) => hull,
            None => C::full(),
        }
    }

    /// Returns a set that has the item at the index. It looks at each bound once, and takes no memory.
    pub fn load<O: Order>(&self, order: &O, at: Expr) -> C
        requires form { HasForm (lists_of self.now) }
        ensures value { result ≡ loaded C.hull C.full (O.gap order.now) (lists_of self.now) at }
        ensures sound { (number : ℕ → ℤ) (items : List ℤ) (index : ℕ) → O.allows order.now number
            → Holds C.contains number items (lists_of self.now) → IsIndex number at items index
            → C.contains result (item items index) }
    {
        let start = self.start(order, at);
        let stop = self.stop(order, start, at);
        self.hull_between(start, stop)
    }
}
