//! Stores.

ghost use Rattle.std.specs.Prelude.{◌≡◌, ◌-◌, ◌^◌, ◌≤◌, ◌<◌, ◌<ℤ◌, ℕ, ℤ, pos, ◌++◌, ◌∷◌, [], List, map, set, length, if◌then◌else◌, IfOk, OnErr, OnOk};
ghost use Rattle.std.specs.List.{splice};
ghost use Rattle.array_segments.specs.Loading.{start, stop};
ghost use Rattle.array_segments.specs.Meaning.{Holds, IsIndex};
ghost use Rattle.array_segments.specs.SegmentLists.{HasForm, last_bound};
ghost use Rattle.array_segments.specs.Segments.{lists_of};
ghost use Rattle.array_segments.specs.Storing.{around, changed_between, has_left, has_right, left_mark, new_bounds, next_of, replaced_by, right_mark, strongly_stored, weakly_stored};

use crate::bound::{ends_behind, meets, starts_before};
use crate::segments::{Segs, only};
use domain_api::{Expr, NoMemory, Order, Values};
use std::alloc::Global;

/// The segments that a store replaces, from one bound to another, whether something of them stays on either side, and
/// whether that may be empty.
#[derive(Clone, Copy)]
struct Touched {
    from: usize,
    to: usize,
    left: bool,
    right: bool,
    left_mark: bool,
    right_mark: bool,
}

/// Adds the item, if it is to be there.
fn push_if<T: Copy>(items: &mut Vec<T>, there: bool, item: T) -> Result<(), NoMemory>
    ensures { OnOk result (items.new.items ≡ items.old.items ++ (if there then item ∷ [] else [])) }
{
    if there {
        items.push(item)?;
    }
    Ok(())
}

/// The items with those that are touched replaced by one, and by what stays beside it.
fn refilled<T: Copy>(
    alloc: Global,
    items: &[T],
    touched: Touched,
    before: T,
    middle: T,
    behind: T,
) -> Result<Vec<T>, NoMemory>
    requires few { length items.now < 2 ^ 32 }
    requires order { touched.from ≤ touched.to }
    requires within { touched.to ≤ length items.now }
    ensures { IfOk result (λ new. new.items
        ≡ splice items.now touched.from touched.to (around touched.left touched.right before middle behind)) }
{
    let mut new = Vec::with_capacity(alloc, items.len() + 2)?;
    new.extend_from_slice(&items[..touched.from])?;
    push_if(&mut new, touched.left, before)?;
    new.push(middle)?;
    push_if(&mut new, touched.right, behind)?;
    new.extend_from_slice(&items[touched.to..])?;
    Ok(new)
}

/// Adds a bound of the expression alone, if it is to be there.
fn push_bound(
    alloc: Global,
    bounds: &mut Vec<Vec<Expr>>,
    there: bool,
    expr: Expr,
) -> Result<(), NoMemory>
    ensures { OnOk result (map (λ bound. bound.items) bounds.new.items
        ≡ map (λ bound. bound.items) bounds.old.items ++ (if there then (expr ∷ []) ∷ [] else [])) }
{
    if there {
        bounds.push(only(alloc, expr)?)?;
    }
    Ok(())
}

/// The bounds of the index alone.
fn bounds_of_index(
    alloc: Global,
    touched: Touched,
    at: Expr,
    next: Expr,
) -> Result<Vec<Vec<Expr>>, NoMemory>
    requires next { next ≡ next_of at }
    ensures { IfOk result (λ new. map (λ bound. bound.items) new.items ≡ new_bounds touched.left touched.right at) }
{
    let mut new = Vec::with_capacity(alloc, 2)?;
    push_bound(alloc, &mut new, touched.left, at)?;
    push_bound(alloc, &mut new, touched.right, next)?;
    Ok(new)
}

/// Adds the value to each content from one place to another.
#[tactic(auto, using(crate::proofs::StoreSteps::added_more, crate::proofs::StoreSteps::changed_all))]
fn add_between<C: Values>(contents: &mut [C], from: usize, to: usize, value: &C)
    requires order { from ≤ to }
    requires within { to ≤ length contents.old }
    ensures { contents.new ≡ changed_between (λ content. C.hull content value.now) from to contents.old }
{
    for place in from..to {
        contents[place] = contents[place].hull(value);
    }
}

impl<C: Values> Segs<C> {
    /// Adds the value to each content that the item at the index may be in.
    #[tactic(auto, using(crate::proofs::StoreSteps::added_form, crate::proofs::StoreSteps::changed_length))]
    fn add_at<O: Order>(&mut self, order: &O, at: Expr, value: C)
        requires form { HasForm (lists_of self.old) }
        ensures value { lists_of self.new ≡ weakly_stored C.hull (O.gap order.now) (lists_of self.old) at value }
        ensures form { HasForm (lists_of self.new) }
    {
        let from = self.start(order, at);
        let to = self.stop(order, from, at);
        add_between(&mut self.contents, from, to, &value);
    }

    /// Adds the value to each content that the item at the index may be in. This is a store to an array that may be
    /// this one or another, where the index may lie outside. It looks at each bound once, and takes no memory.
    pub fn weak_store<O: Order>(&mut self, order: &O, at: Expr, value: C)
        requires form { HasForm (lists_of self.old) }
        ensures value { lists_of self.new ≡ weakly_stored C.hull (O.gap order.now) (lists_of self.old) at value }
        ensures form { HasForm (lists_of self.new) }
        ensures ends { last_bound (lists_of self.new) ≡ last_bound (lists_of self.old) }
        ensures keeps { (number : ℕ → ℤ) (items : List ℤ) (index : ℕ) (n : ℤ) → O.allows order.now number
            → Holds C.contains number items (lists_of self.old) → IsIndex number at items index → C.contains value n
            → Holds C.contains number (set items index n) (lists_of self.new) }
        ensures keeps_other { (number : ℕ → ℤ) (items : List ℤ) → Holds C.contains number items (lists_of self.old)
            → Holds C.contains number items (lists_of self.new) }
    {
        self.add_at(order, at, value);
    }

    /// Returns the segments that a store replaces, and what stays of them.
    fn touched<O: Order>(&self, order: &O, at: Expr, next: Expr) -> Touched
        requires form { HasForm (lists_of self.now) }
        requires next { next ≡ next_of at }
        ensures from { result.from ≡ start (O.gap order.now) (lists_of self.now) at }
        ensures to { result.to ≡ stop (O.gap order.now) (lists_of self.now) at }
        ensures left { result.left ≡ has_left (O.gap order.now) (lists_of self.now) at result.from }
        ensures right { result.right ≡ has_right (O.gap order.now) (lists_of self.now) at result.to }
        ensures left_mark { result.left_mark ≡ left_mark (O.gap order.now) (lists_of self.now) at result.from }
        ensures right_mark { result.right_mark ≡ right_mark (O.gap order.now) (lists_of self.now) at result.to }
        ensures order { result.from < result.to }
        ensures within { result.to ≤ length self.now.contents.items }
    {
        let from = self.start(order, at);
        let to = self.stop(order, from, at);
        let low = &self.bounds[from];
        let high = &self.bounds[to];
        Touched {
            from,
            to,
            left: !meets(order, low, at),
            right: !meets(order, high, next),
            left_mark: !starts_before(order, low, at),
            right_mark: !ends_behind(order, high, next),
        }
    }

    /// Replaces the segments that are touched.
    fn replace(
        &mut self,
        alloc: Global,
        touched: Touched,
        at: Expr,
        next: Expr,
        value: C,
    ) -> Result<(), NoMemory>
        requires form { HasForm (lists_of self.old) }
        requires next { next ≡ next_of at }
        requires order { touched.from < touched.to }
        requires within { touched.to ≤ length self.old.contents.items }
        ensures value { OnOk result (lists_of self.new
            ≡ replaced_by C.hull C.full (lists_of self.old) at value touched.from touched.to touched.left
            touched.right touched.left_mark touched.right_mark) }
        ensures unchanged { OnErr result (lists_of self.new ≡ lists_of self.old) }
    {
        let outer = self.hull_between(touched.from, touched.to);
        let contents = refilled(alloc, &self.contents, touched, outer, value, outer)?;
        let marks = refilled(
            alloc,
            &self.marks,
            touched,
            touched.left_mark,
            false,
            touched.right_mark,
        )?;
        let inner = bounds_of_index(alloc, touched, at, next)?;
        let _ = self.bounds.splice(touched.from + 1..touched.to, inner)?;
        self.contents = contents;
        self.marks = marks;
        Ok(())
    }

    /// Replaces the item at the index, in this array itself. Where memory runs out the segments stay.
    ///
    /// It looks at each bound once, and moves what lies behind the segments that the index may be in.
    pub fn strong_store<O: Order>(
        &mut self,
        alloc: Global,
        order: &O,
        at: Expr,
        value: C,
    ) -> Result<(), NoMemory>
        requires form { HasForm (lists_of self.old) }
        requires next { at.k <ℤ pos (2 ^ 63 - 1) }
        ensures value { OnOk result (lists_of self.new
            ≡ strongly_stored C.hull C.full (O.gap order.now) (lists_of self.old) at value) }
        ensures form { HasForm (lists_of self.new) }
        ensures ends { OnOk result (last_bound (lists_of self.new) ≡ last_bound (lists_of self.old)) }
        ensures keeps { OnOk result ((number : ℕ → ℤ) (items : List ℤ) (index : ℕ) (n : ℤ) → O.allows order.now number
            → Holds C.contains number items (lists_of self.old) → IsIndex number at items index → C.contains value n
            → Holds C.contains number (set items index n) (lists_of self.new)) }
        ensures unchanged { OnErr result (lists_of self.new ≡ lists_of self.old) }
    {
        let next = Expr {
            sym: at.sym,
            k: at.k + 1,
        };
        let touched = self.touched(order, at, next);
        self.replace(alloc, touched, at, next, value)?;
        self.keep_limit();
        Ok(())
    }
}
