//! Segments in other names of their bounds.

ghost use Rattle.std.specs.Prelude.{◌≡◌, ◌<◌, ◌++◌, ◌∷◌, ℕ, ℤ, length, get_or, IfOk, OnOk, List, None, Some};
ghost use Rattle.std.specs.List.{filter_map};
ghost use Rattle.std.specs.Option.{option_to_list};
ghost use Rattle.symbolic_values.specs.Names.{renamed};
ghost use Rattle.array_segments.specs.Growing.{with_more};
ghost use Rattle.array_segments.specs.Meaning.{AreNames, Holds, Segment};
ghost use Rattle.array_segments.specs.Renaming.{joined, renamed_from, renamed_lists};
ghost use Rattle.array_segments.specs.SegmentLists.{HasForm, last_bound, zero_expr};
ghost use Rattle.array_segments.specs.Segments.{lists_of};

use crate::growing::SegmentView;
use crate::segments::Segs;
use domain_api::{Expr, NoMemory, Values};
use std::alloc::Global;
use symbolic_values::renamed;

/// The items before a bound that is left out, as far as they are known.
#[derive(Clone, Copy)]
pub(crate) struct Part<C> {
    pub content: C,
    pub mark: bool,
}

/// Adds the expression, if there is one.
fn push_some(list: &mut Vec<Expr>, expr: Option<Expr>) -> Result<(), NoMemory>
    ensures { OnOk result (list.new.items ≡ list.old.items ++ option_to_list expr) }
{
    match expr {
        None => Ok(()),
        Some(some) => {
            list.push(some)?;
            Ok(())
        }
    }
}

/// The expressions of a bound in other names, without those that have none.
#[tactic(auto, using(crate::proofs::NameSteps::named_more))]
fn renamed_bound(
    alloc: Global,
    names: &[Option<Expr>],
    bound: &[Expr],
) -> Result<Vec<Expr>, NoMemory>
    ensures { IfOk result (λ new. new.items ≡ filter_map (renamed names.now) bound.now) }
{
    let mut new = Vec::with_capacity(alloc, bound.len())?;
    for expr in bound {
        push_some(&mut new, renamed(*expr, names))?;
    }
    Ok(new)
}

/// A part behind another one, if there is one.
fn joined<C: Values>(before: Option<Part<C>>, part: Part<C>) -> Part<C>
    ensures { result ≡ joined C.hull before part }
{
    match before {
        None => part,
        Some(first) => Part {
            content: first.content.hull(&part.content),
            mark: first.mark && part.mark,
        },
    }
}

/// The segments that are made so far, and the part that is left before the next bound.
#[derive(Drop)]
struct Renaming<C> {
    made: Segs<C>,
    held: Option<Part<C>>,
}

impl<C: Values> Renaming<C> {
    /// Takes the next segment.
    #[tactic(auto, using(crate::proofs::NameSteps::placed_none, crate::proofs::NameSteps::placed_some))]
    fn take(
        &mut self,
        alloc: Global,
        names: &[Option<Expr>],
        segment: SegmentView<'_, C>,
    ) -> Result<(), NoMemory>
        ensures { OnOk result ((rest : List (Segment C)) →
            with_more (lists_of self.new.made) (renamed_from C.hull (renamed names.now) self.new.held rest)
            ≡ with_more (lists_of self.old.made) (renamed_from C.hull (renamed names.now) self.old.held
            (record {
              content = segment.entry.content;
              may_be_empty = segment.entry.mark;
              upper = segment.entry.upper.now;
            } ∷ rest))) }
    {
        let part = joined(
            self.held,
            Part {
                content: segment.content,
                mark: segment.mark,
            },
        );
        let bound = renamed_bound(alloc, names, segment.upper)?;
        if bound.is_empty() {
            self.held = Some(part);
            return Ok(());
        }
        self.made.add(part.content, part.mark, bound)?;
        self.held = None;
        Ok(())
    }
}

impl<C: Values> Segs<C> {
    /// The segments in other names: of each symbol at its place, or None where it is dropped. An expression goes where
    /// its symbol is dropped or its constant leaves 64 bits, and a bound that has none left makes one segment of its
    /// neighbours.
    pub fn renamed(&self, alloc: Global, names: &[Option<Expr>]) -> Result<Self, NoMemory>
        requires form { HasForm (lists_of self.now) }
        requires zero { get_or names.now 0 None ≡ Some zero_expr }
        requires ends { 0 < length (filter_map (renamed names.now) (last_bound (lists_of self.now))) }
        ensures value { IfOk result (λ new. lists_of new
            ≡ renamed_lists C.hull (renamed names.now) (lists_of self.now)) }
        ensures form { IfOk result (λ new. HasForm (lists_of new)) }
        ensures ends { IfOk result (λ new. last_bound (lists_of new)
            ≡ filter_map (renamed names.now) (last_bound (lists_of self.now))) }
        ensures keeps { IfOk result (λ new. (before number : ℕ → ℤ) (items : List ℤ) → AreNames names.now before number
            → Holds C.contains before items (lists_of self.now) → Holds C.contains number items (lists_of new)) }
    {
        let first = renamed_bound(alloc, names, &self.bounds[0])?;
        let made = Segs::begun(alloc, first, self.contents.len())?;
        let mut renaming = Renaming { made, held: None };
        for place in 0..self.contents.len() {
            renaming.take(alloc, names, self.segment(place))?;
        }
        let Renaming { made, held: _ } = renaming;
        Ok(made)
    }
}
