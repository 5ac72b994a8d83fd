//! Bounds that tell no more than what is stored and what the spans tell.

ghost use Rattle.std.specs.Prelude.{◌≡◌, ◌==◌, not, [], None, slice_index_or, IfOk, IfSome, IsTrue};
ghost use Rattle.std.specs.List.{list_all};
ghost use Rattle.pentagon_domain.specs.Rows.{rows_from};
ghost use Rattle.merged_numbers.specs.Known.{known};
ghost use Rattle.merged_numbers.specs.Rows as rule;
ghost use Rattle.merged_numbers.specs.Rows.{IsRow, IsTight};
ghost use Rattle.merged_numbers.specs.Settled.{ends_of};
ghost use Rattle.pentagon_domain.specs.Tight.{AreTightOver};

use crate::settled::ends_at;
use crate::side::Side;
use domain_api::{NoMemory, gap_is_at_least};
use interval_domain::Range;
use number_spans::{Span, sum_of};
use pentagon_domain::{BoundRow, Bounds, BoundsBuilder, Ends};
use std::alloc::Global;

/// Of fewer bounds it is not noted whether they are tight, and no search among them is worth its cost.
const FEW: usize = 24;

/// Returns whether none of these bounds goes from a symbol.
fn go_from_others(rows: &[BoundRow], s: u32) -> bool
    ensures { result ≡ list_all (λ row. not (row.s == s)) rows.now }
{
    rows.iter().all(|row| row.s != s)
}

/// Returns whether a span lies between ends.
fn is_between(ends: Ends, span: Span) -> bool
    ensures { result ≡ rule.is_between ends span }
{
    i128::from(ends.lo) <= span.lo && span.hi <= i128::from(ends.hi)
}

/// Returns whether each symbol that has ends has a span between them.
#[tactic(auto, using(crate::proofs::TightLaws::betweens))]
fn are_between(ends: &[Ends], spans: &[Span]) -> bool
    ensures { result ≡ rule.are_between ends.now spans.now }
{
    if spans.len() < ends.len() {
        return false;
    }
    for s in 0..ends.len() {
        if !is_between(ends[s], spans[s]) {
            return false;
        }
    }
    true
}

/// What is written of a symbol, if it has a place.
fn written(row: &[Option<i64>], t: u32) -> Option<i64>
    ensures { result ≡ slice_index_or row.now t None }
{
    match row.get(t as usize) {
        None => None,
        Some(gap) => *gap,
    }
}

/// Returns whether a bound behind one from s goes back to s, or both together are no more than what is written of
/// where it goes. So it is of each bound that goes from elsewhere.
fn adds_nothing(row: &[Option<i64>], s: u32, first: &BoundRow, next: &BoundRow) -> bool
    ensures { result ≡ rule.adds_nothing row.now s first.now next.now }
{
    next.s != first.t
        || next.t == s
        || gap_is_at_least(written(row, next.t), sum_of(first.k, next.k))
}

/// Returns whether this is so of each of these bounds.
fn each_adds_nothing(rows: &[BoundRow], row: &[Option<i64>], s: u32, first: &BoundRow) -> bool
    ensures { result ≡ list_all (rule.adds_nothing row.now s first.now) rows.now }
{
    rows.iter().all(|next| adds_nothing(row, s, first, next))
}

/// Returns whether this is so behind a bound, if it goes from s.
fn add_nothing(rows: &[BoundRow], row: &[Option<i64>], s: u32, first: &BoundRow) -> bool
    ensures { result ≡ rule.add_nothing rows.now row.now s first.now }
{
    first.s != s || each_adds_nothing(rows, row, s, first)
}

/// Returns whether this is so behind each bound from s.
fn all_add_nothing(rows: &[BoundRow], row: &[Option<i64>], s: u32) -> bool
    ensures { result ≡ list_all (rule.add_nothing rows.now row.now s) rows.now }
{
    rows.iter().all(|first| add_nothing(rows, row, s, first))
}

impl Side<'_> {
    /// Returns whether beside the spans what is stored tells all that is known. It costs one pass over the spans.
    #[tactic(auto, using(crate::proofs::TightLaws::nothing_tight, crate::proofs::TightLaws::over_tight))]
    pub(crate) fn is_tight(&self) -> bool
        ensures { IsTrue result → IsTight (known self.now) }
    {
        if self.bounds.rows().is_empty() {
            return true;
        }
        match self.bounds.tight_over() {
            None => false,
            Some(ends) => are_between(ends, self.spans),
        }
    }

    /// Writes the row of a symbol, where bounds are few: what is stored, if bounds behind each other add nothing to it.
    #[tactic(auto, using(crate::proofs::RowLaws::gaps_tell))]
    fn write_few(&self, s: u32, row: &mut [Option<i64>])
        ensures { IsRow row.new (known self.now) s }
    {
        self.bounds.stored_from(s, row);
        if all_add_nothing(self.bounds.rows(), row, s) {
            return;
        }
        self.bounds.gaps_from(s, row);
    }

    /// Writes the row of a symbol. Where the state is tight, the bounds behind those of the symbol are not looked at.
    #[tactic(auto, using(crate::proofs::RowLaws::gaps_tell, crate::proofs::RowLaws::all_stored_tell))]
    fn write_row(&self, is_tight: bool, s: u32, row: &mut [Option<i64>])
        requires { IsTrue is_tight → IsTight (known self.now) }
        ensures { IsRow row.new (known self.now) s }
    {
        if is_tight {
            self.bounds.stored_from(s, row);
        } else if self.bounds.rows().len() < FEW {
            self.write_few(s, row);
        } else {
            self.bounds.gaps_from(s, row);
        }
    }

    /// Returns whether no bound goes from a symbol. Few bounds are looked through.
    fn is_bare(&self, s: u32) -> bool
        ensures { IsTrue result → rows_from self.now.bounds.now s ≡ [] }
    {
        let rows = self.bounds.rows();
        if rows.len() < FEW {
            go_from_others(rows, s)
        } else {
            self.bounds.rows_from(s).is_empty()
        }
    }

    /// The row of a symbol, which is written where there is room for it. None where no bound goes from the symbol: then
    /// only the symbol itself is known to lie so far.
    pub(crate) fn row_from<'r>(
        &self,
        is_tight: bool,
        s: u32,
        room: &'r mut [Option<i64>],
    ) -> Option<&'r [Option<i64>]>
        requires { IsTrue is_tight → IsTight (known self.now) }
        ensures row { IfSome result (λ row. IsRow row.now (known self.now) s) }
        ensures bare { result ≡ None → rows_from self.now.bounds.now s ≡ [] }
    {
        if self.is_bare(s) {
            return None;
        }
        self.write_row(is_tight, s, room);
        Some(room)
    }
}

/// The ends of each symbol: 0 of symbol 0, and those of the ranges of the others.
#[tactic(auto, using(crate::proofs::SettledTests::ends))]
fn ends_of(alloc: Global, ranges: &[Range]) -> Result<Vec<Ends>, NoMemory>
    ensures { IfOk result (λ ends. ends.items ≡ ends_of ranges.now) }
{
    let mut ends = Vec::with_capacity(alloc, ranges.len() + 1)?;
    ends.push(Ends { lo: 0, hi: 0 })?;
    for range in ranges {
        ends.push(ends_at(range))?;
    }
    Ok(ends)
}

/// Bounds that were put together. Where they are bounds that are known, the rows of these are shared.
pub(crate) fn built(
    alloc: Global,
    bounds: BoundsBuilder,
    known: &Bounds,
) -> Result<Bounds, NoMemory>
    ensures { IfOk result (λ made. made ≡ bounds) }
{
    if bounds.is_same(known) {
        return known.copy(alloc);
    }
    bounds.build()
}

/// The same bounds, for which it is noted whether they are tight over ranges; it is tested where it is not known. Of few
/// bounds nothing would be noted, and no ends are made.
pub(crate) fn noted(
    alloc: Global,
    bounds: Bounds,
    ranges: &[Range],
    is_tight: bool,
) -> Result<Bounds, NoMemory>
    requires { IsTrue is_tight → AreTightOver (ends_of ranges.now) bounds }
    ensures { IfOk result (λ noted. noted ≡ bounds) }
{
    if bounds.rows().len() < FEW {
        return Ok(bounds);
    }
    let ends = ends_of(alloc, ranges)?;
    if is_tight {
        bounds.noted_tight(alloc, ends)
    } else {
        bounds.noted(alloc, ends)
    }
}
