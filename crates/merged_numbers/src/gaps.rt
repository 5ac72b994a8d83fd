//! How far keys lie apart, and the bounds of this.

ghost use Rattle.std.specs.Prelude.{◌≡◌, ◌==◌, ◌<◌, ◌+◌, pos, ◌+ℤ◌, ◌-ℤ◌, [], length, Some, None, option_map};
ghost use Rattle.std.specs.Prelude.{IfOk, IfSome, OnOk, if◌then◌else◌};
ghost use Rattle.number_spans.specs.Sizes.{IsWide};
ghost use Rattle.pentagon_domain.specs.Rows.{rows_from};
ghost use Rattle.merged_numbers.specs.Known as rule;
ghost use Rattle.merged_numbers.specs.Known.{between, known};
ghost use Rattle.merged_numbers.specs.Meaning.{AreMeasured};
ghost use Rattle.merged_numbers.specs.Merging.{is_told, told, with_gap};
ghost use Rattle.merged_numbers.specs.Rows.{IsRow, Tells, beside};

use crate::measures::{minus, more};
use crate::side::Side;
use crate::term::Term;
use domain_api::{NoMemory, Order};
use interval_domain::Range;
use pentagon_domain::{BoundsBuilder, raised_gap};
use std::alloc::AllocError;

/// What is known of a symbol and of another one, where no bound goes from the first: it lies nowhere above itself.
fn from_itself(s: u32, t: u32) -> Option<i64>
    ensures { result ≡ (if s == t then Some (pos 0) else None) }
{
    if s == t { Some(0) } else { None }
}

/// A gap with a constant more, which may leave 64 bits.
pub(crate) fn moved(gap: Option<i64>, from: i128, to: i128) -> Option<i128>
    requires first { IsWide from }
    requires second { IsWide to }
    ensures { result ≡ option_map (λ k. k +ℤ (to -ℤ from)) gap }
{
    match gap {
        None => None,
        Some(gap) => Some(more(gap, minus(to, from))),
    }
}

impl Side<'_> {
    /// How far the second symbol is known to lie above the first.
    #[tactic(auto, unfolding(crate::specs::Known::gap))]
    pub(crate) fn gap(&self, s: u32, t: u32) -> Option<i64>
        requires { AreMeasured self.now.spans.now }
        ensures { result ≡ rule.gap (known self.now) s t }
    {
        match self.between(s, t) {
            None => self.bounds.gap(s, t),
            Some(apart) => self.bounds.gap_with(s, t, apart),
        }
    }

    /// What a row has of a symbol. One that has no place is looked for.
    #[tactic(auto, using(crate::proofs::RowLaws::gap_tells))]
    fn known_in_row(&self, row: &[Option<i64>], s: u32, t: u32) -> Option<i64>
        requires { IsRow row.now (known self.now) s }
        ensures { Tells (known self.now) s t result }
    {
        match row.get(t as usize) {
            None => self.bounds.gap(s, t),
            Some(gap) => *gap,
        }
    }

    /// What the row of a symbol tells of another one. Where there is none, no bound goes from the first.
    #[tactic(auto, using(crate::proofs::RowLaws::bare_tells))]
    pub(crate) fn known_by_row(&self, row: Option<&[Option<i64>]>, s: u32, t: u32) -> Option<i64>
        requires row { IfSome row (λ row. IsRow row.now (known self.now) s) }
        requires bare { row ≡ None → rows_from self.now.bounds.now s ≡ [] }
        ensures { Tells (known self.now) s t result }
    {
        match row {
            None => from_itself(s, t),
            Some(row) => self.known_in_row(row, s, t),
        }
    }

    /// What a gap and the spans tell.
    fn beside(&self, gap: Option<i64>, s: u32, t: u32) -> Option<i64>
        requires { AreMeasured self.now.spans.now }
        ensures { result ≡ beside gap (between (known self.now) s t) }
    {
        match self.between(s, t) {
            None => gap,
            Some(apart) => raised_gap(gap, apart),
        }
    }

    /// How far the second symbol is known to lie above the first, by the row of the first.
    #[tactic(auto, using(crate::proofs::RowLaws::gap_itself, crate::proofs::RowLaws::told_gap))]
    fn gap_by_row(&self, row: Option<&[Option<i64>]>, s: u32, t: u32) -> Option<i64>
        requires measured { AreMeasured self.now.spans.now }
        requires row { IfSome row (λ row. IsRow row.now (known self.now) s) }
        requires bare { row ≡ None → rows_from self.now.bounds.now s ≡ [] }
        ensures { result ≡ rule.gap (known self.now) s t }
    {
        if s == t {
            return Some(0);
        }
        self.beside(self.known_by_row(row, s, t), s, t)
    }

    /// How far the second term is known to lie above the first, by the row of the first one's symbol.
    #[tactic(auto, unfolding(crate::specs::Known::term_gap))]
    pub(crate) fn term_gap(&self, row: Option<&[Option<i64>]>, x: Term, y: Term) -> Option<i128>
        requires measured { AreMeasured self.now.spans.now }
        requires row { IfSome row (λ row. IsRow row.now (known self.now) x.sym) }
        requires bare { row ≡ None → rows_from self.now.bounds.now x.sym ≡ [] }
        requires first { IsWide x.k }
        requires second { IsWide y.k }
        ensures { result ≡ rule.term_gap (known self.now) x y }
    {
        moved(self.gap_by_row(row, x.sym, y.sym), x.k, y.k)
    }
}

/// The symbol that stands for the key at a place.
fn symbol_at(place: usize) -> Result<u32, NoMemory>
    ensures { IfOk result (λ symbol. symbol ≡ place + 1) }
{
    match u32::try_from(place) {
        Ok(place) if place < u32::MAX => Ok(place + 1),
        _ => Err(AllocError),
    }
}

/// How far two ranges lie apart.
pub(crate) fn apart(from: Range, to: Range) -> i128
    ensures { result ≡ to.lo -ℤ from.hi }
{
    i128::from(to.lo()) - i128::from(from.hi())
}

/// Returns whether a gap of the symbols at two places says no more than their ranges.
pub(crate) fn is_told(ranges: &[Range], i: usize, j: usize, gap: Option<i128>) -> bool
    requires first { i < length ranges.now }
    requires second { j < length ranges.now }
    ensures { result ≡ is_told (told ranges.now i j) gap }
{
    match gap {
        None => true,
        Some(gap) => gap <= apart(ranges[i], ranges[j]),
    }
}

/// Adds the bound of the symbols at two places, where it says more than their ranges and has 64 bits.
pub(crate) fn add_gap(
    bounds: &mut BoundsBuilder,
    ranges: &[Range],
    i: usize,
    j: usize,
    gap: Option<i128>,
) -> Result<(), NoMemory>
    requires first { i < length ranges.now }
    requires second { j < length ranges.now }
    ensures { OnOk result (bounds.new ≡ with_gap (told ranges.now i j) i j gap bounds.old) }
{
    let Some(gap) = gap else {
        return Ok(());
    };
    if gap <= apart(ranges[i], ranges[j]) {
        return Ok(());
    }
    match i64::try_from(gap) {
        Err(_) => Ok(()),
        Ok(k) => bounds.add_bound(symbol_at(i)?, symbol_at(j)?, k),
    }
}
