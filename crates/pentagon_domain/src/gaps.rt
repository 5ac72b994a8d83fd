//! How far symbols are known to lie above others.

ghost use Rattle.std.specs.Prelude.{◌≡◌, ◌≢◌, ◌==◌, true, List, [], ◌∷◌, ℕ, ℤ, ◌+ℤ◌, EachIndex, slice_index_or};
ghost use Rattle.std.specs.Prelude.{option_map, option_and_then, if◌then◌else◌};
ghost use Rattle.domain_api.specs.Order.{greater_gap};
ghost use Rattle.pentagon_domain.specs.declared.bound_row.BoundRow.{BoundRow};
ghost use Rattle.pentagon_domain.specs.Gaps as rule;
ghost use Rattle.pentagon_domain.specs.Gaps.{cut, greatest_sum};
ghost use Rattle.pentagon_domain.specs.Most.{IsLow, is_reached};
ghost use Rattle.pentagon_domain.specs.Reach.{reach};
ghost use Rattle.pentagon_domain.specs.Rows.{rows_from};

use crate::bound_row::BoundRow;
use crate::bounds::Bounds;
use crate::idle::{is_idle, lowest};
use crate::search::{Guess, rows_near};
use domain_api::Order;

/// So many bounds are many: of fewer all are looked at, where a search among them, or a pass over all gaps, would tell
/// which of them need no look.
const MANY: usize = 12;

/// An exact number as a gap of 64 bits.
#[tactic(auto, unfolding(crate::specs::Gaps::cut))]
fn cut(exact: i128) -> Option<i64>
    ensures { result ≡ cut exact }
{
    if exact > i128::from(i64::MAX) {
        Some(i64::MAX)
    } else if exact < i128::from(i64::MIN) {
        None
    } else {
        Some(exact as i64)
    }
}

/// A constant as a gap: it has 64 bits.
#[tactic(auto, unfolding(crate::specs::Gaps::cut))]
fn fitting(k: i64) -> Option<i64>
    ensures { result ≡ cut k }
{
    Some(k)
}

/// The sum of two constants.
pub(crate) fn sum_of(a: i64, b: i64) -> i128
    ensures { result ≡ a +ℤ b }
{
    i128::from(a) + i128::from(b)
}

/// The greater of a gap and of an exact number, as a gap of 64 bits.
fn greater_of(gap: Option<i64>, exact: i128) -> Option<i64>
    ensures { result ≡ greater_gap gap (cut exact) }
{
    match (gap, cut(exact)) {
        (None, more) => more,
        (known, None) => known,
        (Some(known), Some(more)) => Some(known.max(more)),
    }
}

/// The greater of a gap and of an exact number, as a gap of 64 bits: the number is cut to the greatest of them, and
/// counts for nothing below the least. So a gap by bounds alone, as `gaps_from` writes it, becomes that where the
/// ranges of two distinct symbols tell the exact number.
pub fn raised_gap(gap: Option<i64>, exact: i128) -> Option<i64>
    ensures value { result ≡ greater_gap gap (cut exact) }
    ensures with_ranges { (rows : List BoundRow) (s t : ℕ) → s ≢ t → gap ≡ rule.gap rows s t →
        result ≡ rule.gap_with rows exact s t }
{
    greater_of(gap, exact)
}

/// Returns whether a constant exceeds a gap, as each does that is not known.
fn exceeds(k: i64, gap: Option<i64>) -> bool
    ensures { greater_gap gap (Some k) ≡ (if result then Some k else gap) }
{
    match gap {
        None => true,
        Some(known) => known < k,
    }
}

/// The sum of two constants, as a gap of 64 bits.
#[tactic(auto, unfolding(crate::specs::Gaps::cut))]
fn cut_sum(a: i64, b: i64) -> Option<i64>
    ensures { result ≡ cut (a +ℤ b) }
{
    if a < 0 {
        return if b < i64::MIN - a { None } else { Some(a + b) };
    }
    if i64::MAX - a < b {
        Some(i64::MAX)
    } else {
        Some(a + b)
    }
}

/// Raises a gap by the sum of two constants. It is written where it changes alone.
fn raise_gap(gap: &mut Option<i64>, a: i64, b: i64)
    ensures { gap.new ≡ greater_gap gap.old (cut (a +ℤ b)) }
{
    if let Some(sum) = cut_sum(a, b) {
        if exceeds(sum, *gap) {
            *gap = Some(sum);
        }
    }
}

/// Raises the gap to one symbol by the sum of two constants.
fn raise(gaps: &mut [Option<i64>], t: u32, a: i64, b: i64)
    ensures { EachIndex gaps.new (λ i. slice_index_or gaps.new i None ≡
        (if t == i then greater_gap (slice_index_or gaps.old i None) (cut (a +ℤ b))
        else slice_index_or gaps.old i None)) }
{
    let place = t as usize;
    if place < gaps.len() {
        raise_gap(&mut gaps[place], a, b);
    }
}

/// Raises the gap to each symbol by what a bound says that goes to it, behind one of the constant k.
fn raise_all(gaps: &mut [Option<i64>], rows: &[BoundRow], k: i64)
    ensures { EachIndex gaps.new (λ t. slice_index_or gaps.new t None ≡
        greater_gap (slice_index_or gaps.old t None) (reach k rows.now t)) }
{
    for row in rows {
        raise(gaps, row.t, k, row.k);
    }
}

/// Raises the gap to the symbol to which a bound goes, where it goes from that to which the first one does: by both.
fn raise_by(gaps: &mut [Option<i64>], first: &BoundRow, next: &BoundRow)
    ensures { EachIndex gaps.new (λ t. slice_index_or gaps.new t None ≡
        greater_gap (slice_index_or gaps.old t None) (reach first.now.k (rows_from (next.now ∷ []) first.now.t) t)) }
{
    if next.s == first.t {
        raise(gaps, next.t, first.k, next.k);
    }
}

/// Raises the gap to each symbol by what those of some bounds say that go on from where the first one goes.
fn raise_among(gaps: &mut [Option<i64>], first: &BoundRow, rows: &[BoundRow])
    ensures { EachIndex gaps.new (λ t. slice_index_or gaps.new t None ≡
        greater_gap (slice_index_or gaps.old t None) (reach first.now.k (rows_from rows.now first.now.t) t)) }
{
    for next in rows {
        raise_by(gaps, first, next);
    }
}

/// Forgets all gaps.
fn clear(gaps: &mut [Option<i64>])
    ensures { EachIndex gaps.new (λ t. slice_index_or gaps.new t None ≡ None) }
{
    for gap in gaps.iter_mut() {
        *gap = None;
    }
}

impl Bounds {
    ghost use Rattle.pentagon_domain.specs.Rows.{AreBounds, stored};
    ghost use Rattle.pentagon_domain.specs.Gaps.{Allows, LiesAbove, direct_gap, gap, gap_with};

    /// The gap of two symbols where from the number of the first to that of the second it is known to be
    /// `between` at least, as by their ranges: the greatest of what is stored, of two stored constants behind each
    /// other, and of `between`; 0 of a symbol and itself. An exact number, cut to 64 bits once. It costs what `gap`
    /// costs, and takes no memory.
    #[tactic(auto, using(crate::proofs::Reaches::gap_with_apart, crate::proofs::Reaches::gap_with_same))]
    pub fn gap_with(&self, s: u32, t: u32, between: i128) -> Option<i64>
        ensures value { result ≡ gap_with self.now between s t }
        ensures holds { (number : ℕ → ℤ) (k : ℤ) → result ≡ Some k → Allows self.now number →
            LiesAbove number s t between → LiesAbove number s t k }
    {
        if s == t {
            return Some(0);
        }
        raised_gap(self.gap(s, t), between)
    }

    /// Writes the gaps from a symbol: into each place that to the symbol of the place. It costs the length of `gaps`,
    /// the bounds from the symbol, and those from each symbol to which these go, but where the greatest of all
    /// constants shows that they tell no more. Where bounds do not go to each symbol, a search is made for each of the
    /// others. It takes no memory.
    pub fn gaps_from(&self, s: u32, gaps: &mut [Option<i64>])
        ensures { EachIndex gaps.new (λ t. slice_index_or gaps.new t None ≡ gap self.now s t) }
    {
        clear(gaps);
        let firsts = self.rows_from(s);
        raise_all(gaps, firsts, 0);
        self.raise_behind(s, firsts, gaps);
        if (s as usize) < gaps.len() {
            gaps[s as usize] = Some(0);
        }
    }

    /// Writes what is stored from a symbol, as gaps: into each place that to the symbol of the place, 0 to itself. Of
    /// bounds that are tight over ends, these are all gaps that the ends do not tell. It costs the length of `gaps` and
    /// the bounds from the symbol, and takes no memory.
    pub fn stored_from(&self, s: u32, gaps: &mut [Option<i64>])
        ensures { EachIndex gaps.new (λ t. slice_index_or gaps.new t None ≡ direct_gap self.now s t) }
    {
        clear(gaps);
        raise_all(gaps, self.rows_from(s), 0);
        if (s as usize) < gaps.len() {
            gaps[s as usize] = Some(0);
        }
    }

    /// The rows that go from a symbol, where it is guessed where they are.
    pub(crate) fn rows_near(&self, s: u32, guess: &mut Guess) -> &[BoundRow]
        ensures value { result.now ≡ rows_from self.now s }
        ensures form { AreBounds self.now }
    {
        rows_near(self.rows(), s, guess)
    }

    /// Raises the gap to each symbol by what bounds say behind a bound. Where no constant is so great that they could
    /// say more than the lowest gap, nothing is looked at.
    fn raise_beyond(
        &self,
        first: &BoundRow,
        low: Option<i64>,
        guess: &mut Guess,
        gaps: &mut [Option<i64>],
    )
        ensures { EachIndex gaps.new (λ t. (is_reached self.now t ≡ true → IsLow low (slice_index_or gaps.old t None)) →
            slice_index_or gaps.new t None ≡ greater_gap (slice_index_or gaps.old t None)
            (option_and_then cut (option_map (λ l. first.now.k +ℤ l) (stored self.now first.now.t t)))) }
    {
        if !is_idle(first.k, self.most(), low) {
            self.raise_next(first, guess, gaps);
        }
    }

    /// The same, where each bound is looked at that goes on from there. Of few bounds all are looked at.
    fn raise_next(&self, first: &BoundRow, guess: &mut Guess, gaps: &mut [Option<i64>])
        ensures value { EachIndex gaps.new (λ t. slice_index_or gaps.new t None ≡ greater_gap
            (slice_index_or gaps.old t None) (reach first.now.k (rows_from self.now first.now.t) t)) }
        ensures form { AreBounds self.now }
    {
        let rows = self.rows();
        if rows.len() < MANY {
            raise_among(gaps, first, rows);
        } else {
            raise_all(gaps, self.rows_near(first.t, guess), first.k);
        }
    }

    /// A number that none of the gaps from s is below, but for those to s and to symbols to which no bound goes. It is
    /// sought where many bounds go from s: behind few, to look at all costs less.
    fn lowest_behind(&self, s: u32, firsts: &[BoundRow], gaps: &[Option<i64>]) -> Option<i64>
        ensures { EachIndex gaps.now (λ t. t ≢ s → is_reached self.now t ≡ true →
            IsLow result (slice_index_or gaps.now t None)) }
    {
        if firsts.len() < MANY {
            return None;
        }
        lowest(self, gaps, s)
    }

    /// Raises the gap to each symbol but s by what bounds say behind those from s.
    fn raise_behind(&self, s: u32, firsts: &[BoundRow], gaps: &mut [Option<i64>])
        ensures { EachIndex gaps.new (λ t. t ≢ s → slice_index_or gaps.new t None ≡
            greater_gap (slice_index_or gaps.old t None) (option_and_then cut (greatest_sum self.now firsts.now t))) }
    {
        let low = self.lowest_behind(s, firsts, gaps);
        let mut guess = Guess { end: 0, count: 0 };
        for first in firsts {
            self.raise_beyond(first, low, &mut guess, gaps);
        }
    }

    /// Returns what is stored of two symbols, as a gap.
    pub(crate) fn stored_gap(&self, s: u32, t: u32) -> Option<i64>
        ensures { result ≡ option_and_then cut (stored self.now s t) }
    {
        fitting(self.stored(s, t)?)
    }

    /// The greater of a gap and of what a bound tells with the one behind it that goes to a symbol.
    pub(crate) fn raised_behind(&self, known: Option<i64>, first: &BoundRow, t: u32) -> Option<i64>
        ensures { result ≡ greater_gap known (option_and_then cut
            (option_map (λ l. first.now.k +ℤ l) (stored self.now first.now.t t))) }
    {
        if is_idle(first.k, self.most(), known) {
            return known;
        }
        match self.stored(first.t, t) {
            None => known,
            Some(k) => greater_of(known, sum_of(first.k, k)),
        }
    }
}
