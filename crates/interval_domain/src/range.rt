//! Ranges of numbers of 64 bits.
//!
//! A range has one hole at most, and an end beyond 64 bits is the nearest number: so each operator keeps every result
//! that fits. That int32 wraps is the caller's to say. A quotient by 0 alone is the range of 0.

ghost use Rattle.std.specs.Prelude.{◌≡◌, ℤ, pos, ◌-ℤ◌, ◌+ℤ◌, ◌≤ℤ◌, ◌<ℤ◌, ◌↔◌, IsSome, IfSome, IsTrue};
ghost use Rattle.interval_domain.specs.Interval.{Contains, between, excludes, holed, is_hole, lost, without, raised, lowered};
ghost use Rattle.interval_domain.specs.Joins.{excludes_hole, within};

use std::marker::Model;

/// The least int32.
pub(crate) const LEAST_32: i64 = -2_147_483_648;

/// The greatest int32.
pub(crate) const GREATEST_32: i64 = 2_147_483_647;

/// All numbers from `lo` to `hi`, but for at most one between them, the hole.
///
/// `lo` is at most `hi`, and the hole lies strictly between them.
#[derive(Clone, Copy)]
pub struct Range {
    lo: i64,
    hi: i64,
    hole: Option<i64>,
}

impl Model for Range {
    ghost use Rattle.interval_domain.specs.Interval.{Interval, IsRange};

    ghost Value = { Interval };

    ghost view = { λ range. record { lo = range.lo; hi = range.hi; hole = range.hole } };

    ghost inverse = { λ r. record { lo = r.lo; hi = r.hi; hole = r.hole } };

    ghost invariant = { λ range. IsRange range.lo range.hi range.hole };
}

impl Range {
    ghost use Rattle.interval_domain.specs.Interval.{inner_hole};

    /// All numbers from `lo` to `hi`. None exactly where there is none.
    pub fn new(lo: i64, hi: i64) -> Option<Range>
        ensures some { IsSome result ↔ (lo ≤ℤ hi) }
        ensures value { IfSome result (λ range. range ≡ between lo hi) }
    {
        if lo <= hi {
            Some(Range::between(lo, hi))
        } else {
            None
        }
    }

    /// All numbers from `lo` to `hi`, where there is one.
    #[tactic(auto, unfolding(crate::specs::Interval::inner_hole))]
    pub(crate) fn between(lo: i64, hi: i64) -> Range
        requires { lo ≤ℤ hi }
        ensures { result ≡ between lo hi }
    {
        Range { lo, hi, hole: None }
    }

    /// The same but for a hole, which counts only where it stands strictly between the ends.
    #[tactic(auto, unfolding(crate::specs::Interval::holed, crate::specs::Interval::inner_hole))]
    pub(crate) fn with_hole(lo: i64, hi: i64, hole: Option<i64>) -> Range
        requires { lo ≤ℤ hi }
        ensures { result ≡ holed lo hi hole }
    {
        let hole = match hole {
            Some(hole) if lo < hole && hole < hi => Some(hole),
            _ => None,
        };
        Range { lo, hi, hole }
    }

    /// Returns whether the number is none of the range.
    #[tactic(auto, unfolding(crate::specs::Interval::excludes))]
    pub(crate) fn excludes(&self, n: i64) -> bool
        ensures { result ≡ excludes self.now n }
    {
        n < self.lo || self.hi < n || is_hole(self.hole, n)
    }

    /// Returns whether the range excludes the hole, if there is one.
    #[tactic(auto, unfolding(crate::specs::Joins::excludes_hole))]
    fn excludes_hole(&self, hole: Option<i64>) -> bool
        ensures { result ≡ excludes_hole self.now hole }
    {
        match hole {
            Some(hole) => self.excludes(hole),
            None => true,
        }
    }

    /// Returns whether the other range has each number that this one has.
    #[tactic(auto, unfolding(crate::specs::Joins::within))]
    pub(crate) fn within(&self, other: &Range) -> bool
        ensures value { result ≡ within self.now other.now }
        ensures exact { IsTrue result ↔ ((n : ℤ) → Contains self.now n → Contains other.now n) }
    {
        let Range { lo, hi, .. } = *self;
        let excluded = self.excludes_hole(other.hole);
        other.lo <= lo && hi <= other.hi && excluded
    }

    /// The lowest number.
    pub fn lo(&self) -> i64
        ensures value { result ≡ self.now.lo }
        ensures ordered { result ≤ℤ self.now.hi }
    {
        self.lo
    }

    /// The highest number.
    pub fn hi(&self) -> i64
        ensures { result ≡ self.now.hi }
    {
        self.hi
    }

    /// The number between them that is none of the range.
    pub fn hole(&self) -> Option<i64>
        ensures { result ≡ self.now.hole }
    {
        self.hole
    }

    /// From a new lowest number on. A hole that meets the end moves it.
    #[tactic(auto, unfolding(crate::specs::Interval::raised, crate::specs::Interval::inner_hole))]
    fn raised(lo: i64, hi: i64, hole: Option<i64>) -> Range
        requires ordered { lo ≤ℤ hi }
        requires inner { inner_hole (lo -ℤ pos 1) hi hole ≡ hole }
        ensures { result ≡ raised lo hi hole }
    {
        if is_hole(hole, lo) {
            Range {
                lo: lo + 1,
                hi,
                hole: None,
            }
        } else {
            Range { lo, hi, hole }
        }
    }

    /// Up to a new highest number.
    #[tactic(auto, unfolding(crate::specs::Interval::lowered, crate::specs::Interval::inner_hole))]
    fn lowered(lo: i64, hi: i64, hole: Option<i64>) -> Range
        requires ordered { lo ≤ℤ hi }
        requires inner { inner_hole lo (hi +ℤ pos 1) hole ≡ hole }
        ensures { result ≡ lowered lo hi hole }
    {
        if is_hole(hole, hi) {
            Range {
                lo,
                hi: hi - 1,
                hole: None,
            }
        } else {
            Range { lo, hi, hole }
        }
    }

    /// The range, of more than one number, without one that lies between its ends or is one of them.
    #[tactic(auto, unfolding(crate::specs::Interval::lost, crate::specs::Interval::inner_hole))]
    fn lost(self, n: i64) -> Range
        requires above { self.lo ≤ℤ n }
        requires below { n ≤ℤ self.hi }
        requires more { self.lo <ℤ self.hi }
        ensures { result ≡ lost self n }
    {
        let Range { lo, hi, hole } = self;
        if n == lo {
            return Range::raised(lo + 1, hi, hole);
        }
        if n == hi {
            return Range::lowered(lo, hi - 1, hole);
        }
        Range {
            lo,
            hi,
            hole: Some(n),
        }
    }

    /// The range without a number: an end moves, and a number between the ends becomes the hole, in place of
    /// an older one. None exactly where it was the only number.
    #[tactic(auto, unfolding(crate::specs::Interval::without))]
    pub fn without(self, n: i64) -> Option<Range>
        ensures { result ≡ without self n }
    {
        if n < self.lo || self.hi < n {
            return Some(self);
        }
        if self.lo == self.hi {
            return None;
        }
        Some(self.lost(n))
    }
}

/// Returns whether the number is the hole.
fn is_hole(hole: Option<i64>, n: i64) -> bool
    ensures { result ≡ is_hole hole n }
{
    match hole {
        None => false,
        Some(hole) => hole == n,
    }
}
