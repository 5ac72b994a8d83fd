//! Ranges of exact numbers.

ghost use Rattle.std.specs.Prelude.{◌≡◌, ◌≤ℤ◌, ◌+ℤ◌, ◌-ℤ◌, neg_ℤ, pos, ◌^◌};
ghost use Rattle.std.specs.Int.{w64};
ghost use Rattle.cc_base.specs.Wrap.{wrap32};
ghost use Rattle.number_spans.specs.Spans.{between, full, is_int32, is_one, is_not_negative};
ghost use Rattle.number_spans.specs.Spans.{is_hole, excludes, moved, moved_hole, one_excluded, shifted, wrapped};
ghost use Rattle.number_spans.specs.Sizes.{IsLong, IsLongHole, IsBounded};

use crate::exact::{more_by, moved_along, stays_int32, sum_of};
use interval_domain::Range;

/// The least int32.
pub const LEAST: i128 = -2_147_483_648;

/// The greatest int32.
pub const GREATEST: i128 = 2_147_483_647;

/// 2^32, the number of numbers of 32 bits.
const COUNT: i128 = 4_294_967_296;

/// All numbers from `lo` to `hi`, but for the hole. There is none where `lo` is above `hi`.
#[derive(Clone, Copy)]
pub struct Span {
    pub lo: i128,
    pub hi: i128,
    pub hole: Option<i128>,
}

impl Span {
    /// All numbers from `lo` to `hi`.
    pub fn between(lo: i128, hi: i128) -> Span
        ensures { result ≡ between lo hi }
    {
        Span { lo, hi, hole: None }
    }

    /// Every int32.
    pub fn full() -> Span
        ensures { result ≡ full }
    {
        Span::between(LEAST, GREATEST)
    }

    /// The numbers of a range, each with k added.
    #[tactic(auto, unfolding(crate::specs::Spans::moved))]
    pub fn moved(range: Range, k: i64) -> Span
        ensures value { result ≡ moved range k }
        ensures ends { IsLong result }
    {
        Span {
            lo: sum_of(range.lo(), k),
            hi: sum_of(range.hi(), k),
            hole: moved_hole(range.hole(), k),
        }
    }

    /// Its numbers, each with k added.
    #[tactic(auto, unfolding(crate::specs::Spans::shifted))]
    pub fn shifted(self, k: i64) -> Span
        requires ends { IsLong self }
        requires hole { IsLongHole self.hole }
        ensures value { result ≡ shifted self k }
        ensures low { IsBounded result.lo }
        ensures high { IsBounded result.hi }
    {
        Span {
            lo: more_by(self.lo, k),
            hi: more_by(self.hi, k),
            hole: shifted_hole(self.hole, k),
        }
    }

    /// Returns whether it has one number alone.
    pub fn is_one(self) -> bool
        ensures { result ≡ is_one self }
    {
        self.lo == self.hi
    }

    /// Returns whether its numbers are 0 or more.
    pub fn is_not_negative(self) -> bool
        ensures { result ≡ is_not_negative self }
    {
        0 <= self.lo
    }

    /// Returns whether the number is none of it.
    #[tactic(auto, unfolding(crate::specs::Spans::excludes))]
    pub fn excludes(self, n: i128) -> bool
        ensures { result ≡ excludes self n }
    {
        n < self.lo || self.hi < n || is_hole(self.hole, n)
    }

    /// Its numbers modulo 2^32, moved together so that the lowest is an int32. Where the highest is then none,
    /// every int32 may come.
    #[tactic(auto, using(crate::proofs::Along::moved_near), unfolding(crate::specs::Spans::wrapped))]
    pub fn wrapped(self) -> Span
        requires { IsBounded self.lo }
        ensures { result ≡ wrapped self }
    {
        let lo = wrap(self.lo);
        if stays_int32(lo, self.lo, self.hi) {
            Span::between(i128::from(lo), moved_along(lo, self.lo, self.hi))
        } else {
            Span::full()
        }
    }
}

/// Returns whether the number is an int32.
pub(crate) fn is_int32(n: i128) -> bool
    ensures { result ≡ is_int32 n }
{
    LEAST <= n && n <= GREATEST
}

/// The int32 that differs from the number by a multiple of 2^32.
pub fn wrap(n: i128) -> i32
    ensures { result ≡ wrap32 n }
{
    let low = n.rem_euclid(COUNT) as u32;
    low.cast_signed()
}

/// A hole with k added.
fn moved_hole(hole: Option<i64>, k: i64) -> Option<i128>
    ensures { result ≡ moved_hole hole k }
{
    match hole {
        None => None,
        Some(hole) => Some(sum_of(hole, k)),
    }
}

/// Returns whether the number is the hole.
fn is_hole(hole: Option<i128>, n: i128) -> bool
    ensures { result ≡ is_hole hole n }
{
    match hole {
        None => false,
        Some(hole) => hole == n,
    }
}

/// Returns whether one range has one number alone, and the other does not have it.
pub fn is_one_excluded(r: Span, q: Span) -> bool
    ensures { result ≡ one_excluded r q }
{
    r.is_one() && q.excludes(r.lo)
}

/// A hole of 64 bits with k added.
fn shifted_hole(hole: Option<i128>, k: i64) -> Option<i128>
    requires { IsLongHole hole }
    ensures { result ≡ moved_hole hole k }
{
    match hole {
        None => None,
        Some(hole) => Some(more_by(hole, k)),
    }
}
