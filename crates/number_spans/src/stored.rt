//! Ranges of int32 as they are stored.

ghost use Rattle.std.specs.Prelude.{◌≡◌, None};
ghost use Rattle.std.specs.Int.{int_min, int_max};
ghost use Rattle.cil_model.specs.Arithmetic as arithmetic;
ghost use Rattle.interval_domain.specs.Arithmetic.{near};
ghost use Rattle.interval_domain.specs.Interval.{without};
ghost use Rattle.number_spans.specs.Stored.{range_without};

use crate::span::{GREATEST, LEAST, Span};
use interval_domain::Range;

/// All numbers from `lo` to `hi` but for the hole, as they are stored. None exactly where there is none.
#[tactic(auto, unfolding(crate::specs::Stored::range_without))]
pub fn range_without(lo: i64, hi: i64, hole: Option<i64>) -> Option<Range>
    ensures { result ≡ range_without lo hi hole }
{
    let range = Range::new(lo, hi)?;
    match hole {
        None => Some(range),
        Some(hole) => range.without(hole),
    }
}

/// The numbers of a range up to a number.
#[tactic(auto, using(crate::proofs::NoNumbers::none_below))]
pub fn range_upto(range: Range, hi: i128) -> Option<Range>
    ensures { result ≡ range_without range.lo (int_min range.hi hi) range.hole }
{
    if hi < i128::from(range.lo()) {
        return None;
    }
    range_without(
        range.lo(),
        i128::from(range.hi()).min(hi) as i64,
        range.hole(),
    )
}

/// The numbers of a range from a number on.
#[tactic(auto, using(crate::proofs::NoNumbers::none_below))]
pub fn range_from(range: Range, lo: i128) -> Option<Range>
    ensures { result ≡ range_without (int_max range.lo lo) range.hi range.hole }
{
    if i128::from(range.hi()) < lo {
        return None;
    }
    range_without(
        i128::from(range.lo()).max(lo) as i64,
        range.hi(),
        range.hole(),
    )
}

/// The numbers of a range but for one.
#[tactic(auto, unfolding(interval_domain::specs::Interval::without))]
pub fn range_but_for(range: Range, n: i128) -> Option<Range>
    ensures { result ≡ without range n }
{
    match i64::try_from(n) {
        Ok(n) => range.without(n),
        Err(_) => Some(range),
    }
}

/// The int32 of a range, as they are stored.
#[tactic(auto, using(crate::proofs::NoNumbers::none_below))]
pub fn range_within(span: Span) -> Option<Range>
    ensures { result ≡ range_without (int_max span.lo arithmetic.LEAST) (int_min span.hi arithmetic.GREATEST) None }
{
    let lo = span.lo.max(LEAST);
    let hi = span.hi.min(GREATEST);
    if hi < lo {
        return None;
    }
    range_without(lo as i64, hi as i64, None)
}

/// The number of 64 bits that is nearest to a number.
#[tactic(auto, unfolding(interval_domain::specs::Arithmetic::near))]
pub fn nearest(n: i128) -> i64
    ensures { result ≡ near n }
{
    n.max(i128::from(i64::MIN)).min(i128::from(i64::MAX)) as i64
}
