//! Whether ranges are of int32.

ghost use Rattle.std.specs.Prelude.{◌≡◌};
ghost use Rattle.std.specs.List.{list_all};
ghost use Rattle.array_contents.specs.FormTest as tests;

use interval_domain::Range;

/// Returns whether a hole lies strictly between two ends.
fn is_inner(lo: i64, hi: i64, hole: Option<i64>) -> bool
    ensures { result ≡ tests.is_inner lo hi hole }
{
    match hole {
        None => true,
        Some(hole) => lo < hole && hole < hi,
    }
}

/// Returns whether the numbers of a range are int32, and there is one.
#[tactic(auto, unfolding(crate::specs::FormTest::is_narrow))]
fn is_narrow(range: &Range) -> bool
    ensures { result ≡ tests.is_narrow range.now }
{
    let (lo, hi) = (range.lo(), range.hi());
    i64::from(i32::MIN) <= lo
        && lo <= hi
        && hi <= i64::from(i32::MAX)
        && is_inner(lo, hi, range.hole())
}

/// Returns whether the numbers of each range are int32, and there is one.
pub fn are_narrow(ranges: &[Range]) -> bool
    ensures { result ≡ list_all tests.is_narrow ranges.now }
{
    ranges.iter().all(|range| is_narrow(range))
}
