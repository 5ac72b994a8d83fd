//! The text of ranges.

use domain_api::Values;
use interval_domain::Range;
use std::alloc::AllocError;

/// The range of a text: `0..9`, `0..9!5` or `int32`. None where it is none, and where the hole does not lie between the
/// ends.
pub fn range(text: &str) -> Option<Range> {
    if text == "int32" {
        return Some(Range::full());
    }
    let Some((ends, hole)) = text.split_once('!') else {
        return range_between(text);
    };
    let hole = hole.parse::<i64>().ok()?;
    let range = range_between(ends)?;
    if hole <= range.lo() || range.hi() <= hole {
        return None;
    }
    range.without(hole)
}

/// The range of a text without a hole.
fn range_between(text: &str) -> Option<Range> {
    let (lo, hi) = text.split_once("..")?;
    Range::new(lo.parse::<i64>().ok()?, hi.parse::<i64>().ok()?)
}

/// Appends the text of a range.
pub fn append_range(text: &mut String, range: Range) -> Result<(), AllocError> {
    let (lo, hi, hole) = (range.lo(), range.hi(), range.hole());
    if lo == i64::from(i32::MIN) && hi == i64::from(i32::MAX) && hole.is_none() {
        return text.push_str("int32");
    }
    write!(text, "{lo}..{hi}")?;
    match hole {
        None => Ok(()),
        Some(hole) => write!(text, "!{hole}"),
    }
}

/// Appends the text of a range whose numbers may have more than 64 bits.
pub fn append_wide_range(
    text: &mut String,
    ends: (i128, i128, Option<i128>),
) -> Result<(), AllocError> {
    let (lo, hi, hole) = ends;
    write!(text, "{lo}..{hi}")?;
    match hole {
        None => Ok(()),
        Some(hole) => write!(text, "!{hole}"),
    }
}
