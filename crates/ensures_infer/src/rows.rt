//! What may follow of a method's result, in the order in which it is listed.

ghost use Rattle.std.specs.Prelude.{◌≡◌, ◌++◌, ◌≤◌, length, IfOk, OnOk};
ghost use Rattle.cil_model.specs.Limits.{MAX_VARIABLES};
ghost use Rattle.ensures_infer.specs.Rows as rule;

use crate::inferred::{Inferred, Measure};
use crate::lists::push_some;
use cil_model::Place;
use domain_api::NoMemory;
use number_spans::Span;
use std::alloc::Global;

/// The least and the greatest number of a type.
#[derive(Clone, Copy)]
struct Ends {
    least: i32,
    greatest: i32,
}

/// The numbers of bool.
const BYTE: Ends = Ends {
    least: 0,
    greatest: 255,
};

/// The numbers of int32.
const INT32: Ends = Ends {
    least: i32::MIN,
    greatest: i32::MAX,
};

/// The greatest number that no range goes below.
fn lowest(ranges: &[Span]) -> Option<i128>
    ensures { result ≡ rule.lowest ranges.now }
{
    let [first, others @ ..] = ranges else {
        return None;
    };
    let mut lo = first.lo;
    for range in others {
        lo = lo.min(range.lo);
    }
    Some(lo)
}

/// The least number that no range goes above.
fn highest(ranges: &[Span]) -> Option<i128>
    ensures { result ≡ rule.highest ranges.now }
{
    let [first, others @ ..] = ranges else {
        return None;
    };
    let mut hi = first.hi;
    for range in others {
        hi = hi.max(range.hi);
    }
    Some(hi)
}

/// That the result is at least this number, where its type has it and has lesser ones.
fn at_least(ends: Ends, lo: i128) -> Option<Inferred>
    ensures { result ≡ rule.at_least ends.least ends.greatest lo }
{
    if i128::from(ends.least) < lo && lo <= i128::from(ends.greatest) {
        Some(Inferred::AtLeast(lo as i32))
    } else {
        None
    }
}

/// That the result is at most this number, where its type has it and has greater ones.
fn at_most(ends: Ends, hi: i128) -> Option<Inferred>
    ensures { result ≡ rule.at_most ends.least ends.greatest hi }
{
    if i128::from(ends.least) <= hi && hi < i128::from(ends.greatest) {
        Some(Inferred::AtMost(hi as i32))
    } else {
        None
    }
}

/// Appends what may be said of the least number of all ranges.
fn push_lowest(rows: &mut Vec<Inferred>, ends: Ends, ranges: &[Span]) -> Result<(), NoMemory>
    ensures { OnOk result (rows.new.items ≡ rows.old.items
        ++ rule.lowest_row ends.least ends.greatest (rule.lowest ranges.now)) }
{
    match lowest(ranges) {
        Some(lo) => push_some(rows, at_least(ends, lo)),
        None => Ok(()),
    }
}

/// Appends what may be said of the greatest number of all ranges.
fn push_highest(rows: &mut Vec<Inferred>, ends: Ends, ranges: &[Span]) -> Result<(), NoMemory>
    ensures { OnOk result (rows.new.items ≡ rows.old.items
        ++ rule.highest_row ends.least ends.greatest (rule.highest ranges.now)) }
{
    match highest(ranges) {
        Some(hi) => push_some(rows, at_most(ends, hi)),
        None => Ok(()),
    }
}

/// Appends what may be said of the ends of all ranges.
fn push_ends(rows: &mut Vec<Inferred>, ends: Ends, ranges: &[Span]) -> Result<(), NoMemory>
    ensures { OnOk result (rows.new.items ≡ rows.old.items
        ++ rule.ends_within ends.least ends.greatest ranges.now) }
{
    push_lowest(rows, ends, ranges)?;
    push_highest(rows, ends, ranges)
}

/// Returns whether an argument of this type has a number to be compared with.
fn has_measure(measure: Measure, place: Place) -> bool
    ensures { result ≡ rule.has_measure measure place }
{
    match measure {
        Measure::Value => matches!(place, Place::Int),
        Measure::Length => matches!(place, Place::Bools | Place::Ints),
    }
}

/// That the result is below an argument, where it has such a number.
fn below(measure: Measure, i: u16, place: Place) -> Option<Inferred>
    ensures { result ≡ rule.below measure i place }
{
    if has_measure(measure, place) {
        Some(Inferred::Below(measure, i))
    } else {
        None
    }
}

/// Appends that the result is below each argument that has such a number.
fn push_below(rows: &mut Vec<Inferred>, measure: Measure, args: &[Place]) -> Result<(), NoMemory>
    requires few { length args.now ≤ MAX_VARIABLES }
    ensures { OnOk result (rows.new.items ≡ rows.old.items ++ rule.below_each measure 0 args.now) }
{
    for (i, place) in args.iter().enumerate() {
        push_some(rows, below(measure, i as u16, *place))?;
    }
    Ok(())
}

/// Appends what may be said of an int32 that is returned.
fn push_int32(rows: &mut Vec<Inferred>, args: &[Place], ranges: &[Span]) -> Result<(), NoMemory>
    requires few { length args.now ≤ MAX_VARIABLES }
    ensures { OnOk result (rows.new.items ≡ rows.old.items ++ rule.int32_rows args.now ranges.now) }
{
    push_ends(rows, INT32, ranges)?;
    push_below(rows, Measure::Value, args)?;
    push_below(rows, Measure::Length, args)
}

/// Appends what may be said of a result of this type.
#[tactic(auto, unfolding(crate::specs::Rows::rows))]
fn push_rows(
    rows: &mut Vec<Inferred>,
    place: Place,
    args: &[Place],
    ranges: &[Span],
) -> Result<(), NoMemory>
    requires few { length args.now ≤ MAX_VARIABLES }
    ensures { OnOk result (rows.new.items ≡ rows.old.items ++ rule.rows place args.now ranges.now) }
{
    match place {
        Place::Void => Ok(()),
        Place::Bool => push_ends(rows, BYTE, ranges),
        Place::Int => push_int32(rows, args, ranges),
        Place::Bools | Place::Ints => Ok(rows.push(Inferred::NotNull)?),
    }
}

/// What may be said of a result of this type, of arguments of these types, where these are the numbers that returns may
/// give.
pub(crate) fn rows_of(
    alloc: Global,
    place: Place,
    args: &[Place],
    ranges: &[Span],
) -> Result<Vec<Inferred>, NoMemory>
    requires few { length args.now ≤ MAX_VARIABLES }
    ensures { IfOk result (λ rows. rows.items ≡ rule.rows place args.now ranges.now) }
{
    let mut rows = Vec::new(alloc);
    push_rows(&mut rows, place, args, ranges)?;
    Ok(rows)
}
