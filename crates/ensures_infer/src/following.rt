//! What the states at returns say of the result.

ghost use Rattle.std.specs.Prelude.{◌≡◌, IfOk, IfSome, IsSome};
ghost use Rattle.std.specs.Option.{ForSome};
ghost use Rattle.number_facts.specs.Gaps as gaps;
ghost use Rattle.state_facts.specs.Comparing.{is_array};
ghost use Rattle.state_facts.specs.Forms.{HasReference, HasVar};
ghost use Rattle.ensures_infer.specs.Following as rule;

use crate::inferred::{Inferred, Measure};
use crate::lists::push_some;
use abs_state::{AbsState, Var};
use alias_facts::Nullness;
use domain_api::{Expr, NoMemory, gap_is_at_least};
use number_spans::{Span, less_by, sum_of};
use std::alloc::Global;

/// The number that a variable has.
fn number_in(v: Option<Var>) -> Option<Expr>
    ensures { result ≡ rule.number_in v }
{
    match v {
        Some(Var::Number(e)) => Some(e),
        Some(Var::Reference(_) | Var::Text | Var::Address(..)) | None => None,
    }
}

/// Returns whether a reference is known not to be null.
fn is_array(state: &AbsState, r: u32) -> bool
    requires reached { IsSome state.now }
    ensures { ForSome state.now (λ known. result ≡ is_array known r) }
{
    state.nullness(r) == Nullness::NotNull
}

/// The length of an array, where it is known not to be null.
fn length_of(state: &AbsState, r: u32) -> Option<Expr>
    requires reached { IsSome state.now }
    requires there { ForSome state.now (λ known. HasReference known r) }
    ensures { ForSome state.now (λ known. result ≡ rule.length_of known r) }
{
    if is_array(state, r) {
        Some(state.length(r))
    } else {
        None
    }
}

/// The length of the array that a variable has, where it is known not to be null.
fn length_in(state: &AbsState, v: Option<Var>) -> Option<Expr>
    requires reached { IsSome state.now }
    requires there { IfSome v (λ v. ForSome state.now (λ known. HasVar known v)) }
    ensures { ForSome state.now (λ known. result ≡ rule.length_in known v) }
{
    match v {
        Some(Var::Reference(r)) => length_of(state, r),
        Some(Var::Number(_) | Var::Text | Var::Address(..)) | None => None,
    }
}

/// The numbers that a variable may have.
fn range_in(state: &AbsState, v: Option<Var>) -> Option<Span>
    requires reached { IsSome state.now }
    requires there { IfSome v (λ v. ForSome state.now (λ known. HasVar known v)) }
    ensures { ForSome state.now (λ known. result ≡ rule.range_in known v) }
{
    match v {
        Some(Var::Number(e)) => {
            let (lo, hi, hole) = state.ends(e);
            Some(Span { lo, hi, hole })
        }
        Some(Var::Reference(_) | Var::Text | Var::Address(..)) | None => None,
    }
}

/// Returns whether a variable has an array that is known not to be null.
fn is_array_in(state: &AbsState, v: Option<Var>) -> bool
    requires reached { IsSome state.now }
    ensures { ForSome state.now (λ known. result ≡ rule.is_array_in known v) }
{
    match v {
        Some(Var::Reference(r)) => is_array(state, r),
        Some(Var::Number(_) | Var::Text | Var::Address(..)) | None => false,
    }
}

/// The number of an argument that the result is compared with. None where it has none.
fn measured(state: &AbsState, measure: Measure, i: u16) -> Option<Expr>
    requires reached { IsSome state.now }
    ensures { ForSome state.now (λ known. result ≡ rule.measured_in measure known (rule.argument i known)) }
{
    let v = state.var_at(u64::from(i));
    match measure {
        Measure::Value => number_in(v),
        Measure::Length => length_in(state, v),
    }
}

/// Returns whether the first number, and so much more, is known to be at most the second.
#[tactic(auto, unfolding(number_facts::specs::Gaps::at_most))]
fn is_below_by(state: &AbsState, a: Expr, more: i64, b: Expr) -> bool
    requires reached { IsSome state.now }
    ensures { ForSome state.now (λ known. result ≡ gaps.at_most known.facts a more b) }
{
    let far = less_by(sum_of(a.k, more), b.k);
    gap_is_at_least(state.gap(a.sym, b.sym), far)
}

/// Returns whether both numbers are there and that is known of them.
fn are_in_order(state: &AbsState, a: Option<Expr>, more: i64, b: Option<Expr>) -> bool
    requires reached { IsSome state.now }
    ensures { ForSome state.now (λ known. result ≡ rule.are_in_order known a more b) }
{
    match (a, b) {
        (Some(a), Some(b)) => is_below_by(state, a, more, b),
        (Some(_), None) | (None, _) => false,
    }
}

/// Returns whether the result, and so much more, is known to be at most this number of an argument.
fn is_result_below(state: &AbsState, more: i64, measure: Measure, i: u16) -> bool
    requires reached { IsSome state.now }
    ensures { ForSome state.now (λ known. result ≡ rule.is_result_below known more measure i) }
{
    let number = number_in(state.from_top(0));
    are_in_order(state, number, more, measured(state, measure, i))
}

/// Returns whether all numbers of a range are at least this one.
fn is_at_least(lo: i32, range: Option<Span>) -> bool
    ensures { result ≡ rule.is_at_least lo range }
{
    match range {
        None => false,
        Some(range) => i128::from(lo) <= range.lo,
    }
}

/// Returns whether all numbers of a range are at most this one.
fn is_at_most(hi: i32, range: Option<Span>) -> bool
    ensures { result ≡ rule.is_at_most hi range }
{
    match range {
        None => false,
        Some(range) => range.hi <= i128::from(hi),
    }
}

/// Returns whether this is known of the result in a state that is reached.
#[tactic(auto, unfolding(crate::specs::Following::shows))]
fn shows(state: &AbsState, fact: Inferred) -> bool
    requires reached { IsSome state.now }
    ensures { ForSome state.now (λ known. result ≡ rule.shows known fact) }
{
    match fact {
        Inferred::AtLeast(lo) => is_at_least(lo, range_in(state, state.from_top(0))),
        Inferred::AtMost(hi) => is_at_most(hi, range_in(state, state.from_top(0))),
        Inferred::NotNull => is_array_in(state, state.from_top(0)),
        Inferred::Below(measure, i) => is_result_below(state, 1, measure, i),
        Inferred::NotAbove(measure, i) => is_result_below(state, 0, measure, i),
    }
}

/// Returns whether it follows in a state. Where nothing is reached, everything does.
fn follows(state: &AbsState, fact: Inferred) -> bool
    ensures { result ≡ rule.follows fact state.now }
{
    !state.reached() || shows(state, fact)
}

/// The numbers that may be returned. None where nothing is reached, or no number is returned.
#[tactic(auto, unfolding(crate::specs::Following::range_at))]
fn range_at(state: &AbsState) -> Option<Span>
    ensures { result ≡ rule.range_at state.now }
{
    if !state.reached() {
        return None;
    }
    range_in(state, state.from_top(0))
}

/// The numbers that each return may give.
pub(crate) fn ranges_at(alloc: Global, returns: &[AbsState]) -> Result<Vec<Span>, NoMemory>
    ensures { IfOk result (λ ranges. ranges.items ≡ rule.ranges_at returns.now) }
{
    let mut ranges = Vec::new(alloc);
    for state in returns {
        push_some(&mut ranges, range_at(state))?;
    }
    Ok(ranges)
}

/// Returns whether it follows at each of these returns.
fn follows_at_each(returns: &[AbsState], fact: Inferred) -> bool
    ensures { result ≡ rule.follows_at_each returns.now fact }
{
    returns.iter().all(|state| follows(state, fact))
}

/// What is said, where it follows at each of these returns.
fn if_it_follows(returns: &[AbsState], fact: Inferred) -> Option<Inferred>
    ensures { result ≡ rule.if_it_follows returns.now fact }
{
    if follows_at_each(returns, fact) {
        Some(fact)
    } else {
        None
    }
}

/// What follows of a row at each of these returns: what it says, or what is weaker.
///
/// Cost: that of two gaps at each return. It takes no memory.
pub(crate) fn shown_of(returns: &[AbsState], row: Inferred) -> Option<Inferred>
    ensures { result ≡ rule.shown_of returns.now row }
{
    match (if_it_follows(returns, row), row.weaker()) {
        (None, Some(weaker)) => if_it_follows(returns, weaker),
        (first, _) => first,
    }
}
