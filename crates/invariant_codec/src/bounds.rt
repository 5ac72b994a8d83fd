//! Bounds of segments: at each some equal expressions.

ghost use Rattle.std.specs.Prelude.{◌≡◌, ◌+◌, ◌-◌, ◌≤◌, length};
ghost use Rattle.cc_base.specs.Tests.{first_of, JudgesOrNoMemory};
ghost use Rattle.invariant_codec.specs.Formats.{each};
ghost use Rattle.invariant_codec.specs.Numbers.{expr};
ghost use Rattle.invariant_codec.specs.Parses.{IsRead};
ghost use Rattle.invariant_codec.specs.Segments.{bound, first_bound, has, next_bound};

use crate::expressions::read_expr;
use crate::fault::{InvFault, InvRefusal};
use crate::numbers::read_within;
use domain_api::Expr;
use std::alloc::Global;

/// So many expressions from this offset on, and the offset after them.
#[tactic(auto, using(crate::proofs::Counted::none_read, crate::proofs::Counted::all_read))]
fn read_each(
    alloc: Global,
    bytes: &[u8],
    start: u32,
    count: u8,
    symbols: usize,
) -> Result<(Vec<Expr>, u32), InvRefusal>
    requires short { length bytes.now ≤ 2147483647 }
    requires inside { start ≤ length bytes.now }
    ensures { JudgesOrNoMemory result (first_of ((each (expr symbols) count).read bytes.now start).tests)
        (λ read. IsRead bytes.now ((each (expr symbols) count).read bytes.now start) read.0.items read.1) }
{
    let mut exprs = Vec::new(alloc);
    let mut at = start;
    for _expr in 0..count {
        let expr = read_expr(bytes, at, symbols)?;
        exprs.push(expr)?;
        at += 10;
    }
    Ok((exprs, at))
}

/// Returns whether the expression is one of these.
fn has(expr: Expr, exprs: &[Expr]) -> bool
    ensures { result ≡ has expr exprs.now }
{
    exprs.iter().any(|e| expr.sym == e.sym && expr.k == e.k)
}

/// The expressions at a bound, 1 to 4, after their count, and the offset after them.
#[tactic(auto, using(cc_base::proofs::TestLemmas::appended, cc_base::proofs::TestLemmas::carried), unfolding(crate::specs::Segments::bound))]
fn read_bound(
    alloc: Global,
    bytes: &[u8],
    at: u32,
    symbols: usize,
) -> Result<(Vec<Expr>, u32), InvRefusal>
    requires short { length bytes.now ≤ 2147483647 }
    ensures { JudgesOrNoMemory result (first_of ((bound symbols).read bytes.now at).tests)
        (λ read. IsRead bytes.now ((bound symbols).read bytes.now at) read.0.items read.1) }
{
    let count = read_within(bytes, at, 1, 4)?;
    read_each(alloc, bytes, at + 1, count, symbols)
}

/// The first bound, which has 0, and the offset after it.
#[tactic(auto, using(cc_base::proofs::TestLemmas::appended, cc_base::proofs::TestLemmas::first_tests, cc_base::proofs::TestLemmas::carried), unfolding(crate::specs::Segments::first_bound))]
pub(crate) fn read_first_bound(
    alloc: Global,
    bytes: &[u8],
    at: u32,
    symbols: usize,
) -> Result<(Vec<Expr>, u32), InvRefusal>
    requires short { length bytes.now ≤ 2147483647 }
    ensures { JudgesOrNoMemory result (first_of ((first_bound symbols).read bytes.now at).tests)
        (λ read. IsRead bytes.now ((first_bound symbols).read bytes.now at) read.0.items read.1) }
{
    let (exprs, next) = read_bound(alloc, bytes, at, symbols)?;
    if !has(Expr { sym: 0, k: 0 }, &exprs) {
        return Err(InvFault::Form(at).into());
    }
    Ok((exprs, next))
}

/// A bound, which has the length where it is the last, and the offset after it.
#[tactic(auto, using(cc_base::proofs::TestLemmas::appended, cc_base::proofs::TestLemmas::first_tests, cc_base::proofs::TestLemmas::carried), unfolding(crate::specs::Segments::next_bound))]
pub(crate) fn read_next_bound(
    alloc: Global,
    bytes: &[u8],
    at: u32,
    symbols: usize,
    length_is: Expr,
    is_last: bool,
) -> Result<(Vec<Expr>, u32), InvRefusal>
    requires short { length bytes.now ≤ 2147483647 }
    ensures { JudgesOrNoMemory result (first_of ((next_bound symbols length_is is_last).read bytes.now at).tests)
        (λ read. IsRead bytes.now ((next_bound symbols length_is is_last).read bytes.now at) read.0.items read.1) }
{
    let (exprs, next) = read_bound(alloc, bytes, at, symbols)?;
    if is_last && !has(length_is, &exprs) {
        return Err(InvFault::Form(at).into());
    }
    Ok((exprs, next))
}
