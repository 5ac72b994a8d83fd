//! The bounds that two sides have in common, where expressions of both are paired.

ghost use Rattle.std.specs.Prelude.{◌≡◌, ◌<◌, ◌≤◌, [], length, unwrap_or, IfOk, IfSome, OnOk};
ghost use Rattle.std.specs.List.{filter_map, list_any, position};
ghost use Rattle.std.specs.Option.{option_to_list};
ghost use Rattle.symbolic_values.specs.Names.{paired_expr};
ghost use Rattle.array_segments.specs.CommonBounds.{lowest, paired_exprs, precedes, put, put_all, same_expr, with_must};

use domain_api::{Expr, NoMemory};
use std::alloc::Global;
use symbolic_values::Pairs;

/// The most expressions of one bound.
pub(crate) const EXPR_LIMIT: usize = 4;

/// Tells whether the first comes before the second: by symbol, then by constant.
fn precedes(a: Expr, b: Expr) -> bool
    ensures { result ≡ precedes a b }
{
    a.sym < b.sym || (a.sym == b.sym && a.k < b.k)
}

/// Tells whether both are the same.
fn is_same(a: Expr, b: Expr) -> bool
    ensures { result ≡ same_expr a b }
{
    a.sym == b.sym && a.k == b.k
}

/// Tells whether the expression is one of these.
pub(crate) fn has(exprs: &[Expr], expr: Expr) -> bool
    ensures { result ≡ list_any (same_expr expr) exprs.now }
{
    exprs.iter().any(|x| is_same(expr, *x))
}

/// The place of the first expression that comes behind this one.
fn first_behind(ordered: &[Expr], expr: Expr) -> Option<usize>
    ensures value { result ≡ position (precedes expr) ordered.now }
    ensures inside { IfSome result (λ place. place < length ordered.now) }
{
    ordered.iter().position(|x| precedes(expr, *x))
}

/// Puts an expression before the first that comes behind it, unless it is there.
fn put(ordered: &mut Vec<Expr>, expr: Expr) -> Result<(), NoMemory>
    ensures { OnOk result (ordered.new.items ≡ put expr ordered.old.items) }
{
    if has(ordered, expr) {
        return Ok(());
    }
    let place = first_behind(ordered, expr).unwrap_or(ordered.len());
    ordered.insert(place, expr)?;
    Ok(())
}

/// Puts the expression among those in order, if there is one.
fn put_some(ordered: &mut Vec<Expr>, expr: Option<Expr>) -> Result<(), NoMemory>
    ensures { OnOk result (ordered.new.items ≡ put_all ordered.old.items (option_to_list expr)) }
{
    match expr {
        None => Ok(()),
        Some(some) => put(ordered, some),
    }
}

/// Puts what stands for the expression and one of the other side's bound among those in order.
#[tactic(auto, using(crate::proofs::UnifySteps::put_more))]
fn put_paired(
    ordered: &mut Vec<Expr>,
    pairs: &Pairs,
    expr: Expr,
    second: &[Expr],
) -> Result<(), NoMemory>
    ensures { OnOk result (ordered.new.items
        ≡ put_all ordered.old.items (filter_map (λ f. paired_expr pairs.now expr f) second.now)) }
{
    for other in second {
        put_some(ordered, pairs.named(expr, *other))?;
    }
    Ok(())
}

/// What stands for one of each bound, in order.
#[tactic(auto, using(crate::proofs::UnifySteps::put_lists_more))]
fn paired_exprs(
    alloc: Global,
    pairs: &Pairs,
    first: &[Expr],
    second: &[Expr],
) -> Result<Vec<Expr>, NoMemory>
    ensures { IfOk result (λ ordered. ordered.items ≡ put_all [] (paired_exprs pairs.now first.now second.now)) }
{
    let mut ordered = Vec::with_capacity(alloc, EXPR_LIMIT)?;
    for expr in first {
        put_paired(&mut ordered, pairs, *expr, second)?;
    }
    Ok(ordered)
}

/// The lowest four of what stands for one of each bound, with what has to be among them.
pub(crate) fn lowest_paired(
    alloc: Global,
    pairs: &Pairs,
    first: &[Expr],
    second: &[Expr],
    must: Option<Expr>,
) -> Result<Vec<Expr>, NoMemory>
    ensures { IfOk result (λ bound. bound.items
        ≡ lowest must (put_all [] (paired_exprs pairs.now first.now second.now))) }
{
    let mut exprs = paired_exprs(alloc, pairs, first, second)?;
    exprs.truncate(EXPR_LIMIT);
    let Some(expr) = must else {
        return Ok(exprs);
    };
    if has(&exprs, expr) {
        return Ok(exprs);
    }
    exprs.truncate(EXPR_LIMIT - 1);
    exprs.push(expr)?;
    Ok(exprs)
}
