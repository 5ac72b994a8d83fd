//! The tests of what rules on segments ask of their caller.

ghost use Rattle.std.specs.Prelude.{◌≡◌, ◌-◌, ◌^◌, ◌<◌, ◌<ℤ◌, pos, length, get_or, None, Some, OnOk};
ghost use Rattle.std.specs.List.{filter_map, list_any};
ghost use Rattle.symbolic_values.specs.Names.{paired_expr, renamed};
ghost use Rattle.array_segments.specs.Behind.{StandsForBoth};
ghost use Rattle.array_segments.specs.SegmentLists.{HasForm, last_bound, zero_expr};
ghost use Rattle.array_segments.specs.Segments.{lists_of};
ghost use Rattle.segment_rules.specs.Ends.{is_name, stands_for_both};

use array_segments::Segs;
use domain_api::Expr;
use interval_domain::Range;
use rule_text::Failure;
use symbolic_values::{Pairs, renamed};

/// These are segments.
pub fn formed(segs: &Segs<Range>) -> Result<(), Failure>
    ensures { OnOk result (HasForm (lists_of segs.now)) }
{
    if segs.has_form() {
        Ok(())
    } else {
        Err(Failure::Unmet("the form of segments"))
    }
}

/// The next index has a constant of 64 bits.
pub fn has_next(at: Expr) -> Result<(), Failure>
    ensures { OnOk result (at.k <ℤ pos (2 ^ 63 - 1)) }
{
    if at.k < 9_223_372_036_854_775_807 {
        Ok(())
    } else {
        Err(Failure::Unmet("a next index"))
    }
}

/// Tells whether this is the number 0.
fn is_zero(name: Option<Expr>) -> bool
    ensures { result ≡ is_name name zero_expr }
{
    is_name(name, Expr { sym: 0, k: 0 })
}

/// Tells whether the name is there, and is this expression.
fn is_name(name: Option<Expr>, expr: Expr) -> bool
    ensures { result ≡ is_name name expr }
{
    match name {
        None => false,
        Some(name) => expr.sym == name.sym && expr.k == name.k,
    }
}

/// Symbol 0 stays 0.
pub fn zero_stays(names: &[Option<Expr>]) -> Result<(), Failure>
    ensures { OnOk result (get_or names.now 0 None ≡ Some zero_expr) }
{
    if !names.is_empty() && is_zero(names[0]) {
        Ok(())
    } else {
        Err(Failure::Unmet("0 for symbol 0"))
    }
}

/// Returns how many expressions of a bound keep a name.
fn names_left(bound: &[Expr], names: &[Option<Expr>]) -> usize
    ensures { result ≡ length (filter_map (renamed names.now) bound.now) }
{
    bound.iter().filter_map(|e| renamed(*e, names)).count()
}

/// The same of the last bound.
fn left_at_end(segs: &Segs<Range>, names: &[Option<Expr>]) -> usize
    requires { HasForm (lists_of segs.now) }
    ensures { result ≡ length (filter_map (renamed names.now) (last_bound (lists_of segs.now))) }
{
    names_left(&segs.bounds[segs.contents.len()], names)
}

/// The last bound keeps an expression.
pub fn keeps_end(segs: &Segs<Range>, names: &[Option<Expr>]) -> Result<(), Failure>
    requires { HasForm (lists_of segs.now) }
    ensures { OnOk result (0 < length (filter_map (renamed names.now) (last_bound (lists_of segs.now)))) }
{
    if left_at_end(segs, names) > 0 {
        Ok(())
    } else {
        Err(Failure::Unmet("a name for the last bound"))
    }
}

/// Tells whether the new expression stands for this one and one of the other side's bound.
fn stands_for_one(pairs: &Pairs, e: Expr, second: &[Expr], new: Expr) -> bool
    ensures { result ≡ list_any (λ f. is_name (paired_expr pairs.now e f) new) second.now }
{
    second.iter().any(|f| is_name(pairs.named(e, *f), new))
}

/// Tells whether it stands for one of each bound.
fn stands_for_both(pairs: &Pairs, first: &[Expr], second: &[Expr], new: Expr) -> bool
    ensures { result ≡ stands_for_both pairs.now first.now second.now new }
{
    first.iter().any(|e| stands_for_one(pairs, *e, second, new))
}

/// Tells whether it stands for one of each side's last bound.
fn stands_at_ends(a: &Segs<Range>, b: &Segs<Range>, pairs: &Pairs, length: Expr) -> bool
    requires form { HasForm (lists_of a.now) }
    requires other { HasForm (lists_of b.now) }
    ensures { result
        ≡ stands_for_both pairs.now (last_bound (lists_of a.now)) (last_bound (lists_of b.now)) length }
{
    let first = &a.bounds[a.contents.len()];
    let second = &b.bounds[b.contents.len()];
    stands_for_both(pairs, first, second, length)
}

/// The length stands for an expression of each side's last bound.
pub fn ends_pair(
    a: &Segs<Range>,
    b: &Segs<Range>,
    pairs: &Pairs,
    length: Expr,
) -> Result<(), Failure>
    requires form { HasForm (lists_of a.now) }
    requires other { HasForm (lists_of b.now) }
    ensures { OnOk result
        (StandsForBoth pairs.now (last_bound (lists_of a.now)) (last_bound (lists_of b.now)) length) }
{
    if stands_at_ends(a, b, pairs, length) {
        Ok(())
    } else {
        Err(Failure::Unmet("the length at both ends"))
    }
}
