//! The test of the form.

ghost use Rattle.std.specs.Prelude.{◌≡◌, ◌↔◌, nat_le, map, IsTrue};
ghost use Rattle.std.specs.List.{list_all, list_any};
ghost use Rattle.array_segments.specs.CommonBounds.{same_expr};
ghost use Rattle.array_segments.specs.FormTest.{is_formed};
ghost use Rattle.array_segments.specs.SegmentLists.{last_bound};
ghost use Rattle.array_segments.specs.Segments.{lists_of};
ghost use Rattle.array_contents.specs.Contents.{AreFormed};
ghost use Rattle.array_contents.specs.FormTest.{are_formed, is_formed_at};

use crate::contents::Contents;
use crate::narrow::are_narrow;
use array_segments::Segs;
use domain_api::Expr;
use interval_domain::Range;

/// Returns whether the expression is one of these.
fn has(exprs: &[Expr], expr: Expr) -> bool
    ensures { result ≡ list_any (same_expr expr) exprs.now }
{
    exprs.iter().any(|x| expr.sym == x.sym && expr.k == x.k)
}

/// Returns whether the expression is one of the last bound's.
fn ends_at(one: &Segs<Range>, length: Expr) -> bool
    ensures { result ≡ list_any (same_expr length) (last_bound (lists_of one.now)) }
{
    match one.bounds.get(one.contents.len()) {
        None => false,
        Some(last) => has(last, length),
    }
}

/// Returns whether all of these expressions name symbols that are there, of so many.
fn are_there(symbols: usize, exprs: &[Expr]) -> bool
    ensures { result ≡ list_all (λ e. nat_le e.sym symbols) exprs.now }
{
    exprs.iter().all(|e| e.sym as usize <= symbols)
}

/// Returns whether those of each bound do.
#[tactic(auto, using(array_segments::proofs::InclusionSteps::list_all_more))]
fn all_are_there(symbols: usize, bounds: &[Vec<Expr>]) -> bool
    ensures { result ≡ list_all (list_all (λ e. nat_le e.sym symbols)) (map (λ bound. bound.items) bounds.now) }
{
    for bound in bounds {
        if !are_there(symbols, bound) {
            return false;
        }
    }
    true
}

/// Returns whether the segments have their form.
fn is_formed(one: &Segs<Range>) -> bool
    ensures { result ≡ is_formed (lists_of one.now) }
{
    one.has_form()
}

/// Returns whether the segments have their form, end at the length, name symbols that are there, and have ranges of
/// int32.
fn is_formed_at(symbols: usize, length: Expr, one: &Segs<Range>) -> bool
    ensures { result ≡ is_formed_at symbols length (lists_of one.now) }
{
    is_formed(one)
        && (ends_at(one, length)
            && (all_are_there(symbols, &one.bounds) && are_narrow(&one.contents)))
}

/// Returns whether there are such segments for each of these lengths.
#[tactic(auto, using(crate::proofs::FormSteps::formed_more, crate::proofs::FormSteps::unlike_lengths))]
fn are_formed(symbols: usize, lengths: &[Expr], segments: &[Segs<Range>]) -> bool
    ensures { result ≡ are_formed symbols lengths.now (map lists_of segments.now) }
{
    if lengths.len() != segments.len() {
        return false;
    }
    for place in 0..lengths.len() {
        if !is_formed_at(symbols, lengths[place], &segments[place]) {
            return false;
        }
    }
    true
}

impl Contents {
    /// Returns whether there are segments for each of these lengths, each of which ends at its length and names symbols
    /// that are there, of so many.
    #[tactic(auto, using(crate::proofs::FormSteps::formed_where, crate::proofs::FormSteps::formed_then))]
    pub fn are_formed(&self, symbols: usize, lengths: &[Expr]) -> bool
        ensures { IsTrue result ↔ AreFormed symbols lengths.now self.now }
    {
        are_formed(symbols, lengths, &self.segments)
    }
}
