//! Whether contents are the same.

ghost use Rattle.std.specs.Prelude.{◌≡◌, ◌↔◌, map, IsTrue};
ghost use Rattle.array_segments.specs.Segments.{lists_of};

use crate::contents::Contents;
use array_segments::Segs;
use domain_api::Expr;
use interval_domain::Range;

/// Returns whether two ranges are equal.
fn is_same_range(a: &Range, b: &Range) -> bool
    ensures { IsTrue result ↔ (a.now ≡ b.now) }
{
    a.lo() == b.lo() && a.hi() == b.hi() && a.hole() == b.hole()
}

/// Returns whether two expressions are equal.
fn is_same_expr(a: Expr, b: Expr) -> bool
    ensures { IsTrue result ↔ (a ≡ b) }
{
    a.sym == b.sym && a.k == b.k
}

/// Returns whether two lists of ranges are equal.
fn are_same_ranges(a: &[Range], b: &[Range]) -> bool
    ensures { IsTrue result ↔ (a.now ≡ b.now) }
{
    if a.len() != b.len() {
        return false;
    }
    for index in 0..a.len() {
        if !is_same_range(&a[index], &b[index]) {
            return false;
        }
    }
    true
}

/// Returns whether two lists of marks are equal.
fn are_same_marks(a: &[bool], b: &[bool]) -> bool
    ensures { IsTrue result ↔ (a.now ≡ b.now) }
{
    if a.len() != b.len() {
        return false;
    }
    for index in 0..a.len() {
        if a[index] != b[index] {
            return false;
        }
    }
    true
}

/// Returns whether two bounds are equal.
fn are_same_exprs(a: &[Expr], b: &[Expr]) -> bool
    ensures { IsTrue result ↔ (a.now ≡ b.now) }
{
    if a.len() != b.len() {
        return false;
    }
    for index in 0..a.len() {
        if !is_same_expr(a[index], b[index]) {
            return false;
        }
    }
    true
}

/// Returns whether two lists of bounds are equal.
fn are_same_bounds(a: &[Vec<Expr>], b: &[Vec<Expr>]) -> bool
    ensures { IsTrue result ↔ (map (λ bound. bound.items) a.now ≡ map (λ bound. bound.items) b.now) }
{
    if a.len() != b.len() {
        return false;
    }
    for index in 0..a.len() {
        if !are_same_exprs(&a[index], &b[index]) {
            return false;
        }
    }
    true
}

/// Returns whether the segments of two references are equal.
fn are_same_segments(a: &Segs<Range>, b: &Segs<Range>) -> bool
    ensures { IsTrue result ↔ (lists_of a.now ≡ lists_of b.now) }
{
    are_same_bounds(&a.bounds, &b.bounds)
        && are_same_ranges(&a.contents, &b.contents)
        && are_same_marks(&a.marks, &b.marks)
}

/// Returns whether the segments of each are.
fn are_all_same(a: &[Segs<Range>], b: &[Segs<Range>]) -> bool
    ensures { IsTrue result ↔ (map lists_of a.now ≡ map lists_of b.now) }
{
    if a.len() != b.len() {
        return false;
    }
    for index in 0..a.len() {
        if !are_same_segments(&a[index], &b[index]) {
            return false;
        }
    }
    true
}

impl Contents {
    /// Returns whether the same is known. Takes no memory.
    pub fn same(&self, other: &Contents) -> bool
        ensures { IsTrue result ↔ (self.now ≡ other.now) }
    {
        are_all_same(&self.segments, &other.segments)
    }
}
