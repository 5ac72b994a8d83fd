//! Sums and differences of spans, and of an expression and a constant.

ghost use Rattle.std.specs.Prelude.{◌≡◌, ◌≤ℤ◌, ◌+ℤ◌, ◌&&◌, pos, negsuc, neg_ℤ, int_le};
ghost use Rattle.cil_model.specs.Arithmetic as arithmetic;
ghost use Rattle.number_spans.specs.Sizes.{IsEnd, IsSmall, IsBounded};
ghost use Rattle.number_spans.specs.Sums.{sums, differences, takes, plus, negated};

use crate::exact::{constants_sum, minus, plus};
use crate::span::{GREATEST, LEAST, Span};
use domain_api::Expr;

/// The sums of two numbers.
pub fn sums(r: Span, q: Span) -> Span
    requires first { IsSmall r }
    requires second { IsSmall q }
    ensures value { result ≡ sums r q }
    ensures low { IsBounded result.lo }
    ensures high { IsBounded result.hi }
{
    Span::between(plus(r.lo, q.lo), plus(r.hi, q.hi))
}

/// The differences.
pub fn differences(r: Span, q: Span) -> Span
    requires first { IsSmall r }
    requires second { IsSmall q }
    ensures value { result ≡ differences r q }
    ensures low { IsBounded result.lo }
    ensures high { IsBounded result.hi }
{
    Span::between(minus(r.lo, q.hi), minus(r.hi, q.lo))
}

/// Returns whether the expression is a constant, and the numbers are int32 also with it added.
pub fn takes(r: Span, e: Expr) -> bool
    requires first { IsSmall r }
    requires least { negsuc 4294967295 ≤ℤ e.k }
    requires greatest { e.k ≤ℤ pos 4294967296 }
    ensures { result ≡ takes r e }
{
    e.sym == 0 && stays(r, i128::from(e.k))
}

/// Returns whether the numbers are int32 also with k added.
fn stays(r: Span, k: i128) -> bool
    requires first { IsSmall r }
    requires second { IsEnd k }
    ensures { result ≡ (int_le arithmetic.LEAST (r.lo +ℤ k) && int_le (r.hi +ℤ k) arithmetic.GREATEST) }
{
    LEAST <= plus(r.lo, k) && plus(r.hi, k) <= GREATEST
}

/// An expression with a constant added.
pub fn with_constant(e: Expr, constant: Expr) -> Expr
    requires least { (negsuc 4294967295 ≤ℤ e.k) × (negsuc 4294967295 ≤ℤ constant.k) }
    requires greatest { (e.k ≤ℤ pos 4294967296) × (constant.k ≤ℤ pos 4294967296) }
    ensures { result ≡ plus e constant }
{
    Expr {
        sym: e.sym,
        k: constants_sum(e.k, constant.k),
    }
}

/// The opposite number.
fn opposite(k: i64) -> i64
    requires { negsuc 4294967295 ≤ℤ k }
    ensures { result ≡ neg_ℤ k }
{
    -k
}

/// The constant, negated.
pub fn negated(e: Expr) -> Expr
    requires { negsuc 4294967295 ≤ℤ e.k }
    ensures { result ≡ negated e }
{
    Expr {
        sym: e.sym,
        k: opposite(e.k),
    }
}
