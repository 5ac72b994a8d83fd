//! When what is known entails a condition.

ghost use Rattle.std.specs.Prelude.{◌≡◌, ◌&&◌, pos, int_le, true, Some};
ghost use Rattle.cil_model.specs.Arithmetic.{LEAST, GREATEST};
ghost use Rattle.number_facts.specs.Arith.{exact};
ghost use Rattle.number_facts.specs.Ends.{range_of};
ghost use Rattle.number_facts.specs.Facts.{IsNamed};
ghost use Rattle.number_facts.specs.Gaps.{at_most};
ghost use Rattle.number_spans.specs.Constants.{constant};
ghost use Rattle.number_spans.specs.Spans as spans;
ghost use Rattle.state_facts.specs.Forms.{HasForm, HasNumber};
ghost use Rattle.state_obligations.specs.Conditions.{IsThere};
ghost use Rattle.state_obligations.specs.Entailed.{are_int32, entailed_by};
ghost use Rattle.state_obligations.specs.Meaning.{EntailsIt};

use crate::condition::Condition;
use alias_facts::Nullness;
use cil_model::BinOp;
use domain_api::{Expr, Order};
use number_facts::Numbers;
use number_spans::{Span, constant, less_by, sum_of};
use state_facts::Known;

/// The least int32.
const LEAST_INT32: i128 = -2_147_483_648;

/// Returns whether an expression and a number more are known to be at most another expression.
#[tactic(auto, unfolding(number_facts::specs::Gaps::at_most))]
fn is_at_most(numbers: &Numbers, a: Expr, more: i64, b: Expr) -> bool
    ensures { result ≡ at_most numbers.now a more b }
{
    let far = less_by(sum_of(a.k, more), b.k);
    match numbers.gap(a.sym, b.sym) {
        None => false,
        Some(gap) => far <= i128::from(gap),
    }
}

/// Returns whether an expression is known to lie between two numbers.
fn is_between(numbers: &Numbers, least: i64, e: Expr, greatest: i64) -> bool
    ensures { result ≡
        (at_most numbers.now (constant least) (pos 0) e && at_most numbers.now e (pos 0) (constant greatest)) }
{
    is_at_most(numbers, constant(least), 0, e) && is_at_most(numbers, e, 0, constant(greatest))
}

/// Returns whether the number is none that the expression may have.
fn is_excluded(numbers: &Numbers, e: Expr, n: i128) -> bool
    requires there { IsNamed numbers.now e }
    ensures { result ≡ spans.excludes (range_of numbers.now e) n }
{
    let (lo, hi, hole) = numbers.ends(e);
    Span { lo, hi, hole }.excludes(n)
}

/// Returns whether both ends of a range are int32.
fn are_ends_int32(ends: (i64, i64)) -> bool
    ensures { result ≡ (int_le LEAST ends.0 && int_le ends.1 GREATEST) }
{
    i64::from(i32::MIN) <= ends.0 && ends.1 <= i64::from(i32::MAX)
}

/// Returns whether the exact result of an operator is an int32.
#[tactic(auto, using(crate::proofs::Nearest::near_int32))]
fn is_int32(known: &Known, op: BinOp, a: Expr, b: Expr) -> bool
    requires form { HasForm known.now }
    requires first { HasNumber known.now a }
    requires second { HasNumber known.now b }
    ensures { result ≡ are_int32 (exact op known.now.facts a b) }
{
    are_ends_int32(known.numbers.exact_ends(op, a, b))
}

/// Returns whether what is known entails a condition of operands.
///
/// Cost: that of a gap or two. It takes no memory.
pub fn entails(known: &Known, condition: Condition) -> bool
    requires form { HasForm known.now }
    requires there { IsThere known.now condition }
    ensures value { result ≡ entailed_by condition known.now }
    ensures sound { result ≡ true → EntailsIt condition (Some known.now) }
{
    is_entailed(known, condition)
}

/// The same, by its rule.
#[tactic(auto, unfolding(crate::specs::Entailed::entailed_by))]
fn is_entailed(known: &Known, condition: Condition) -> bool
    requires form { HasForm known.now }
    requires there { IsThere known.now condition }
    ensures { result ≡ entailed_by condition known.now }
{
    let numbers = &known.numbers;
    match condition {
        Condition::NullUse(r) => known.nullness(r) == Nullness::NotNull,
        Condition::Lower(e) | Condition::ArraySize(e) => is_at_most(numbers, constant(0), 0, e),
        Condition::Upper(r, i) => is_at_most(numbers, i, 1, known.length(r)),
        Condition::Shift(n) => is_between(numbers, 0, n, 31),
        Condition::DivZero(e) | Condition::Assert(e) => is_excluded(numbers, e, 0),
        Condition::DivOverflow(a, b) => {
            is_excluded(numbers, a, LEAST_INT32) || is_excluded(numbers, b, -1)
        }
        Condition::Overflow(op, a, b) => is_int32(known, op, a, b),
    }
}
