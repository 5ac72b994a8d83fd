//! What is known where a condition was met.

ghost use Rattle.std.specs.Prelude.{◌≡◌, true, IfOk, OnErr, Some, None, is_some, if◌then◌else◌};
ghost use Rattle.number_facts.specs.Facts.{IsNamed};
ghost use Rattle.state_facts.specs.Forms.{HasForm};
ghost use Rattle.state_obligations.specs.Assumed as rule;
ghost use Rattle.state_obligations.specs.Conditions.{IsThere};
ghost use Rattle.state_obligations.specs.Meaning.{AssumesIt};

use crate::condition::Condition;
use cil_model::CmpOp;
use domain_api::{Expr, NoMemory};
use number_spans::constant;
use state_facts::{Known, Var};

/// The least int32.
const LEAST_INT32: i64 = -2_147_483_648;

/// Returns whether the expression is this constant.
fn is_just(e: Expr, n: i64) -> bool
    ensures { result ≡ rule.is_just e n }
{
    e.sym == 0 && e.k == n
}

/// Assumes a comparison of two numbers. False, here as below: nothing is reached.
fn assume_numbers(known: &mut Known, op: CmpOp, a: Expr, b: Expr) -> Result<bool, NoMemory>
    requires form { HasForm known.old }
    requires first { IsNamed known.old.facts a }
    requires second { IsNamed known.old.facts b }
    ensures reached { IfOk result (λ reached. reached ≡ is_some (rule.compared op a b known.old)) }
    ensures ok { IfOk result (λ reached. reached ≡ true → rule.compared op a b known.old ≡ Some known.new) }
    ensures err { OnErr result (known.new ≡ known.old) }
{
    known.assume(op, Var::Number(a), Var::Number(b), true)
}

/// Assumes that a number is another one than this.
fn assume_not(known: &mut Known, e: Expr, n: i64) -> Result<bool, NoMemory>
    requires form { HasForm known.old }
    requires there { IsNamed known.old.facts e }
    ensures reached { IfOk result (λ reached. reached ≡ is_some (rule.differing e n known.old)) }
    ensures ok { IfOk result (λ reached. reached ≡ true → rule.differing e n known.old ≡ Some known.new) }
    ensures err { OnErr result (known.new ≡ known.old) }
{
    assume_numbers(known, CmpOp::NeUn, e, constant(n))
}

/// Assumes that a number is not negative.
fn assume_not_negative(known: &mut Known, e: Expr) -> Result<bool, NoMemory>
    requires form { HasForm known.old }
    requires there { IsNamed known.old.facts e }
    ensures reached { IfOk result (λ reached. reached ≡ is_some (rule.not_negative e known.old)) }
    ensures ok { IfOk result (λ reached. reached ≡ true → rule.not_negative e known.old ≡ Some known.new) }
    ensures err { OnErr result (known.new ≡ known.old) }
{
    assume_numbers(known, CmpOp::Le, constant(0), e)
}

/// Assumes that an amount to shift by is one of 0 to 31.
#[tactic(auto, using(crate::proofs::Following::ready_behind, crate::proofs::AssumptionLaws::formed_where_err))]
fn assume_amount(known: &mut Known, n: Expr) -> Result<bool, NoMemory>
    requires form { HasForm known.old }
    requires there { IsNamed known.old.facts n }
    ensures reached { IfOk result (λ reached. reached ≡ is_some (rule.amount n known.old)) }
    ensures ok { IfOk result (λ reached. reached ≡ true → rule.amount n known.old ≡ Some known.new) }
    ensures form { OnErr result (HasForm known.new) }
{
    if !assume_not_negative(known, n)? {
        return Ok(false);
    }
    assume_numbers(known, CmpOp::Le, n, constant(31))
}

/// Assumes that a quotient is not that of the least int32 and -1: where the one is known, the other is another.
#[tactic(auto, unfolding(crate::specs::Assumed::no_division_overflow))]
fn assume_no_division_overflow(known: &mut Known, a: Expr, b: Expr) -> Result<bool, NoMemory>
    requires form { HasForm known.old }
    requires first { IsNamed known.old.facts a }
    requires second { IsNamed known.old.facts b }
    ensures reached { IfOk result (λ reached. reached ≡ is_some (rule.no_division_overflow a b known.old)) }
    ensures ok { IfOk result (λ reached. reached ≡ true → rule.no_division_overflow a b known.old ≡ Some known.new) }
    ensures err { OnErr result (known.new ≡ known.old) }
{
    if is_just(a, LEAST_INT32) {
        assume_not(known, b, -1)
    } else if is_just(b, -1) {
        assume_not(known, a, LEAST_INT32)
    } else {
        Ok(true)
    }
}

/// Assumes a condition of operands. False: it cannot be met, and nothing is reached. Of an overflow nothing is assumed.
///
/// Cost: that of a comparison or two that are assumed.
///
/// # Errors
///
/// Want of memory. What is assumed then is left open.
pub fn assume(known: &mut Known, condition: Condition) -> Result<bool, NoMemory>
    requires form { HasForm known.old }
    requires there { IsThere known.old condition }
    ensures reached { IfOk result (λ reached. reached ≡ is_some (rule.assumed_by condition known.old)) }
    ensures ok { IfOk result (λ reached. reached ≡ true → rule.assumed_by condition known.old ≡ Some known.new) }
    ensures keeps { IfOk result (λ reached.
        AssumesIt condition (Some known.old) (if reached then Some known.new else None)) }
    ensures form { OnErr result (HasForm known.new) }
{
    assume_by_rule(known, condition)
}

/// The same, by its rule.
#[tactic(auto, unfolding(crate::specs::Assumed::assumed_by), using(crate::proofs::AssumptionLaws::formed_where_err))]
fn assume_by_rule(known: &mut Known, condition: Condition) -> Result<bool, NoMemory>
    requires form { HasForm known.old }
    requires there { IsThere known.old condition }
    ensures reached { IfOk result (λ reached. reached ≡ is_some (rule.assumed_by condition known.old)) }
    ensures ok { IfOk result (λ reached. reached ≡ true → rule.assumed_by condition known.old ≡ Some known.new) }
    ensures form { OnErr result (HasForm known.new) }
{
    match condition {
        Condition::NullUse(r) => {
            known.assume(CmpOp::NeUn, Var::Reference(r), Var::Reference(0), true)
        }
        Condition::Lower(e) | Condition::ArraySize(e) => assume_not_negative(known, e),
        Condition::Upper(r, i) => assume_numbers(known, CmpOp::Lt, i, known.length(r)),
        Condition::Shift(n) => assume_amount(known, n),
        Condition::DivZero(e) | Condition::Assert(e) => assume_not(known, e, 0),
        Condition::DivOverflow(a, b) => assume_no_division_overflow(known, a, b),
        Condition::Overflow(..) => Ok(true),
    }
}
