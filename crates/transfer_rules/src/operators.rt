//! Operators, of a state that may be reached or not.

ghost use Rattle.std.specs.Prelude.{◌≡◌, OnOk, Some};
ghost use Rattle.std.specs.Option.{ForSome, option_and_then};
ghost use Rattle.cil_model.specs.Comparisons.{comparison_of};
ghost use Rattle.cil_model.specs.declared.instruction.Op.TheVariants as ops;
ghost use Rattle.state_facts.specs.Forms.{HasVar};
ghost use Rattle.transfer_rules.specs.Acts as rule;
ghost use Rattle.transfer_rules.specs.Operands.{on_one};
ghost use Rattle.transfer_rules.specs.Owed.{AreReadyFor, IsReady};

use crate::operands::{refuse, take, take_two};
use abs_state::{AbsState, Var};
use cil_model::{BinOp, comparison_of};
use domain_api::NoMemory;
use number_spans::constant;

/// Pushes what an operator gives of two values.
#[tactic(auto, using(crate::proofs::Calculating::calculating))]
fn calculate(state: &mut AbsState, op: BinOp, a: Var, b: Var) -> Result<(), NoMemory>
    requires first { ForSome state.old (λ known. HasVar known a) }
    requires second { ForSome state.old (λ known. HasVar known b) }
    requires ready { AreReadyFor op (Some a) (Some b) }
    ensures { OnOk result (state.new ≡ option_and_then (rule.calculated op (comparison_of op) a b) state.old) }
{
    if comparison_of(op).is_some() {
        return state.compare(op, a, b);
    }
    match (a, b) {
        (Var::Number(a), Var::Number(b)) => state.arith(op, a, b),
        (Var::Number(_), Var::Reference(_) | Var::Text | Var::Address(..))
        | (Var::Reference(_) | Var::Text | Var::Address(..), _) => {
            refuse(state);
            Ok(())
        }
    }
}

/// Takes two operands, and pushes what the operator gives.
#[tactic(auto, using(crate::proofs::Calculating::calculating))]
pub(crate) fn operate(state: &mut AbsState, op: BinOp) -> Result<(), NoMemory>
    requires ready { ForSome state.old (IsReady (ops.Bin op)) }
    ensures { OnOk result (state.new ≡ option_and_then (rule.operated op) state.old) }
{
    let Some((a, b)) = take_two(state)? else {
        refuse(state);
        return Ok(());
    };
    calculate(state, op, a, b)
}

/// Takes the top from a number.
#[tactic(auto, using(crate::proofs::Calculating::calculating))]
fn take_from(state: &mut AbsState, n: i32) -> Result<(), NoMemory>
    ensures { OnOk result (state.new ≡ option_and_then (on_one (rule.taken_from n)) state.old) }
{
    let Some(Var::Number(e)) = take(state)? else {
        refuse(state);
        return Ok(());
    };
    state.arith(BinOp::Sub, constant(i64::from(n)), e)
}

/// Takes the top from 0.
#[tactic(auto, using(crate::proofs::Calculating::calculating))]
pub(crate) fn negate(state: &mut AbsState) -> Result<(), NoMemory>
    ensures { OnOk result (state.new ≡ option_and_then rule.negated state.old) }
{
    take_from(state, 0)
}

/// Takes the top from -1, which turns each of its bits.
#[tactic(auto, using(crate::proofs::Calculating::calculating))]
pub(crate) fn complement(state: &mut AbsState) -> Result<(), NoMemory>
    ensures { OnOk result (state.new ≡ option_and_then rule.complemented state.old) }
{
    take_from(state, -1)
}
