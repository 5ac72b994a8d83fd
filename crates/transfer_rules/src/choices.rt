//! What is assumed along each way on from a branch.

ghost use Rattle.std.specs.Prelude.{◌≡◌, ◌≤◌, OnOk};
ghost use Rattle.std.specs.Option.{option_and_then};
ghost use Rattle.transfer_rules.specs.Choices as rule;
ghost use Rattle.unit_flow.specs.Ways.{IsShortSwitch};

use crate::operands::refuse;
use abs_state::{AbsState, Var};
use cil_model::{CmpOp, Op, Test};
use clause_trees::assume_true;
use domain_api::NoMemory;
use number_spans::constant;

/// Assumes that the top of the stack is taken for true, or is not.
#[tactic(auto, using(crate::proofs::Ways::ways))]
fn assume_top(state: &mut AbsState, holds: bool) -> Result<(), NoMemory>
    ensures { OnOk result (state.new ≡ option_and_then (rule.with_truth holds) state.old) }
{
    let Some(top) = state.from_top(0) else {
        refuse(state);
        return Ok(());
    };
    assume_true(state, top, holds)
}

/// Assumes that the two uppermost values compare so, or do not.
#[tactic(auto, using(crate::proofs::Ways::ways))]
fn assume_compared(state: &mut AbsState, op: CmpOp, holds: bool) -> Result<(), NoMemory>
    ensures { OnOk result (state.new ≡ option_and_then (rule.with_compared op holds) state.old) }
{
    let Some(second) = state.from_top(0) else {
        refuse(state);
        return Ok(());
    };
    let Some(first) = state.from_top(1) else {
        refuse(state);
        return Ok(());
    };
    state.assume(op, first, second, holds)
}

/// Assumes that the test of a branch holds, or that it does not.
#[tactic(auto, using(crate::proofs::Ways::ways))]
fn choose_side(state: &mut AbsState, test: Test, holds: bool) -> Result<(), NoMemory>
    ensures { OnOk result (state.new ≡ option_and_then (rule.tested test holds) state.old) }
{
    match test {
        Test::Always => Ok(()),
        Test::True => assume_top(state, holds),
        Test::False => assume_top(state, !holds),
        Test::Cmp(op) => assume_compared(state, op, holds),
    }
}

/// Assumes that a switch of so many targets takes the way of this number.
#[tactic(auto, using(crate::proofs::Ways::ways))]
fn choose_case(state: &mut AbsState, count: u32, way: u32) -> Result<(), NoMemory>
    requires short { count ≤ 2147483647 }
    ensures { OnOk result (state.new ≡ option_and_then (rule.switched count way) state.old) }
{
    let Some(Var::Number(e)) = state.from_top(0) else {
        refuse(state);
        return Ok(());
    };
    let number = Var::Number(e);
    if way < count {
        let case = Var::Number(constant(i64::from(way)));
        state.assume(CmpOp::Eq, number, case, true)
    } else {
        let end = Var::Number(constant(i64::from(count)));
        state.assume(CmpOp::LtUn, number, end, false)
    }
}

/// Assumes that the operation takes the way of this number.
#[tactic(auto, unfolding(crate::specs::Choices::chosen), using(crate::proofs::Ways::ways))]
pub(crate) fn choose(state: &mut AbsState, op: &Op, way: u32) -> Result<(), NoMemory>
    requires short { IsShortSwitch op.now }
    ensures { OnOk result (state.new ≡ option_and_then (rule.chosen op.now way) state.old) }
{
    match op {
        Op::Branch(test, _) => choose_side(state, *test, way == 0),
        Op::Switch(targets) => choose_case(state, targets.as_slice().len() as u32, way),
        Op::Nop
        | Op::LoadArg(_)
        | Op::StoreArg(_)
        | Op::LoadLocal(_)
        | Op::StoreLocal(_)
        | Op::Null
        | Op::Const(_)
        | Op::Dup
        | Op::Pop
        | Op::Call(_)
        | Op::Return
        | Op::Bin(_)
        | Op::Neg
        | Op::Not
        | Op::ConvI4
        | Op::Text(_)
        | Op::NewArray(_)
        | Op::Length
        | Op::LoadElem(_)
        | Op::StoreElem(_)
        | Op::LoadAddr(_)
        | Op::LoadInd(_)
        | Op::StoreInd(_) => Ok(()),
    }
}
