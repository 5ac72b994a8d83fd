//! What an operation does to a state.

ghost use Rattle.std.specs.Prelude.{◌≡◌, ◌+◌, ◌≤◌, length, OnOk, Some};
ghost use Rattle.std.specs.Option.{ForSome, option_and_then};
ghost use Rattle.cil_model.specs.Limits.{MAX_VARIABLES};
ghost use Rattle.state_obligations.specs.Assumed.{assume};
ghost use Rattle.state_obligations.specs.Conditions.{IsThere};
ghost use Rattle.transfer_rules.specs.Acts as rule;
ghost use Rattle.transfer_rules.specs.Operands.{on_condition};
ghost use Rattle.transfer_rules.specs.Owed.{CanCallBy, CanDo, IsReady};

use crate::addresses::{load_through, push_address, store_through};
use crate::arrays::{load_item, make_array, push_length, store_item};
use crate::calls::{pass_callee, pass_return};
use crate::moves::{duplicate, load, store};
use crate::operands::{refuse, take_condition};
use crate::operators::{complement, negate, operate};
use abs_state::{AbsState, Var};
use cil_model::{Op, Place, Test, Unit, UnitCall, unit_call};
use domain_api::NoMemory;
use number_spans::constant;
use state_obligations::Condition;
use std::alloc::Global;
use std::mem;

/// The list index of an argument among the variables.
fn arg_place(unit: &Unit, n: u16) -> u32
    requires { length unit.now.args + length unit.now.locals + unit.now.max_stack ≤ MAX_VARIABLES }
    ensures { result ≡ rule.arg_place unit.now n }
{
    (unit.args.as_slice().len() + n as usize) as u32
}

/// The list index of a local among the variables.
fn local_place(unit: &Unit, n: u16) -> u32
    requires { length unit.now.args + length unit.now.locals + unit.now.max_stack ≤ MAX_VARIABLES }
    ensures { result ≡ rule.local_place unit.now n }
{
    let args = unit.args.as_slice().len();
    (args + args + n as usize) as u32
}

/// The type of a variable: void where there is none.
fn type_of(types: &[Place], n: u16) -> Place
    ensures { result ≡ rule.type_of types.now n }
{
    match types.get(n as usize) {
        Some(place) => *place,
        None => Place::Void,
    }
}

/// The type of an argument: void where there is none.
fn arg_type(unit: &Unit, n: u16) -> Place
    ensures { result ≡ rule.type_of unit.now.args n }
{
    type_of(unit.args.as_slice(), n)
}

/// The type of a local: void where there is none.
fn local_type(unit: &Unit, n: u16) -> Place
    ensures { result ≡ rule.type_of unit.now.locals n }
{
    type_of(unit.locals.as_slice(), n)
}

/// Assumes that a condition is met.
fn assume_met(state: &mut AbsState, condition: Condition) -> Result<(), NoMemory>
    requires there { ForSome state.old (λ known. IsThere known condition) }
    ensures { OnOk result (state.new ≡ assume condition state.old) }
{
    let before = mem::replace(state, AbsState::nothing());
    *state = before.assume_met(condition)?;
    Ok(())
}

/// Takes the condition of an Assume, which is assumed to be another number than 0.
#[tactic(auto, using(crate::proofs::Passing::passing))]
fn pass_assume(state: &mut AbsState, message: bool) -> Result<(), NoMemory>
    ensures { OnOk result (state.new ≡ option_and_then (on_condition message rule.with_condition) state.old) }
{
    let Some(Var::Number(e)) = take_condition(state, message)? else {
        refuse(state);
        return Ok(());
    };
    assume_met(state, Condition::Assert(e))
}

/// Takes the condition of an Assert.
#[tactic(auto, using(crate::proofs::Passing::passing))]
fn pass_assert(state: &mut AbsState, message: bool) -> Result<(), NoMemory>
    ensures { OnOk result (state.new ≡ option_and_then (on_condition message rule.left) state.old) }
{
    let Some(_) = take_condition(state, message)? else {
        refuse(state);
        return Ok(());
    };
    Ok(())
}

/// Takes what a call takes that names this.
#[tactic(auto, unfolding(crate::specs::Acts::behind_call), using(crate::proofs::Passing::passing))]
fn pass_named(
    alloc: Global,
    state: &mut AbsState,
    unit: &Unit,
    call: UnitCall,
) -> Result<(), NoMemory>
    requires ready { CanCallBy unit.now (Some call) state.old }
    ensures { OnOk result (state.new ≡ option_and_then (rule.behind_call unit.now (Some call)) state.old) }
{
    match call {
        UnitCall::Assert(message) => pass_assert(state, message),
        UnitCall::Assume(message) => pass_assume(state, message),
        UnitCall::Callee(number) => pass_callee(alloc, state, unit, number),
        UnitCall::Requires(_)
        | UnitCall::Ensures(_)
        | UnitCall::EndContractBlock
        | UnitCall::Result(_)
        | UnitCall::OldValue(_) => Ok(()),
    }
}

/// Takes what a call takes, and gives what it gives.
#[tactic(auto, using(crate::proofs::Passing::passing))]
fn pass_call(
    alloc: Global,
    state: &mut AbsState,
    unit: &Unit,
    call: Option<UnitCall>,
) -> Result<(), NoMemory>
    requires ready { CanCallBy unit.now call state.old }
    ensures { OnOk result (state.new ≡ option_and_then (rule.behind_call unit.now call) state.old) }
{
    match call {
        Some(call) => pass_named(alloc, state, unit, call),
        None => Ok(()),
    }
}

/// Takes what a branch tests.
#[tactic(auto, using(crate::proofs::Passing::passing))]
fn pass_test(state: &mut AbsState, test: Test) -> Result<(), NoMemory>
    ensures { OnOk result (state.new ≡ option_and_then (rule.behind_test test) state.old) }
{
    match test {
        Test::Always => Ok(()),
        Test::True => state.pop(),
        Test::False => state.pop(),
        Test::Cmp(_) => {
            state.pop()?;
            state.pop()
        }
    }
}

/// Does to a state what an operation of the unit does to a point, where it ends in no fault.
#[tactic(auto, using(crate::proofs::Doing::doing))]
pub(crate) fn act(alloc: Global, state: &mut AbsState, unit: &Unit, op: &Op) -> Result<(), NoMemory>
    requires few { length unit.now.args + length unit.now.locals + unit.now.max_stack ≤ MAX_VARIABLES }
    requires ready { ForSome state.old (IsReady op.now) }
    requires calls { CanDo unit.now op.now state.old }
    ensures { OnOk result (state.new ≡ rule.act unit.now op.now state.old) }
{
    match op {
        Op::Nop | Op::ConvI4 => Ok(()),
        Op::LoadArg(n) => load(state, arg_place(unit, *n)),
        Op::StoreArg(n) => store(state, arg_place(unit, *n), arg_type(unit, *n)),
        Op::LoadLocal(n) => load(state, local_place(unit, *n)),
        Op::StoreLocal(n) => store(state, local_place(unit, *n), local_type(unit, *n)),
        Op::Null => state.push(Var::Reference(0)),
        Op::Const(n) => state.push(Var::Number(constant(i64::from(*n)))),
        Op::Text(_) => state.push(Var::Text),
        Op::Dup => duplicate(state),
        Op::Pop | Op::Switch(_) => state.pop(),
        Op::Call(number) => pass_call(alloc, state, unit, unit_call(*number)),
        Op::Return => pass_return(alloc, state, unit),
        Op::Branch(test, _) => pass_test(state, *test),
        Op::Bin(operator) => operate(state, *operator),
        Op::Neg => negate(state),
        Op::Not => complement(state),
        Op::NewArray(number) => make_array(state, *number),
        Op::Length => push_length(state),
        Op::LoadElem(_) => load_item(state),
        Op::StoreElem(_) => store_item(state),
        Op::LoadAddr(_) => push_address(state),
        Op::LoadInd(_) => load_through(state),
        Op::StoreInd(_) => store_through(state),
    }
}
