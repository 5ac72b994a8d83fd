//! What the instructions do that touch the stack alone (ECMA-335 III.3).

ghost use Rattle.std.specs.Prelude.{◌≡◌, ℕ, List};
ghost use Rattle.std.specs.List.{AllByRecursion};
ghost use Rattle.cil_model.specs.Effects as effects;
ghost use Rattle.cil_model.specs.Comparisons as comparisons;
ghost use Rattle.cil_model.specs.Values.{Heap};
ghost use Rattle.cil_model.specs.declared.instruction.Instr.{Instr};
ghost use Rattle.cil_model.specs.declared.instruction.Test.TheVariants as tests;
ghost use Rattle.cil_model.specs.declared.machine.Frame.{Frame};
ghost use Rattle.cil_model.specs.declared.machine.Value.{Value};
ghost use Rattle.cil_eval.specs.Actions.{Does, IsTakenFrom, acted};
ghost use Rattle.cil_eval.specs.Outcome.{State, after_effects};
ghost use Rattle.cil_eval.specs.StackRows.{IsLength, asserts, assumes, tested, tested_number};

use crate::action::Action;
use cil_model::{BinOp, CmpOp, FaultKind, Test, UnOp, Value};
use clause_eval::{
    Pile, compares_values, comparison_of, comparison_value, is_true, operated, operated_one,
};

/// An operator of two int32.
fn arithmetic(op: BinOp, stack: &mut Pile<Value>) -> Action
    ensures does { Does (effects.arithmetic op) result stack.old.top stack.new.top }
    ensures taken { IsTakenFrom stack.old stack.new }
{
    let (Some(Value::Int(b)), Some(Value::Int(a))) = (stack.pop(), stack.pop()) else {
        return Action::Stuck;
    };
    match operated(op, a, b) {
        Ok(n) => Action::Push(Value::Int(n)),
        Err(kind) => Action::Fault(kind),
    }
}

/// A comparison of two values.
fn comparison(op: CmpOp, stack: &mut Pile<Value>) -> Action
    ensures does { Does (effects.comparison op) result stack.old.top stack.new.top }
    ensures taken { IsTakenFrom stack.old stack.new }
{
    let (Some(b), Some(a)) = (stack.pop(), stack.pop()) else {
        return Action::Stuck;
    };
    match comparison_value(op, a, b) {
        Some(value) => Action::Push(value),
        None => Action::Stuck,
    }
}

/// An operator of two values.
pub(crate) fn binary(op: BinOp, stack: &mut Pile<Value>) -> Action
    ensures does { Does (effects.binary op (comparisons.comparison_of op)) result stack.old.top stack.new.top }
    ensures taken { IsTakenFrom stack.old stack.new }
{
    match comparison_of(op) {
        Some(op) => comparison(op, stack),
        None => arithmetic(op, stack),
    }
}

/// An operator of one int32.
pub(crate) fn unary(op: UnOp, stack: &mut Pile<Value>) -> Action
    ensures does { Does (effects.changes op) result stack.old.top stack.new.top }
    ensures taken { IsTakenFrom stack.old stack.new }
{
    match stack.pop() {
        Some(Value::Int(n)) => Action::Push(Value::Int(operated_one(op, n))),
        _ => Action::Stuck,
    }
}

/// A length becomes an int32, which an int32 is.
pub(crate) fn convert(stack: &mut Pile<Value>) -> Action
    ensures does { AllByRecursion IsLength stack.old.top → Does effects.converts result stack.old.top stack.new.top }
    ensures taken { IsTakenFrom stack.old stack.new }
{
    match stack.pop() {
        Some(Value::Int(n)) => Action::Push(Value::Int(n)),
        Some(Value::Native(n)) => Action::Push(Value::Int(n.cast_signed())),
        _ => Action::Stuck,
    }
}

pub(crate) fn duplicate(stack: &mut Pile<Value>) -> Action
    ensures does { Does effects.duplicates result stack.old.top stack.new.top }
    ensures taken { IsTakenFrom stack.old stack.new }
{
    match stack.get(0) {
        Some(value) => Action::Push(value),
        None => Action::Stuck,
    }
}

pub(crate) fn pop(stack: &mut Pile<Value>) -> Action
    ensures does { Does effects.pops result stack.old.top stack.new.top }
    ensures taken { IsTakenFrom stack.old stack.new }
{
    match stack.pop() {
        Some(_) => Action::Next,
        None => Action::Stuck,
    }
}

/// A branch that is taken where the test holds.
fn taken(holds: Option<bool>, target: u32) -> Action
    ensures { (cells : ℕ) (s : State) (i : Instr) (heap : Heap) (rest : List Value) → after_effects cells s i (effects.branches target i s.running heap rest holds) ≡ acted result rest heap s i }
{
    match holds {
        Some(true) => Action::Jump(target),
        Some(false) => Action::Next,
        None => Action::Stuck,
    }
}

/// A branch by the value on top.
fn branch_if(wanted: bool, target: u32, stack: &mut Pile<Value>) -> Action
    ensures does { Does (effects.branches_by (tested wanted) target) result stack.old.top stack.new.top }
    ensures taken { IsTakenFrom stack.old stack.new }
{
    let Some(value) = stack.pop() else {
        return Action::Stuck;
    };
    match is_true(value) {
        Some(holds) if holds == wanted => Action::Jump(target),
        Some(_) => Action::Next,
        None => Action::Stuck,
    }
}

/// A branch by a comparison.
fn branch_by(op: CmpOp, target: u32, stack: &mut Pile<Value>) -> Action
    ensures does { Does (effects.branches_by (tests.Cmp op) target) result stack.old.top stack.new.top }
    ensures taken { IsTakenFrom stack.old stack.new }
{
    let (Some(b), Some(a)) = (stack.pop(), stack.pop()) else {
        return Action::Stuck;
    };
    taken(compares_values(op, a, b), target)
}

/// A branch.
pub(crate) fn branch(test: Test, target: u32, stack: &mut Pile<Value>) -> Action
    ensures does { Does (effects.branches_by test target) result stack.old.top stack.new.top }
    ensures taken { IsTakenFrom stack.old stack.new }
{
    match test {
        Test::Always => Action::Jump(target),
        Test::True => branch_if(true, target, stack),
        Test::False => branch_if(false, target, stack),
        Test::Cmp(op) => branch_by(op, target, stack),
    }
}

/// A switch, which takes its number as unsigned.
pub(crate) fn switch(targets: &[u32], stack: &mut Pile<Value>) -> Action
    ensures does { Does (effects.switches targets.now) result stack.old.top stack.new.top }
    ensures taken { IsTakenFrom stack.old stack.new }
{
    let Some(Value::Int(n)) = stack.pop() else {
        return Action::Stuck;
    };
    match targets.get(n.cast_unsigned() as usize) {
        Some(target) => Action::Jump(*target),
        None => Action::Next,
    }
}

/// Takes a message, where there is to be one, and a condition, which is an int32.
fn take_condition(message: bool, stack: &mut Pile<Value>) -> Option<i32>
    ensures condition { ((i : Instr) (f : Frame) (heap : Heap) (otherwise : effects.Effect) → effects.tests_condition otherwise i f heap (effects.below_message message stack.old.top) ≡ tested_number otherwise i f heap stack.new.top result) }
    ensures taken { IsTakenFrom stack.old stack.new }
{
    if message && stack.pop() != Some(Value::Text) {
        return None;
    }
    match stack.pop() {
        Some(Value::Int(n)) => Some(n),
        _ => None,
    }
}

/// An assertion.
pub(crate) fn assert(message: bool, stack: &mut Pile<Value>) -> Action
    ensures does { Does (asserts message) result stack.old.top stack.new.top }
    ensures taken { IsTakenFrom stack.old stack.new }
{
    match take_condition(message, stack) {
        Some(0) => Action::Fault(FaultKind::Assert),
        Some(_) => Action::Next,
        None => Action::Stuck,
    }
}

/// An assumption.
pub(crate) fn assume(message: bool, stack: &mut Pile<Value>) -> Action
    ensures does { Does (assumes message) result stack.old.top stack.new.top }
    ensures taken { IsTakenFrom stack.old stack.new }
{
    match take_condition(message, stack) {
        Some(0) => Action::Assumed,
        Some(_) => Action::Next,
        None => Action::Stuck,
    }
}
