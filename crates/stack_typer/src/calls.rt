//! What a call does to the stack (ECMA-335 III.3.19).

ghost use Rattle.std.specs.Prelude.{◌≡◌, IfOk, OnOk};
ghost use Rattle.std.specs.Option.{option_copied};
ghost use Rattle.cil_model.specs.Kinds.{when, pushed_kind, kind_of, behind_condition, behind_callee, behind_old, behind_call};

use crate::stack::Stack;
use cil_model::{CalleeInfo, Kind, Place, Shape, UnitCall, callee, kind_of, takes};
use std::alloc::AllocError;

/// Pushes the kind of a place, of void none.
pub fn push_place(place: Place, stack: &mut Stack) -> Result<(), AllocError>
    ensures { OnOk result (stack.new ≡ pushed_kind (kind_of place) stack.old) }
{
    match kind_of(place) {
        Some(kind) => stack.push(kind),
        None => Ok(()),
    }
}

/// Takes a condition, and a message above it.
fn take_condition(message: bool, stack: &mut Stack) -> bool
    ensures { when result stack.new ≡ behind_condition message stack.old }
{
    if message && stack.pop() != Some(Kind::Text) {
        return false;
    }
    stack.pop() == Some(Kind::Int)
}

/// Takes the arguments of a method, and pushes its result.
fn call_method(callee: Option<&CalleeInfo>, stack: &mut Stack) -> Result<bool, AllocError>
    ensures { IfOk result (λ fits. when fits stack.new ≡ behind_callee (option_copied callee.entry) stack.old) }
{
    let Some(info) = callee else {
        return Ok(false);
    };
    let places = info.args.as_slice();
    if !stack.fits(places) {
        return Ok(false);
    }
    stack.pop_many(places.len());
    push_place(info.result, stack)?;
    Ok(true)
}

/// Takes a value and pushes that of the place.
fn take_old(place: Place, stack: &mut Stack) -> Result<bool, AllocError>
    ensures { IfOk result (λ fits. when fits stack.new ≡ behind_old place stack.old) }
{
    let Some(kind) = stack.pop() else {
        return Ok(false);
    };
    push_place(place, stack)?;
    Ok(takes(place, kind))
}

/// Makes the stack before a call the one after it, where the call takes the kinds that it finds, and says
/// whether it does.
pub fn call(shape: &Shape, call: Option<UnitCall>, stack: &mut Stack) -> Result<bool, AllocError>
    ensures { IfOk result (λ fits. when fits stack.new ≡ behind_call shape.now call stack.old) }
{
    match call {
        None => Ok(false),
        Some(
            UnitCall::Requires(message)
            | UnitCall::Ensures(message)
            | UnitCall::Assert(message)
            | UnitCall::Assume(message),
        ) => Ok(take_condition(message, stack)),
        Some(UnitCall::EndContractBlock) => Ok(true),
        Some(UnitCall::Result(place)) => {
            push_place(place, stack)?;
            Ok(true)
        }
        Some(UnitCall::OldValue(place)) => take_old(place, stack),
        Some(UnitCall::Callee(number)) => call_method(callee(shape, number), stack),
    }
}
