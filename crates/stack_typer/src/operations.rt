//! What each operation does to the stack (ECMA-335 III.3 and III.4).

ghost use Rattle.std.specs.Prelude.{◌≡◌, ◌∷◌, IfOk, Some, slice_get};
ghost use Rattle.cil_model.specs.Comparisons.{comparison_of};
ghost use Rattle.stack_typer.specs.Arrays.{behind_address_alone, behind_array};
ghost use Rattle.cil_model.specs.Kinds.{when, loaded, stored_kind, behind_arithmetic, behind_comparison, behind_operator, behind_number, behind_conversion, behind_new_array, behind_length, behind_load, behind_store, behind_address, behind_load_through, behind_store_through, duplicated, popped, behind};

use crate::branches::{take_int, take_result, take_tested};
use crate::calls::{call, push_place};
use crate::stack::Stack;
use cil_model::{
    BinOp, CmpOp, Kind, Op, Place, Shape, address_kind, array_place, comparison_of, is_address_of,
    is_array_of, is_number, is_reference, kind_of, pushes_comparison, takes, unit_call,
};
use std::alloc::AllocError;

/// Pushes a variable of this place, if it is there.
fn load(place: Option<Place>, stack: &mut Stack) -> Result<bool, AllocError>
    ensures { IfOk result (λ fits. when fits stack.new ≡ loaded place stack.old) }
{
    let Some(place) = place else {
        return Ok(false);
    };
    let Some(kind) = kind_of(place) else {
        return Ok(false);
    };
    stack.push(kind)?;
    Ok(true)
}

/// Takes what a variable of this place takes, if it is there.
fn store(place: Option<Place>, stack: &mut Stack) -> bool
    ensures { when result stack.new ≡ stored_kind place stack.old }
{
    match (place, stack.pop()) {
        (Some(place), Some(kind)) => takes(place, kind),
        _ => false,
    }
}

fn push(kind: Kind, stack: &mut Stack) -> Result<bool, AllocError>
    ensures { IfOk result (λ fits. when fits stack.new ≡ Some (kind ∷ stack.old)) }
{
    stack.push(kind)?;
    Ok(true)
}

fn duplicate(stack: &mut Stack) -> Result<bool, AllocError>
    ensures { IfOk result (λ fits. when fits stack.new ≡ duplicated stack.old) }
{
    let Some(kind) = stack.pop() else {
        return Ok(false);
    };
    stack.push(kind)?;
    stack.push(kind)?;
    Ok(true)
}

fn pop(stack: &mut Stack) -> bool
    ensures { when result stack.new ≡ popped stack.old }
{
    stack.pop().is_some()
}

fn calculate(stack: &mut Stack) -> Result<bool, AllocError>
    ensures { IfOk result (λ fits. when fits stack.new ≡ behind_arithmetic stack.old) }
{
    if !take_int(stack) || !take_int(stack) {
        return Ok(false);
    }
    stack.push(Kind::Int)?;
    Ok(true)
}

fn compare(op: CmpOp, stack: &mut Stack) -> Result<bool, AllocError>
    ensures { IfOk result (λ fits. when fits stack.new ≡ behind_comparison op stack.old) }
{
    let (Some(b), Some(a)) = (stack.pop(), stack.pop()) else {
        return Ok(false);
    };
    stack.push(Kind::Int)?;
    Ok(pushes_comparison(op, a, b))
}

fn operate(operator: BinOp, stack: &mut Stack) -> Result<bool, AllocError>
    ensures { IfOk result (λ fits. when fits stack.new ≡ behind_operator (comparison_of operator) stack.old) }
{
    match comparison_of(operator) {
        Some(op) => compare(op, stack),
        None => calculate(stack),
    }
}

/// Takes an int32 and leaves one.
fn change_int(stack: &mut Stack) -> Result<bool, AllocError>
    ensures { IfOk result (λ fits. when fits stack.new ≡ behind_number stack.old) }
{
    if !take_int(stack) {
        return Ok(false);
    }
    push(Kind::Int, stack)
}

fn convert(stack: &mut Stack) -> Result<bool, AllocError>
    ensures { IfOk result (λ fits. when fits stack.new ≡ behind_conversion stack.old) }
{
    let Some(kind) = stack.pop() else {
        return Ok(false);
    };
    stack.push(Kind::Int)?;
    Ok(is_number(kind))
}

/// Takes a length and pushes an array of the place, if there is one.
fn new_array(place: Option<Place>, stack: &mut Stack) -> Result<bool, AllocError>
    ensures { IfOk result (λ fits. when fits stack.new ≡ behind_new_array place stack.old) }
{
    let (Some(place), Some(kind)) = (place, stack.pop()) else {
        return Ok(false);
    };
    push_place(place, stack)?;
    Ok(is_number(kind))
}

fn take_length(stack: &mut Stack) -> Result<bool, AllocError>
    ensures { IfOk result (λ fits. when fits stack.new ≡ behind_length stack.old) }
{
    let Some(kind) = stack.pop() else {
        return Ok(false);
    };
    stack.push(Kind::Native)?;
    Ok(is_reference(kind))
}

/// Takes the top, and says whether it was an array of the place or null.
fn take_array(place: Place, stack: &mut Stack) -> bool
    ensures { when result stack.new ≡ behind_array place stack.old }
{
    match stack.pop() {
        Some(kind) => is_array_of(place, kind),
        None => false,
    }
}

fn load_element(place: Place, stack: &mut Stack) -> Result<bool, AllocError>
    ensures { IfOk result (λ fits. when fits stack.new ≡ behind_load place stack.old) }
{
    if !take_int(stack) || !take_array(place, stack) {
        return Ok(false);
    }
    push(Kind::Int, stack)
}

fn store_element(place: Place, stack: &mut Stack) -> bool
    ensures { when result stack.new ≡ behind_store place stack.old }
{
    take_int(stack) && take_int(stack) && take_array(place, stack)
}

/// Takes an index and an array, and pushes the address of an item of the place's arrays, if there is a place.
fn take_address(place: Option<Place>, stack: &mut Stack) -> Result<bool, AllocError>
    ensures { IfOk result (λ fits. when fits stack.new ≡ behind_address place stack.old) }
{
    let Some(place) = place else {
        return Ok(false);
    };
    if !take_int(stack) || !take_array(place, stack) {
        return Ok(false);
    }
    if let Some(kind) = address_kind(place) {
        stack.push(kind)?;
    }
    Ok(true)
}

/// Takes the top, and says whether it was an address of an item of the place's arrays.
fn take_address_of(place: Place, stack: &mut Stack) -> bool
    ensures { when result stack.new ≡ behind_address_alone place stack.old }
{
    match stack.pop() {
        Some(kind) => is_address_of(place, kind),
        None => false,
    }
}

fn load_through(place: Place, stack: &mut Stack) -> Result<bool, AllocError>
    ensures { IfOk result (λ fits. when fits stack.new ≡ behind_load_through place stack.old) }
{
    if !take_address_of(place, stack) {
        return Ok(false);
    }
    push(Kind::Int, stack)
}

fn store_through(place: Place, stack: &mut Stack) -> bool
    ensures { when result stack.new ≡ behind_store_through place stack.old }
{
    take_int(stack) && take_address_of(place, stack)
}

/// Makes the stack before an operation the one after it, where the operation takes the kinds that it finds, and
/// says whether it does.
pub fn operation(shape: &Shape, op: &Op, stack: &mut Stack) -> Result<bool, AllocError>
    ensures { IfOk result (λ fits. when fits stack.new ≡ behind shape.now op.now stack.old) }
{
    match op {
        Op::Nop => Ok(true),
        Op::LoadArg(number) => load(place_of(shape.args.as_slice(), *number), stack),
        Op::StoreArg(number) => Ok(store(place_of(shape.args.as_slice(), *number), stack)),
        Op::LoadLocal(number) => load(place_of(shape.locals.as_slice(), *number), stack),
        Op::StoreLocal(number) => Ok(store(place_of(shape.locals.as_slice(), *number), stack)),
        Op::Null => push(Kind::NullRef, stack),
        Op::Const(_) => push(Kind::Int, stack),
        Op::Text(_) => push(Kind::Text, stack),
        Op::Dup => duplicate(stack),
        Op::Pop => Ok(pop(stack)),
        Op::Call(number) => call(shape, unit_call(*number), stack),
        Op::Return => Ok(take_result(shape.result, stack)),
        Op::Branch(test, _) => Ok(take_tested(*test, stack)),
        Op::Switch(_) => Ok(take_int(stack)),
        Op::Bin(operator) => operate(*operator, stack),
        Op::Neg | Op::Not => change_int(stack),
        Op::ConvI4 => convert(stack),
        Op::NewArray(number) => new_array(array_place(*number), stack),
        Op::Length => take_length(stack),
        Op::LoadElem(place) => load_element(*place, stack),
        Op::StoreElem(place) => Ok(store_element(*place, stack)),
        Op::LoadAddr(number) => take_address(array_place(*number), stack),
        Op::LoadInd(place) => load_through(*place, stack),
        Op::StoreInd(place) => Ok(store_through(*place, stack)),
    }
}

/// The place of a variable, if there is one of this number.
fn place_of(places: &[Place], number: u16) -> Option<Place>
    ensures { result ≡ slice_get places.now number }
{
    places.get(usize::from(number)).copied()
}
