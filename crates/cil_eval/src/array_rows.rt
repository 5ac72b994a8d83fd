//! What the instructions do that read and write arrays (ECMA-335 III.4).

ghost use Rattle.std.specs.Prelude.{◌≡◌, ℕ, List, slice_get, unsigned_abs, false};
ghost use Rattle.std.specs.List.{AllByRecursion};
ghost use Rattle.cil_model.specs.Effects as effects;
ghost use Rattle.cil_model.specs.declared.instruction.Instr.{Instr};
ghost use Rattle.cil_model.specs.declared.machine.Value.{Value};
ghost use Rattle.cil_eval.specs.Actions.{DoesOver, IsTakenFrom, acted, goes_on};
ghost use Rattle.cil_eval.specs.ArrayRows.{bounded, loads_there, stored_heap, stores_value};
ghost use Rattle.cil_eval.specs.Outcome.{State, after_effects};
ghost use Rattle.cil_eval.specs.StackRows.{IsLength};

use crate::action::Action;
use cil_model::{FaultKind, Place, Value};
use clause_eval::{Memory, Pile, number_of};

/// Makes an array of so many zeros.
fn make_array(place: Place, n: i32, memory: &mut Memory) -> Action
    ensures does { (s : State) (i : Instr) (rest : List Value) → after_effects memory.old.limit s i (effects.makes place n i s.running memory.old.heap rest) ≡ acted result rest memory.new.heap s i }
    ensures ended { goes_on result ≡ false → memory.new.heap ≡ memory.old.heap }
    ensures limit { memory.new.limit ≡ memory.old.limit }
{
    if n < 0 {
        return Action::Fault(FaultKind::ArraySize);
    }
    let index = memory.len();
    if memory.make_zeros(place, n as u32) {
        Action::Push(Value::Array(index))
    } else {
        Action::Cells
    }
}

/// Takes a length, and makes an array of so many zeros.
pub(crate) fn new_array(
    place: Option<Place>,
    stack: &mut Pile<Value>,
    memory: &mut Memory,
) -> Action
    ensures does { AllByRecursion IsLength stack.old.top → DoesOver memory.old.limit (effects.new_array place) result stack.old.top stack.new.top memory.old.heap memory.new.heap }
    ensures taken { IsTakenFrom stack.old stack.new }
    ensures ended { goes_on result ≡ false → memory.new.heap ≡ memory.old.heap }
    ensures limit { memory.new.limit ≡ memory.old.limit }
{
    let (Some(place), Some(value)) = (place, stack.pop()) else {
        return Action::Stuck;
    };
    match number_of(value) {
        Some(n) => match i32::try_from(n) {
            Ok(n) => make_array(place, n, memory),
            Err(_) => Action::Stuck,
        },
        None => Action::Stuck,
    }
}

/// Takes an array, and pushes its length.
pub(crate) fn length(stack: &mut Pile<Value>, memory: &Memory) -> Action
    ensures does { (cells : ℕ) → DoesOver cells effects.array_length result stack.old.top stack.new.top memory.now.heap memory.now.heap }
    ensures taken { IsTakenFrom stack.old stack.new }
{
    match stack.pop() {
        Some(Value::Null) => Action::Fault(FaultKind::NullUse),
        Some(Value::Array(index)) => match memory.array(index) {
            Some(array) => Action::Push(Value::Native(array.items.len() as u32)),
            None => Action::Stuck,
        },
        _ => Action::Stuck,
    }
}

/// Returns whether an array of this type has an item at an index, or else why not.
pub(crate) fn bound(place: Place, index: u32, n: i32, memory: &Memory) -> Action
    ensures { result ≡ bounded place n (slice_get memory.now.heap index) }
{
    let Some(array) = memory.array(index) else {
        return Action::Stuck;
    };
    if array.place != place {
        return Action::Stuck;
    }
    if n < 0 {
        return Action::Fault(FaultKind::Lower);
    }
    if array.items.len() <= n as usize {
        return Action::Fault(FaultKind::Upper);
    }
    Action::Next
}

/// Pushes an item of an array.
fn load_item(place: Place, index: u32, n: i32, memory: &Memory) -> Action
    ensures { result ≡ loads_there place n (slice_get memory.now.heap index) }
{
    match bound(place, index, n, memory) {
        Action::Next => match memory.item(index, n.unsigned_abs()) {
            Some(item) => Action::Push(Value::Int(item)),
            None => Action::Stuck,
        },
        action => action,
    }
}

/// Takes an index and an array, and pushes the item there.
#[tactic(auto, using(crate::proofs::ArrayLemmas::loads_by))]
pub(crate) fn load(place: Place, stack: &mut Pile<Value>, memory: &Memory) -> Action
    ensures does { (cells : ℕ) → DoesOver cells (effects.loads place) result stack.old.top stack.new.top memory.now.heap memory.now.heap }
    ensures taken { IsTakenFrom stack.old stack.new }
{
    let (Some(Value::Int(n)), Some(array)) = (stack.pop(), stack.pop()) else {
        return Action::Stuck;
    };
    match array {
        Value::Null => Action::Fault(FaultKind::NullUse),
        Value::Array(index) => load_item(place, index, n, memory),
        _ => Action::Stuck,
    }
}

/// A number as it is stored in an array of this type.
pub(crate) fn item_of(place: Place, n: i32) -> i32
    ensures { result ≡ effects.item_of place n }
{
    match place {
        Place::Bools => n.rem_euclid(256),
        _ => n,
    }
}

/// Stores an item of an array.
#[tactic(auto, using(crate::proofs::ArrayLemmas::stored_at_end))]
fn store_item(place: Place, index: u32, n: i32, item: i32, memory: &mut Memory) -> Action
    ensures action { result ≡ bounded place n (slice_get memory.old.heap index) }
    ensures heap { memory.new.heap ≡ stored_heap result place memory.old.heap index (unsigned_abs n) item }
    ensures ended { goes_on result ≡ false → memory.new.heap ≡ memory.old.heap }
    ensures limit { memory.new.limit ≡ memory.old.limit }
{
    let action = bound(place, index, n, memory);
    if action == Action::Next {
        memory.replace(index, n.unsigned_abs(), item_of(place, item));
    }
    action
}

/// Takes an index and an array, and stores a value there, which is a number.
#[tactic(auto, using(crate::proofs::ArrayLemmas::stores_by))]
fn store_value(place: Place, value: Value, stack: &mut Pile<Value>, memory: &mut Memory) -> Action
    ensures does { (cells : ℕ) → DoesOver cells (stores_value place value) result stack.old.top stack.new.top memory.old.heap memory.new.heap }
    ensures taken { IsTakenFrom stack.old stack.new }
    ensures ended { goes_on result ≡ false → memory.new.heap ≡ memory.old.heap }
    ensures limit { memory.new.limit ≡ memory.old.limit }
{
    let Value::Int(item) = value else {
        return Action::Stuck;
    };
    let (Some(Value::Int(n)), Some(array)) = (stack.pop(), stack.pop()) else {
        return Action::Stuck;
    };
    match array {
        Value::Null => Action::Fault(FaultKind::NullUse),
        Value::Array(index) => store_item(place, index, n, item, memory),
        _ => Action::Stuck,
    }
}

/// Takes a number, an index and an array, and stores the number there.
pub(crate) fn store(place: Place, stack: &mut Pile<Value>, memory: &mut Memory) -> Action
    ensures does { (cells : ℕ) → DoesOver cells (effects.stores place) result stack.old.top stack.new.top memory.old.heap memory.new.heap }
    ensures taken { IsTakenFrom stack.old stack.new }
    ensures ended { goes_on result ≡ false → memory.new.heap ≡ memory.old.heap }
    ensures limit { memory.new.limit ≡ memory.old.limit }
{
    match stack.pop() {
        Some(value) => store_value(place, value, stack, memory),
        None => Action::Stuck,
    }
}
