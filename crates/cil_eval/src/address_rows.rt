//! What the instructions do that take addresses of items, and that load and store through them (ECMA-335 III.3.42,
//! III.3.62 and III.4.9).

ghost use Rattle.std.specs.Prelude.{◌≡◌, ℕ, slice_get, false};
ghost use Rattle.cil_model.specs.Effects as effects;
ghost use Rattle.cil_eval.specs.Actions.{DoesOver, IsTakenFrom, goes_on};
ghost use Rattle.cil_eval.specs.AddressRows.{addressed, loads_at, there};
ghost use Rattle.cil_eval.specs.ArrayRows.{bounded, stored_heap};

use crate::action::Action;
use crate::array_rows::{bound, item_of};
use cil_model::{FaultKind, Place, Value};
use clause_eval::{Memory, Pile};

/// Pushes the address of an item of an array.
fn address_of(place: Place, index: u32, n: i32, memory: &Memory) -> Action
    ensures { result ≡ addressed index n (bounded place n (slice_get memory.now.heap index)) }
{
    match bound(place, index, n, memory) {
        Action::Next => Action::Push(Value::Addr(index, n.unsigned_abs())),
        action => action,
    }
}

/// Takes an index and an array of this type, and pushes the address of the item there.
#[tactic(auto, using(crate::proofs::AddressLemmas::addresses_by))]
fn address_in(place: Place, stack: &mut Pile<Value>, memory: &Memory) -> Action
    ensures does { (cells : ℕ) → DoesOver cells (effects.addresses place) result stack.old.top stack.new.top memory.now.heap memory.now.heap }
    ensures taken { IsTakenFrom stack.old stack.new }
{
    let (Some(Value::Int(n)), Some(array)) = (stack.pop(), stack.pop()) else {
        return Action::Stuck;
    };
    match array {
        Value::Null => Action::Fault(FaultKind::NullUse),
        Value::Array(index) => address_of(place, index, n, memory),
        _ => Action::Stuck,
    }
}

/// Takes an index and an array, and pushes the address of the item there.
pub(crate) fn address(place: Option<Place>, stack: &mut Pile<Value>, memory: &Memory) -> Action
    ensures does { (cells : ℕ) → DoesOver cells (effects.takes_address place) result stack.old.top stack.new.top memory.now.heap memory.now.heap }
    ensures taken { IsTakenFrom stack.old stack.new }
{
    match place {
        Some(place) => address_in(place, stack, memory),
        None => Action::Stuck,
    }
}

/// Pushes the item of this index of an array.
fn load_at(place: Place, index: u32, n: u32, memory: &Memory) -> Action
    ensures { result ≡ loads_at place n (slice_get memory.now.heap index) }
{
    let Some(array) = memory.array(index) else {
        return Action::Stuck;
    };
    if array.place != place {
        return Action::Stuck;
    }
    match array.items.get(n as usize) {
        Some(item) => Action::Push(Value::Int(*item)),
        None => Action::Stuck,
    }
}

/// Takes an address, and pushes the item there.
#[tactic(auto, using(crate::proofs::AddressLemmas::loads_through_by))]
pub(crate) fn load(place: Place, stack: &mut Pile<Value>, memory: &Memory) -> Action
    ensures does { (cells : ℕ) → DoesOver cells (effects.loads_through place) result stack.old.top stack.new.top memory.now.heap memory.now.heap }
    ensures taken { IsTakenFrom stack.old stack.new }
{
    match stack.pop() {
        Some(Value::Addr(index, n)) => load_at(place, index, n, memory),
        _ => Action::Stuck,
    }
}

/// Returns whether an array of this type has an item of this index: the run goes on there, and else it is stuck.
fn there(place: Place, index: u32, n: u32, memory: &Memory) -> Action
    ensures { result ≡ there place n (slice_get memory.now.heap index) }
{
    let Some(array) = memory.array(index) else {
        return Action::Stuck;
    };
    if array.place == place && (n as usize) < array.items.len() {
        Action::Next
    } else {
        Action::Stuck
    }
}

/// Stores an item of this index of an array.
#[tactic(auto, using(crate::proofs::ArrayLemmas::stored_at_end))]
fn store_at(place: Place, index: u32, n: u32, item: i32, memory: &mut Memory) -> Action
    ensures action { result ≡ there place n (slice_get memory.old.heap index) }
    ensures heap { memory.new.heap ≡ stored_heap result place memory.old.heap index n item }
    ensures ended { goes_on result ≡ false → memory.new.heap ≡ memory.old.heap }
    ensures limit { memory.new.limit ≡ memory.old.limit }
{
    let action = there(place, index, n, memory);
    if action == Action::Next {
        memory.replace(index, n, item_of(place, item));
    }
    action
}

/// Takes a number and an address, and stores the number there.
#[tactic(auto, using(crate::proofs::AddressLemmas::stores_through_by))]
pub(crate) fn store(place: Place, stack: &mut Pile<Value>, memory: &mut Memory) -> Action
    ensures does { (cells : ℕ) → DoesOver cells (effects.stores_through place) result stack.old.top stack.new.top memory.old.heap memory.new.heap }
    ensures taken { IsTakenFrom stack.old stack.new }
    ensures ended { goes_on result ≡ false → memory.new.heap ≡ memory.old.heap }
    ensures limit { memory.new.limit ≡ memory.old.limit }
{
    let (Some(Value::Int(item)), Some(address)) = (stack.pop(), stack.pop()) else {
        return Action::Stuck;
    };
    match address {
        Value::Addr(index, n) => store_at(place, index, n, item, memory),
        _ => Action::Stuck,
    }
}
