//! Calls and returns (ECMA-335 III.3.19 and III.3.57).

ghost use Rattle.std.specs.Prelude.{◌≡◌, ◌+◌, ◌<◌, ◌≤◌, ◌^◌, length};
ghost use Rattle.cil_model.specs.Calls as calls;
ghost use Rattle.cil_eval.specs.Called.{Calls, HasRoomToCall, Returns, with_result};
ghost use Rattle.cil_eval.specs.Capacity.{SameRooms};
ghost use Rattle.cil_eval.specs.Entered.{left};
ghost use Rattle.clause_eval.specs.Piles.{size_of};

use crate::arguments::take_args;
use crate::enter::{enter, leave};
use crate::frames::{Frames, Position};
use crate::stop::Stop;
use cil_model::{FaultKind, Instr, Place, Unit, Value};
use clause_eval::{Arrays, Memory, Pile, false_ensures, false_requires, put};

/// Calls the method of a unit from the frame that runs, whose position is given. The flag says whether there may be one
/// frame more.
#[tactic(auto, using(crate::proofs::CallLemmas::room_to_enter))]
pub(crate) fn call(
    callee: &Unit,
    index: u32,
    from: Position,
    instr: &Instr,
    deeper: bool,
    frames: &mut Frames,
    memory: &Memory,
) -> Option<Stop>
    requires room { HasRoomToCall callee.now frames.old }
    requires clauses { length (calls.clauses_in_force callee.now) < 256 }
    requires behind { instr.now.at + instr.now.size < 2 ^ 32 }
    ensures calls { Calls callee.now index from.unit instr.now deeper frames.old memory.now.heap frames.new result }
    ensures room { SameRooms frames.old frames.new }
{
    frames.args.open();
    let places = callee.args.as_slice();
    if !take_args(places, memory, &mut frames.stack, &mut frames.args) {
        return Some(Stop::Steps);
    }
    if let Some(k) = false_requires(
        callee.clauses_in_force(),
        &frames.args,
        Arrays::Made(memory),
    ) {
        return Some(Stop::Fault(FaultKind::Requires(k), from.unit, instr.at));
    }
    if !deeper {
        return Some(Stop::Depth);
    }
    let behind = Position {
        unit: from.unit,
        at: instr.at + instr.size,
    };
    enter(callee, index, behind, frames, memory);
    None
}

/// Returns what a return takes from the stack, as it is put into the result.
fn result_of(place: Place, stack: &Pile<Value>, memory: &Memory) -> Option<Option<Value>>
    ensures { result ≡ calls.result_of memory.now.heap place stack.now.top }
{
    match stack.get(0) {
        None => match place {
            Place::Void => Some(None),
            _ => None,
        },
        Some(value) => {
            if stack.len() != 1 {
                return None;
            }
            match put(memory, place, value) {
                Some(value) => Some(Some(value)),
                None => None,
            }
        }
    }
}

/// Returns from the frame that runs, a frame of a unit, whose position is given.
pub(crate) fn give_back(
    unit: &Unit,
    from: Position,
    instr: &Instr,
    frames: &mut Frames,
    memory: &Memory,
) -> Option<Stop>
    requires clauses { length (calls.clauses_in_force unit.now) < 256 }
    requires room { size_of frames.old.stack < frames.old.stack.room }
    ensures returns { Returns unit.now from.unit instr.now frames.old memory.now.heap frames.new result }
    ensures room { SameRooms frames.old frames.new }
{
    let Some(returned) = result_of(unit.result, &frames.stack, memory) else {
        return Some(Stop::Steps);
    };
    let clauses = unit.clauses_in_force();
    if let Some(k) = false_ensures(clauses, &frames.entry_args, &frames.olds, memory, returned) {
        return Some(Stop::Fault(FaultKind::Ensures(k), from.unit, instr.at));
    }
    if frames.positions.len() <= 1 {
        return Some(Stop::Returned(returned));
    }
    resume(returned, frames);
    None
}

/// Ends the frame that runs, and pushes its result to its caller.
#[tactic(auto, using(crate::proofs::ReturnLemmas::less))]
fn resume(returned: Option<Value>, frames: &mut Frames)
    requires { size_of frames.old.stack < frames.old.stack.room }
    ensures { frames.new ≡ with_result returned (left frames.old) }
{
    leave(frames);
    if let Some(value) = returned {
        frames.stack.push(value);
    }
}
