//! One step of the machine.

ghost use Rattle.std.specs.Prelude.{◌≡◌, ◌≢◌, ◌+◌, ◌<◌, ◌≤◌, ◌^◌, length, slice_get, Some, None, MatchOption};
ghost use Rattle.cil_model.specs.Calls as calls;
ghost use Rattle.cil_eval.specs.Capacity.{HasSpace, SameRooms};
ghost use Rattle.cil_eval.specs.Flows.{AreRunnable};
ghost use Rattle.cil_eval.specs.Machines.{Advances, HasMemory};
ghost use Rattle.cil_eval.specs.Turns.{CallsNumber, Turns};

use crate::calls::{call, give_back};
use crate::effect::effect;
use crate::flow::{Flow, flow_of};
use crate::frames::{Frames, Position};
use crate::limits::Limits;
use crate::offsets::find;
use crate::stop::Stop;
use cil_model::{Instr, Unit, World};
use clause_eval::Memory;

/// The unit of an index.
pub(crate) fn unit_at(world: &World, index: u32) -> Option<&Unit>
    ensures { MatchOption result (slice_get world.now.units index ≡ None) (λ unit. slice_get world.now.units index ≡ Some unit.now) }
{
    world.units.as_slice().get(index as usize)
}

/// The index in the world of a callee of a unit.
fn callee_index(world: &World, unit: u32, number: u32) -> Option<u32>
    ensures { result ≡ calls.callee_index world.now unit number }
{
    let callees = world.callee.as_slice().get(unit as usize)?;
    callees.as_slice().get(number as usize).copied()
}

/// Calls the callee of a number.
#[tactic(auto, using(crate::proofs::TurnLemmas::runnable, crate::proofs::Spaces::room_to_call))]
fn call_number(
    world: &World,
    number: u32,
    from: Position,
    instr: &Instr,
    deeper: bool,
    frames: &mut Frames,
    memory: &Memory,
) -> Option<Stop>
    requires runnable { AreRunnable world.now }
    requires space { HasSpace frames.old }
    requires behind { instr.now.at + instr.now.size < 2 ^ 32 }
    ensures calls { CallsNumber world.now number from.unit instr.now deeper frames.old memory.now.heap frames.new result }
    ensures room { SameRooms frames.old frames.new }
{
    let Some(index) = callee_index(world, from.unit, number) else {
        return Some(Stop::Steps);
    };
    let Some(callee) = unit_at(world, index) else {
        return Some(Stop::Steps);
    };
    call(callee, index, from, instr, deeper, frames, memory)
}

/// Does the next instruction of the frame that runs. The flag says whether there may be one frame more.
#[tactic(auto, using(crate::proofs::TurnLemmas::runnable, crate::proofs::TurnLemmas::goes_behind))]
pub(crate) fn turn(
    world: &World,
    deeper: bool,
    frames: &mut Frames,
    memory: &mut Memory,
) -> Option<Stop>
    requires runnable { AreRunnable world.now }
    requires space { HasSpace frames.old }
    ensures turns { Turns world.now memory.old.limit deeper frames.old memory.old.heap frames.new memory.new.heap result }
    ensures room { SameRooms frames.old frames.new }
    ensures ended { result ≢ None → memory.new.heap ≡ memory.old.heap }
    ensures limit { memory.new.limit ≡ memory.old.limit }
{
    let Some(from) = frames.positions.get(0) else {
        return Some(Stop::Steps);
    };
    let Some(unit) = unit_at(world, from.unit) else {
        return Some(Stop::Steps);
    };
    let Some(instr) = find(unit.instrs.as_slice(), from.at) else {
        return Some(Stop::Steps);
    };
    match flow_of(&instr.op) {
        Flow::Back => give_back(unit, from, instr, frames, memory),
        Flow::Into(number) => call_number(world, number, from, instr, deeper, frames, memory),
        Flow::Stays => effect(unit, from.unit, instr, frames, memory),
    }
}

/// Does one step under limits. Where the frames have no space for one, which frames of typed code have, it stops.
pub(crate) fn advance(
    world: &World,
    limits: Limits,
    frames: &mut Frames,
    memory: &mut Memory,
) -> Option<Stop>
    requires memory { HasMemory limits world.now frames.old memory.old }
    ensures advances { Advances world.now limits frames.old memory.old frames.new memory.new result }
    ensures ended { result ≢ None → memory.new.heap ≡ memory.old.heap }
    ensures memory { HasMemory limits world.now frames.new memory.new }
{
    if !frames.have_space() {
        return Some(Stop::Steps);
    }
    let deeper = frames.positions.len() < limits.depth as usize;
    turn(world, deeper, frames, memory)
}
