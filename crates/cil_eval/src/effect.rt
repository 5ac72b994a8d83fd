//! One step that stays in its frame.

ghost use Rattle.std.specs.Prelude.{◌≡◌, ◌≢◌, ◌+◌, ◌<◌, ◌≤◌, ◌^◌, length, None};
ghost use Rattle.cil_eval.specs.Capacity.{SameRooms};
ghost use Rattle.cil_eval.specs.Effect.{Effects};
ghost use Rattle.clause_eval.specs.Piles.{size_of};

use crate::act::act;
use crate::frames::Frames;
use crate::perform::perform;
use crate::stop::Stop;
use cil_model::{Instr, Unit};
use clause_eval::Memory;

/// Does an instruction that neither calls a method nor returns, in the frame that runs, a frame of the unit of this
/// index.
#[tactic(auto, using(crate::proofs::ActLemmas::no_larger, crate::proofs::ActLemmas::stops_end))]
pub(crate) fn effect(
    unit: &Unit,
    index: u32,
    instr: &Instr,
    frames: &mut Frames,
    memory: &mut Memory,
) -> Option<Stop>
    requires frame { 1 ≤ length frames.old.positions.top }
    requires room { size_of frames.old.stack < frames.old.stack.room }
    requires behind { instr.now.at + instr.now.size < 2 ^ 32 }
    ensures effects { Effects memory.old.limit unit.now index instr.now frames.old memory.old.heap frames.new memory.new.heap result }
    ensures ended { result ≢ None → memory.new.heap ≡ memory.old.heap }
    ensures limit { memory.new.limit ≡ memory.old.limit }
    ensures room { SameRooms frames.old frames.new }
{
    let action = perform(&instr.op, unit, frames, memory);
    act(action, index, instr, frames)
}
