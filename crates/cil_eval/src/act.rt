//! The actions of instructions.

ghost use Rattle.std.specs.Prelude.{◌≡◌, ◌+◌, ◌<◌, ◌≤◌, ◌^◌, length};
ghost use Rattle.cil_eval.specs.Held.{acted_frames, stop_of, moved_to};
ghost use Rattle.clause_eval.specs.Piles.{size_of};

use crate::action::Action;
use crate::frames::{Frames, Position};
use crate::stop::Stop;
use cil_model::Instr;

/// The frame that runs goes on at an IL offset.
fn move_to(frames: &mut Frames, unit: u32, at: u32)
    requires { 1 ≤ length frames.old.positions.top }
    ensures { frames.new ≡ moved_to unit at frames.old }
{
    frames.positions.set(0, Position { unit, at });
}

/// Does an action of the frame that runs, a frame of the unit of this index.
pub(crate) fn act(action: Action, unit: u32, instr: &Instr, frames: &mut Frames) -> Option<Stop>
    requires frame { 1 ≤ length frames.old.positions.top }
    requires room { size_of frames.old.stack < frames.old.stack.room }
    requires behind { instr.now.at + instr.now.size < 2 ^ 32 }
    ensures frames { frames.new ≡ acted_frames action unit instr.now frames.old }
    ensures stop { result ≡ stop_of action unit instr.now }
{
    match action {
        Action::Push(value) => {
            frames.stack.push(value);
            move_to(frames, unit, instr.at + instr.size);
            None
        }
        Action::Next => {
            move_to(frames, unit, instr.at + instr.size);
            None
        }
        Action::Jump(at) => {
            move_to(frames, unit, at);
            None
        }
        Action::Fault(kind) => Some(Stop::Fault(kind, unit, instr.at)),
        Action::Assumed => Some(Stop::Assumed(unit, instr.at)),
        Action::Cells => Some(Stop::Cells),
        Action::Stuck => Some(Stop::Steps),
    }
}
