//! Frames begin and end (ECMA-335 III.3.19 and III.3.57).

ghost use Rattle.std.specs.Prelude.{◌≡◌, ◌+◌, ◌≤◌, ◌++◌, length, reverse};
ghost use Rattle.cil_eval.specs.Entered.{HasRoomToBegin, HasRoomToEnter, begun, entered, left};
ghost use Rattle.cil_eval.specs.Flows.{IsRunnable};
ghost use Rattle.clause_eval.specs.Piles.{size_of};
ghost use Rattle.cil_model.specs.Limits.{MAX_VARIABLES};

use crate::arguments::put_locals;
use crate::frames::{Frames, Position};
use cil_model::{Unit, Value};
use clause_eval::{Memory, Pile, put_all_olds};

/// Puts values on a list, in order.
fn put_values(values: &[Value], list: &mut Pile<Value>)
    requires { size_of list.old + length values.now ≤ list.old.room }
    ensures { list.new ≡ record list.old { top = reverse values.now ++ list.old.top } }
{
    for value in values {
        list.push(*value);
    }
}

/// Begins a frame of a unit, whose arguments are there already. The caller goes on at a position.
pub(crate) fn enter(unit: &Unit, index: u32, behind: Position, frames: &mut Frames, memory: &Memory)
    requires { HasRoomToEnter unit.now frames.old }
    ensures { frames.new ≡ entered unit.now index behind memory.now.heap frames.old }
{
    frames.stack.open();
    frames.locals.open();
    put_locals(unit.locals.as_slice(), &mut frames.locals);
    frames.entry_args.open();
    put_values(frames.args.as_slice(), &mut frames.entry_args);
    frames.olds.open();
    put_all_olds(
        unit.clauses_in_force(),
        &frames.args,
        memory,
        &mut frames.olds,
    );
    frames.positions.set(0, behind);
    frames.positions.push(Position {
        unit: index,
        at: unit.body_start,
    });
}

/// Ends the frame that runs, where there is one below.
pub(crate) fn leave(frames: &mut Frames)
    ensures { frames.new ≡ left frames.old }
{
    frames.stack.close();
    frames.args.close();
    frames.locals.close();
    frames.entry_args.close();
    frames.olds.close();
    frames.positions.pop();
}

/// Begins the first frame, which is of a unit of this index, with these arguments.
pub(crate) fn begin(
    unit: &Unit,
    index: u32,
    values: &Pile<Value>,
    frames: &mut Frames,
    memory: &Memory,
)
    requires runnable { IsRunnable unit.now }
    requires values { length values.now.top ≤ MAX_VARIABLES }
    requires room { HasRoomToBegin frames.old }
    ensures { frames.new ≡ begun unit.now index values.now.top memory.now.heap frames.old }
{
    put_values(values.as_slice(), &mut frames.args);
    put_locals(unit.locals.as_slice(), &mut frames.locals);
    put_values(values.as_slice(), &mut frames.entry_args);
    put_all_olds(unit.clauses_in_force(), values, memory, &mut frames.olds);
    frames.positions.push(Position {
        unit: index,
        at: unit.body_start,
    });
}
