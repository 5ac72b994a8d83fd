//! The lists of the frames of a run.

ghost use Rattle.std.specs.Prelude.{◌≡◌, ◌↔◌, ℕ, IsTrue, IfOk};
ghost use Rattle.cil_eval.specs.Capacity.{HasSpace, HoldDepth};
ghost use Rattle.cil_eval.specs.Entered.{HoldNothing};

use cil_model::{MAX_OLD_VALUES, MAX_VARIABLES, Value};
use clause_eval::Pile;
use std::alloc::{AllocError, Global};

/// Where a method is.
#[derive(Clone, Copy, Debug, PartialEq, Eq)]
pub(crate) struct Position {
    /// The index of its unit in the world.
    pub unit: u32,
    /// The IL offset of its next instruction.
    pub at: u32,
}

/// The lists of the frames of a run.
#[derive(Drop)]
pub(crate) struct Frames {
    pub stack: Pile<Value>,
    pub args: Pile<Value>,
    pub locals: Pile<Value>,
    /// The arguments when each method began.
    pub entry_args: Pile<Value>,
    /// What the old values were when each method began.
    pub olds: Pile<Option<Value>>,
    /// Where the methods are: one list, the last of which is that of the frame that runs.
    pub positions: Pile<Position>,
}

impl Frames {
    /// No frames, and memory for so many: each has the variables and old values of one method at most, and a call puts
    /// its arguments where those of one frame more would stand.
    pub fn make(alloc: Global, depth: u32) -> Result<Frames, AllocError>
        ensures nothing { IfOk result HoldNothing }
        ensures room { IfOk result (HoldDepth depth) }
    {
        let depth = depth as usize;
        let values = (depth + 1) * MAX_VARIABLES;
        let olds = (depth + 1) * MAX_OLD_VALUES;
        Ok(Frames {
            stack: Pile::make(alloc, values, depth)?,
            args: Pile::make(alloc, values, depth)?,
            locals: Pile::make(alloc, values, depth)?,
            entry_args: Pile::make(alloc, values, depth)?,
            olds: Pile::make(alloc, olds, depth)?,
            positions: Pile::make(alloc, depth + 1, depth)?,
        })
    }

    /// Leaves no frames.
    pub fn clear(&mut self)
        ensures nothing { HoldNothing self.new }
        ensures room { (depth : ℕ) → HoldDepth depth self.old → HoldDepth depth self.new }
    {
        self.stack.clear();
        self.args.clear();
        self.locals.clear();
        self.entry_args.clear();
        self.olds.clear();
        self.positions.clear();
    }

    /// Returns whether there is a frame, and room for one value more and for a frame of any method.
    pub fn have_space(&self) -> bool
        ensures { IsTrue result ↔ HasSpace self.now }
    {
        self.stack.has_room_for(1)
            && self.args.has_room_for(MAX_VARIABLES as u16)
            && self.locals.has_room_for(MAX_VARIABLES as u16)
            && self.entry_args.has_room_for(MAX_VARIABLES as u16)
            && self.olds.has_room_for(MAX_OLD_VALUES as u16)
            && self.positions.has_room_for(1)
            && 1 <= self.positions.len()
    }
}
