//! The configurations of the machine that runs units.

use crate::list::List;
use crate::place::Place;
use crate::unit::Unit;

/// A value of the machine.
#[derive(Clone, Copy, Debug, PartialEq, Eq)]
pub enum Value {
    Int(i32),
    /// A length, as a native number.
    Native(u32),
    Null,
    /// The array of this index in the heap.
    Array(u32),
    /// The address of an item: the index of its array in the heap, and its own index there.
    Addr(u32, u32),
    Text,
}

/// An array of the heap.
#[derive(Drop)]
pub struct ArrayCell {
    /// The array's type: `bool[]` or `int32[]`.
    pub place: Place,
    pub items: List<i32>,
}

/// A method that is running.
#[derive(Drop)]
pub struct Frame {
    /// The index of its unit in the world.
    pub unit: u32,
    /// The IL offset of the next instruction.
    pub at: u32,
    /// The first value is the top.
    pub stack: List<Value>,
    pub locals: List<Value>,
    pub args: List<Value>,
    /// The arguments when the method began.
    pub entry_args: List<Value>,
    /// The heap when the method began.
    pub entry_heap: List<ArrayCell>,
}

/// A state of the machine, or how it ended. The two numbers of an end are a unit's index and an IL offset.
#[derive(Drop)]
pub enum Config {
    Live {
        /// The last frame is the one that runs.
        frames: List<Frame>,
        heap: List<ArrayCell>,
    },
    Returned(Option<Value>),
    Fault(FaultKind, u32, u32),
    Assumed(u32, u32),
    NoRoom,
}

/// Methods that call each other.
#[derive(Drop)]
pub struct World {
    pub units: List<Unit>,
    /// For each unit, the indexes of its callees among the units.
    pub callee: List<List<u32>>,
}

/// What goes wrong at a fault. A clause is counted from 1.
#[derive(Clone, Copy, Debug, PartialEq, Eq)]
pub enum FaultKind {
    Requires(u8),
    Ensures(u8),
    Assert,
    NullUse,
    Lower,
    Upper,
    DivZero,
    DivOverflow,
    Overflow,
    Shift,
    ArraySize,
}

/// A fault that has to be ruled out at an instruction.
#[derive(Clone, Copy, Debug, PartialEq, Eq)]
pub struct Obligation {
    /// The IL offset of the instruction.
    pub at: u32,
    pub kind: FaultKind,
    /// Of a callee's clause, the callee's number.
    pub callee: Option<u16>,
}
