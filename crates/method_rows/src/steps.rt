//! What tables of code share: operations, the code and the shapes that are made of them, and the units of files.

ghost use Rattle.std.specs.Prelude.{◌≡◌, true, IfOk};
ghost use Rattle.cil_model.specs.Offsets.{AreLaidOut, LieFrom};
ghost use Rattle.method_unit.specs.Units.{IsUnit};

use cc_base::Refusal;
use cil_model::{CalleeInfo, Instr, List, Op, Place, Shape};
use method_unit::read_unit;
use stack_typer::TypedUnit;
use std::alloc::{AllocError, Global};
use std::process::Abort;

/// An operation in a table.
#[derive(Clone, Copy)]
pub enum Step {
    Nop,
    LoadArg(u16),
    Call(u32),
    Return,
    Switch(&'static [u32]),
    NewArray(u32),
}

/// The operation.
fn op(alloc: Global, step: Step) -> Result<Op, AllocError> {
    Ok(match step {
        Step::Nop => Op::Nop,
        Step::LoadArg(number) => Op::LoadArg(number),
        Step::Call(number) => Op::Call(number),
        Step::Return => Op::Return,
        Step::Switch(targets) => Op::Switch(List::from_vec(Vec::from_slice(alloc, targets)?)),
        Step::NewArray(number) => Op::NewArray(number),
    })
}

/// The instructions of some operations, of one byte each.
pub fn code(alloc: Global, steps: &[Step]) -> Result<Vec<Instr>, AllocError> {
    let mut instrs = Vec::new(alloc);
    for (index, step) in steps.iter().enumerate() {
        let at = u32::try_from(index).unwrap_or(u32::MAX);
        instrs.push(Instr {
            at,
            size: 1,
            op: op(alloc, *step)?,
        })?;
    }
    Ok(instrs)
}

/// Returns whether the instructions lie one after another, from this IL offset on.
fn lie_from(instrs: &[Instr], at: u32) -> bool
    ensures { result ≡ true → LieFrom at instrs.now }
{
    match instrs {
        [] => true,
        [first, others @ ..] => {
            first.at == at
                && first.size > 0
                && match at.checked_add(first.size) {
                    Some(next) => lie_from(others, next),
                    None => false,
                }
        }
    }
}

/// Returns whether the instructions lie one after another, from the start of the code on.
pub fn are_laid_out(instrs: &[Instr]) -> bool
    ensures { result ≡ true → AreLaidOut instrs.now }
{
    lie_from(instrs, 0)
}

/// A list of places.
pub fn places(alloc: Global, places: &[Place]) -> Result<List<Place>, AllocError> {
    Ok(List::from_vec(Vec::from_slice(alloc, places)?))
}

/// A method that is called, without a name.
fn callee(alloc: Global, result_place: Place, args: &[Place]) -> Result<CalleeInfo, AllocError> {
    let args = places(alloc, args)?;
    Ok(CalleeInfo {
        name: List::from_vec(Vec::new(alloc)),
        result: result_place,
        args,
        clauses: List::from_vec(Vec::new(alloc)),
    })
}

/// `bool[] f(int32, int32[])` and `void g()`.
fn callees(alloc: Global) -> Result<List<CalleeInfo>, AllocError> {
    let f = callee(alloc, Place::Bools, &[Place::Int, Place::Ints])?;
    let g = callee(alloc, Place::Void, &[])?;
    Ok(List::from_vec(vec![in alloc; f, g]?))
}

/// A method of four arguments, an int32, an int32[], a bool[] and a bool, of two locals, an int32 and an int32[], and
/// of two callees, `bool[] f(int32, int32[])` and `void g()`.
pub fn shape(alloc: Global, result_place: Place, max_stack: u16) -> Result<Shape, AllocError> {
    let args = places(alloc, &[Place::Int, Place::Ints, Place::Bools, Place::Bool])?;
    let locals = places(alloc, &[Place::Int, Place::Ints])?;
    let callees = callees(alloc)?;
    Ok(Shape {
        result: result_place,
        args,
        locals,
        max_stack,
        callees,
    })
}

/// The parts, one after another.
pub fn joined(alloc: Global, parts: &[&[u8]]) -> Result<Vec<u8>, AllocError> {
    let mut bytes = Vec::new(alloc);
    for part in parts {
        bytes.extend_from_slice(part)?;
    }
    Ok(bytes)
}

/// The unit of a file.
pub fn unit_of(rt: &impl Abort, alloc: Global, file: &[u8]) -> Result<TypedUnit, AllocError>
    ensures { IfOk result IsUnit }
{
    assert!(rt; file.len() <= 100_000);
    match read_unit(alloc, file) {
        Ok(unit) => Ok(unit),
        Err(Refusal::NoMemory) => Err(AllocError),
        Err(Refusal::Bad(_)) => panic!(rt; "no unit"),
    }
}
