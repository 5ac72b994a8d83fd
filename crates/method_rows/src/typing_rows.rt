//! Kinds of code that is refused before its kinds are asked for, which no command comes to.
//!
//! Each instruction has one byte, so that an IL offset is the index of an instruction.

use crate::steps::{Step, are_laid_out, code, shape};
use cc_base::Refusal;
use cil_model::{Place, TypeFault};
use stack_typer::{Kinds, type_code};
use std::alloc::{AllocError, Global};
use std::process::Abort;
use std::test::Fail;

/// Code of a method without a result, with its first fault.
const FAULTY: [(&[Step], TypeFault); 4] = [
    // Calls of no method and of a result of no type; a new array of no type.
    (&[Step::Call(102), Step::Return], TypeFault::WrongKind(0)),
    (&[Step::Call(10), Step::Return], TypeFault::WrongKind(0)),
    (
        &[Step::LoadArg(0), Step::NewArray(3), Step::Return],
        TypeFault::WrongKind(1),
    ),
    // An old value of another array.
    (
        &[Step::LoadArg(1), Step::Call(23), Step::Return],
        TypeFault::WrongKind(1),
    ),
];

/// The kinds of code of a method without a result, or its first fault.
fn kinds(
    rt: &impl Abort,
    alloc: Global,
    steps: &[Step],
) -> Result<Result<Kinds, TypeFault>, AllocError> {
    let instrs = code(alloc, steps)?;
    assert!(rt; are_laid_out(&instrs));
    let shape = shape(alloc, Place::Void, 8)?;
    match type_code(alloc, &instrs, &shape) {
        Ok(kinds) => Ok(Ok(kinds)),
        Err(Refusal::Bad(fault)) => Ok(Err(fault)),
        Err(Refusal::NoMemory) => Err(AllocError),
    }
}

/// The first fault of code.
fn fault_of(
    rt: &impl Abort,
    alloc: Global,
    steps: &[Step],
) -> Result<Option<TypeFault>, AllocError> {
    match kinds(rt, alloc, steps)? {
        Ok(_) => Ok(None),
        Err(fault) => Ok(Some(fault)),
    }
}

/// Returns whether the stack is empty before the instruction of this index.
fn is_empty_before(kinds: &Kinds, index: u32) -> bool {
    match kinds.before(index) {
        Some(kinds) => kinds.is_empty(),
        None => false,
    }
}

#[test]
fn numbers_that_name_nothing_are_of_the_wrong_kind(rt: HostRuntime) -> Result<(), Fail> {
    for (steps, fault) in FAULTY {
        assert_eq!(rt; fault_of(&rt, rt.alloc(), steps)?, Some(fault));
    }
    Ok(())
}

#[test]
fn a_target_outside_brings_nothing(rt: HostRuntime) -> Result<(), Fail> {
    let steps = [
        Step::LoadArg(0),
        Step::Switch(&[3, 3, 99]),
        Step::Nop,
        Step::Return,
    ];
    match kinds(&rt, rt.alloc(), &steps)? {
        Ok(kinds) => assert!(rt; is_empty_before(&kinds, 3)),
        Err(fault) => assert!(rt; false, "{fault:?}"),
    }
    Ok(())
}
