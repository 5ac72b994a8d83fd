//! The typing of a method's code, in passes.
//!
//! The first fault of kinds is that of so many passes as settle any code: a function, so that what is printed is one.

ghost use Rattle.std.specs.Prelude.{◌≡◌, Some, length, slice_get, IfOk, OnOk};
ghost use Rattle.cc_base.specs.Tests.{JudgesOrNoMemory, GivesOnly, RefusesOnly};
ghost use Rattle.cil_model.specs.FitKinds.{AreDecoded, TypedCodeSteps};
ghost use Rattle.cil_model.specs.Offsets.{AreLaidOut};
ghost use Rattle.cil_model.specs.Passes.{Stacks, KindsOf, HasTypeFault, visited, stack_at, pass, first_stacks};
ghost use Rattle.cil_model.specs.declared.type_fault.TypeFault.{TypeFault};
ghost use Rattle.stack_typer.specs.Answers.{Leaves, IfFault};
ghost use Rattle.stack_typer.specs.Brought.{AreBrought};
ghost use Rattle.stack_typer.specs.FirstTypeFault.{first_type_fault};
ghost use Rattle.stack_typer.specs.Room.{Tells};

use crate::follow::follow;
use crate::kinds::{Kinds, TypeRefusal};
use crate::stack::Stack;
use crate::type_instr::type_instr;
use cc_base::Refusal;
use cil_model::{Instr, Shape, TypeFault};
use std::alloc::Global;

/// The stacks before the first pass: the first instruction alone is reached, with an empty stack.
fn first_stacks(alloc: Global, instrs: &[Instr]) -> Result<Vec<Option<Stack>>, TypeRefusal>
    ensures ok { IfOk result (λ stacks. first_stacks instrs.now ≡ Ok stacks.items) }
    ensures err { IfFault result (λ fault. first_stacks instrs.now ≡ Err fault) }
    ensures same_length { IfOk result (λ stacks. length stacks.items ≡ length instrs.now) }
{
    let [_, others @ ..] = instrs else {
        return Err(Refusal::Bad(TypeFault::FallsOff(0)));
    };
    let mut stacks = Vec::with_capacity(alloc, instrs.len())?;
    stacks.push(Some(Stack::new(alloc)))?;
    for _other in others {
        stacks.push(None)?;
    }
    Ok(stacks)
}

/// Types an instruction, which has this index, if it is reached, and says whether that changed a stack.
///
/// `stack` is room to work in.
#[tactic(auto, using(crate::proofs::OffsetLemmas::stack_before))]
fn visit(
    shape: &Shape,
    instrs: &[Instr],
    stacks: &mut [Option<Stack>],
    index: usize,
    instr: &Instr,
    stack: &mut Stack,
) -> Result<bool, TypeRefusal>
    requires laid_out { AreLaidOut instrs.now }
    requires same_length { length stacks.old ≡ length instrs.now }
    requires there { slice_get instrs.now index ≡ Some instr.now }
    ensures stacks { Leaves result (visited shape.now instrs.now stacks.old instr.now
        (stack_at instrs.now stacks.old instr.now.at)) stacks.new }
    ensures told { IfOk result (Tells shape.now.max_stack stacks.old stacks.new) }
{
    let Some(before) = &stacks[index] else {
        return Ok(false);
    };
    stack.copy_from(before)?;
    type_instr(shape, instr, stack)?;
    follow(instrs, stacks, index, instr, stack)
}

/// Types each reached instruction once, in rising order, and says whether that changed a stack.
///
/// `stack` is room to work in.
fn pass(
    shape: &Shape,
    instrs: &[Instr],
    stacks: &mut [Option<Stack>],
    stack: &mut Stack,
) -> Result<bool, TypeRefusal>
    requires laid_out { AreLaidOut instrs.now }
    requires same_length { length stacks.old ≡ length instrs.now }
    ensures stacks { Leaves result (pass shape.now instrs.now stacks.old) stacks.new }
    ensures told { IfOk result (Tells shape.now.max_stack stacks.old stacks.new) }
{
    let mut changed = false;
    for (index, instr) in instrs.iter().enumerate() {
        changed |= visit(shape, instrs, stacks, index, instr, stack)?;
    }
    Ok(changed)
}

/// Makes passes until one changes nothing.
fn settle(
    alloc: Global,
    shape: &Shape,
    instrs: &[Instr],
    stacks: &mut [Option<Stack>],
) -> Result<(), TypeRefusal>
    requires laid_out { AreLaidOut instrs.now }
    requires same_length { length stacks.old ≡ length instrs.now }
    requires brought { AreBrought shape.now instrs.now stacks.old }
    ensures ok { OnOk result (KindsOf shape.now instrs.now stacks.new) }
    ensures err { IfFault result (HasTypeFault shape.now instrs.now) }
{
    let mut stack = Stack::new(alloc);
    'passes: while pass(shape, instrs, stacks, &mut stack)? {}
    Ok(())
}

/// The kinds of the code, or its first fault.
fn settled_kinds(alloc: Global, instrs: &[Instr], shape: &Shape) -> Result<Kinds, TypeRefusal>
    requires { AreLaidOut instrs.now }
    ensures ok { IfOk result (KindsOf shape.now instrs.now) }
    ensures err { IfFault result (HasTypeFault shape.now instrs.now) }
{
    let mut stacks = first_stacks(alloc, instrs)?;
    settle(alloc, shape, instrs, &mut stacks)?;
    Ok(Kinds::from_stacks(stacks))
}

/// The kinds on the stack before each instruction of a method's code, or the first fault of the code
/// (ECMA-335 III.1.7.5 and III.1.8.1.3).
///
/// The instructions lie one after another, as in code that was decoded. A branch may go anywhere: where no
/// instruction begins, it brings nothing.
///
/// # Errors
///
/// The first fault that the passes meet, or that memory ran out. At one instruction a missing operand comes first,
/// then an operand of a wrong kind, then a stack that is too deep, then the end of the code after it, and last a
/// conflict at one of its successors, the lowest.
///
/// # Cost
///
/// A pass visits each reached instruction once. A visit goes over the stack before the instruction, and over the
/// one before each successor, which it finds by halving. It takes memory for a successor that was not reached
/// before, and for nothing else. Passes are made until one changes nothing: two for code that only branches
/// forward, and one more for each backward branch that brings what a pass did not know, where one leads to another.
#[tactic(auto, using(crate::proofs::Answered::answered))]
pub fn type_code(alloc: Global, instrs: &[Instr], shape: &Shape) -> Result<Kinds, TypeRefusal>
    requires { AreLaidOut instrs.now }
    ensures ok { IfOk result (KindsOf shape.now instrs.now) }
    ensures err { IfFault result (HasTypeFault shape.now instrs.now) }
    // The first fault is a function of the code and the shape.
    ensures judged { JudgesOrNoMemory result (first_type_fault instrs.now shape.now) (KindsOf shape.now instrs.now) }
    // The kinds that the code has are given, and the fault that it has, unless memory runs out.
    ensures only { (stacks : Stacks) → KindsOf shape.now instrs.now stacks → GivesOnly result (λ kinds. kinds ≡ stacks) }
    ensures only_fault { (fault : TypeFault) → HasTypeFault shape.now instrs.now fault → RefusesOnly result (λ given. given ≡ fault) }
    ensures count { IfOk result (λ kinds. length kinds ≡ length instrs.now) }
    // What typing is for: decoded code with kinds has a step wherever it is executed, and keeps its kinds.
    ensures steps { IfOk result (λ kinds. AreDecoded instrs.now → TypedCodeSteps shape.now instrs.now kinds) }
{
    settled_kinds(alloc, instrs, shape)
}
