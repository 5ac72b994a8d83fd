//! What an instruction does to the stack (ECMA-335 III.1.7.4 and III.1.8.1).

ghost use Rattle.std.specs.Prelude.{◌≤◌, length, OnOk};
ghost use Rattle.cil_model.specs.Kinds.{typed};
ghost use Rattle.stack_typer.specs.Answers.{Leaves};

use crate::kinds::TypeRefusal;
use crate::operations::operation;
use crate::stack::Stack;
use cc_base::Refusal;
use cil_model::{Instr, Shape, TypeFault, operand_count};

/// Makes the stack before an instruction the one after it.
pub fn type_instr(shape: &Shape, instr: &Instr, stack: &mut Stack) -> Result<(), TypeRefusal>
    ensures stack { Leaves result (typed shape.now instr.now stack.old) stack.new }
    ensures within { OnOk result (length stack.new ≤ shape.now.max_stack) }
{
    if stack.len() < operand_count(shape, &instr.op) {
        return Err(Refusal::Bad(TypeFault::Underflow(instr.at)));
    }
    if !operation(shape, &instr.op, stack)? {
        return Err(Refusal::Bad(TypeFault::WrongKind(instr.at)));
    }
    if stack.len() > usize::from(shape.max_stack) {
        return Err(Refusal::Bad(TypeFault::Deep(instr.at)));
    }
    Ok(())
}
