//! What is wrong with the code of one clause.

ghost use Rattle.std.specs.Prelude.{◌≡◌, ◌-◌, [], ◌∷◌, length, replicate, slice_index_or, IfOk, Some, slice_get};
ghost use Rattle.cc_base.specs.Tests.{JudgesOrNoMemory};
ghost use Rattle.clause_faults.specs.ClauseLies.{IsClauseCode, IsClauseIn, clause_faults};
ghost use Rattle.clause_faults.specs.Faults.{code_faults, first_fault};
ghost use Rattle.clause_faults.specs.declared.ways.arrivals.Arrival.TheVariants.{Empty};

use crate::clause_fault::{ClauseFault, ClauseRefusal};
use crate::first_fault::either;
use crate::ways::arrivals::{Arrival, Arrivals};
use crate::ways::hints::Hints;
use crate::ways::one_pass::{ClauseCode, pass_instr};
use cc_base::Refusal;
use cil_model::{Instr, Shape};
use std::alloc::{AllocError, Global};

/// The empty stack at the first of so many instructions, and nothing at the others.
fn first_stacks(alloc: Global, count: usize) -> Result<Vec<Arrivals>, AllocError>
    ensures { IfOk result (λ stacks. stacks.items ≡ (Empty ∷ []) ∷ replicate (count - 1) []) }
{
    let mut start = Arrivals::new(alloc);
    start.push(Arrival::Empty)?;
    let mut stacks = Vec::new(alloc);
    stacks.push(start)?;
    for _made in 0..count.saturating_sub(1) {
        stacks.push(Arrivals::new(alloc))?;
    }
    Ok(stacks)
}

/// Passes a clause's code from its start, and answers its first fault. The empty stack alone comes to its start.
fn pass_code(
    alloc: Global,
    hints: &mut Hints,
    clause: &ClauseCode,
    stacks: &mut [Arrivals],
) -> Result<Option<ClauseFault>, AllocError>
    requires clause { IsClauseIn clause.now.instrs.now clause.now.first clause.now.start clause.now.closing.now clause.now.code.now }
    requires stacks { stacks.old ≡ (Empty ∷ []) ∷ replicate (length clause.now.code.now - 1) [] }
    ensures { IfOk result (λ first. first ≡
        first_fault (code_faults clause.now.instrs.now clause.now.shape.now clause.now.start clause.now.closing.now clause.now.code.now)) }
{
    let mut first = None;
    for index in 0..clause.code.len() {
        let instr = &clause.code[index];
        let found = pass_instr(alloc, hints, clause, stacks, index, instr)?;
        first = either(first, found);
    }
    Ok(first)
}

/// The first fault of a clause's code, but for its size.
fn first_code_fault(alloc: Global, clause: &ClauseCode) -> Result<Option<ClauseFault>, AllocError>
    requires { IsClauseIn clause.now.instrs.now clause.now.first clause.now.start clause.now.closing.now clause.now.code.now }
    ensures { IfOk result (λ first. first ≡
        first_fault (code_faults clause.now.instrs.now clause.now.shape.now clause.now.start clause.now.closing.now clause.now.code.now)) }
{
    let count = clause.code.len();
    let mut hints = Hints::new(alloc, count)?;
    let mut stacks = first_stacks(alloc, count)?;
    pass_code(alloc, &mut hints, clause, &mut stacks)
}

/// Answers the first fault of the code of one clause, but for its size. The code is that of the instructions from the
/// one index up to the other, that of its closing call.
///
/// The code is passed once, whatever its branches. What comes to an instruction is kept as the tops of stacks, each
/// over an instruction to which the rest of it comes, and one instruction stands for all to which the same tops come.
/// Where ways that meet have stacks of one height, whose values below the top have the same kinds and calls, at most
/// seven tops come to an instruction, and the work is linear in the number of instructions. That holds unless different
/// lists of tops share a number in the table by which equal ones are found: then those may be kept apart that are
/// equal.
///
/// Where ways meet whose stacks differ in height, which is a fault, or in kinds or calls below their tops, an
/// instruction may have seven tops for each instruction before it. The work is then quadratic, and more where two
/// operands are taken, since each pair of a top and a value below it is looked at.
pub fn check_clause(
    alloc: Global,
    instrs: &[Instr],
    shape: &Shape,
    first: usize,
    last: usize,
) -> Result<(), ClauseRefusal>
    requires { IsClauseCode instrs.now first last }
    ensures { JudgesOrNoMemory result (first_fault (clause_faults instrs.now shape.now first last)) (λ _. Unit {0}) }
{
    let clause = ClauseCode {
        instrs,
        shape,
        first,
        code: &instrs[first..=last],
        start: instrs[first].at,
        closing: &instrs[last],
    };
    match first_code_fault(alloc, &clause)? {
        Some(fault) => Err(Refusal::Bad(fault)),
        None => Ok(()),
    }
}
