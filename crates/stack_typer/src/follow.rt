//! How the stack after an instruction goes on (ECMA-335 III.1.7.5 and III.1.8.1.3).

ghost use Rattle.std.specs.Prelude.{◌≡◌, ℕ, ◌≤◌, length, slice_get, Some, Ok, IfOk};
ghost use Rattle.cil_model.specs.Offsets.{AreLaidOut};
ghost use Rattle.cil_model.specs.Passes.{follow};
ghost use Rattle.stack_typer.specs.Answers.{Leaves};
ghost use Rattle.stack_typer.specs.Room.{Tells};

use crate::arrivals::come_to_all;
use crate::conflicts::{lower, lowest_conflict};
use crate::kinds::TypeRefusal;
use crate::stack::Stack;
use crate::successors::{branch_targets, next_offset};
use cc_base::Refusal;
use cil_model::{Instr, TypeFault};

/// Brings the stack after an instruction, which has this index, to all that may follow, and says whether that
/// changed anything.
#[tactic(auto, using(crate::proofs::FollowLemmas::follow_rules))]
pub fn follow(
    instrs: &[Instr],
    stacks: &mut [Option<Stack>],
    index: usize,
    instr: &Instr,
    stack: &Stack,
) -> Result<bool, TypeRefusal>
    requires laid_out { AreLaidOut instrs.now }
    requires same_length { length stacks.old ≡ length instrs.now }
    requires there { slice_get instrs.now index ≡ Some instr.now }
    ensures stacks { Leaves result (follow instrs.now stacks.old instr.now (Ok stack.now)) stacks.new }
    ensures told { (most : ℕ) → length stack.now ≤ most → IfOk result (Tells most stacks.old stacks.new) }
{
    let Some(next) = next_offset(instrs, index, instr) else {
        return Err(Refusal::Bad(TypeFault::FallsOff(instr.at)));
    };
    let targets = branch_targets(&instr.op);
    let at_targets = lowest_conflict(instrs, stacks, stack, index + 1, targets);
    let at_next = lowest_conflict(instrs, stacks, stack, index + 1, next);
    if let Some(at) = lower(at_targets, at_next) {
        return Err(Refusal::Bad(TypeFault::Conflict(at)));
    }
    let by_targets = come_to_all(instrs, stacks, stack, index + 1, targets)?;
    let by_next = come_to_all(instrs, stacks, stack, index + 1, next)?;
    Ok(by_targets | by_next)
}
