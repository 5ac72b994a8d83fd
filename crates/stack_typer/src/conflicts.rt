//! Where a stack does not merge with what came before (ECMA-335 III.1.8.1.3).

ghost use Rattle.std.specs.Prelude.{◌≡◌, length};
ghost use Rattle.std.specs.Option.{option_copied};
ghost use Rattle.cil_model.specs.Offsets.{AreLaidOut};
ghost use Rattle.cil_model.specs.Passes.{stack_at, lowest_conflict};
ghost use Rattle.stack_typer.specs.Successors.{conflict_at, lower};

use crate::nearby::index_near;
use crate::stack::Stack;
use cil_model::Instr;

/// The stack before the instruction at an IL offset, if one came there. The instruction of the guessed index is tried
/// first, here as below.
#[tactic(auto, using(crate::proofs::OffsetLemmas::stack_read, crate::proofs::OffsetLemmas::no_stack_there))]
fn stack_at<'a>(
    instrs: &[Instr],
    stacks: &'a [Option<Stack>],
    guess: usize,
    at: u32,
) -> Option<&'a Stack>
    requires laid_out { AreLaidOut instrs.now }
    requires same_length { length stacks.now ≡ length instrs.now }
    ensures { option_copied result ≡ stack_at instrs.now stacks.now at }
{
    let index = index_near(instrs, guess, at)?;
    stacks[index].as_ref()
}

/// The offset, where the stack does not merge with the one there.
fn conflict_at(
    instrs: &[Instr],
    stacks: &[Option<Stack>],
    stack: &Stack,
    guess: usize,
    at: u32,
) -> Option<u32>
    requires laid_out { AreLaidOut instrs.now }
    requires same_length { length stacks.now ≡ length instrs.now }
    ensures { result ≡ conflict_at instrs.now stacks.now stack.now at }
{
    match stack_at(instrs, stacks, guess, at) {
        Some(before) if !before.merges_with(stack) => Some(at),
        _ => None,
    }
}

/// The lower of two offsets, where both are there, or the one that is.
pub fn lower(a: Option<u32>, b: Option<u32>) -> Option<u32>
    ensures { result ≡ lower a b }
{
    match (a, b) {
        (Some(a), Some(b)) => Some(a.min(b)),
        (None, only) | (only, None) => only,
    }
}

/// The lowest of the offsets where the stack does not merge, if there is one.
#[tactic(auto, using(crate::proofs::ConflictLemmas::one_more_offset))]
pub fn lowest_conflict(
    instrs: &[Instr],
    stacks: &[Option<Stack>],
    stack: &Stack,
    guess: usize,
    offsets: &[u32],
) -> Option<u32>
    requires laid_out { AreLaidOut instrs.now }
    requires same_length { length stacks.now ≡ length instrs.now }
    ensures { result ≡ lowest_conflict instrs.now stacks.now stack.now offsets.now }
{
    let mut lowest = None;
    for at in offsets {
        lowest = lower(lowest, conflict_at(instrs, stacks, stack, guess, *at));
    }
    lowest
}
