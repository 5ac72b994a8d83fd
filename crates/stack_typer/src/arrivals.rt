//! How a stack comes to instructions (ECMA-335 III.1.8.1.3).

ghost use Rattle.std.specs.Prelude.{◌≡◌, ℕ, ◌<◌, ◌≤◌, false, true, length, IfOk, OnOk};
ghost use Rattle.std.specs.Option.{option_or};
ghost use Rattle.cil_model.specs.Offsets.{AreLaidOut};
ghost use Rattle.cil_model.specs.Passes.{arrived, come_to, come_to_all};
ghost use Rattle.stack_typer.specs.Room.{changes_left, Tells};

use crate::nearby::index_near;
use crate::stack::Stack;
use cil_model::Instr;
use std::alloc::AllocError;

/// Merges a stack into what came before, where both merge, and says whether that changed anything.
fn arrive(before: &mut Option<Stack>, stack: &Stack) -> Result<bool, AllocError>
    ensures stack { OnOk result (before.new ≡ option_or (arrived before.old stack.now) before.old) }
    ensures same { IfOk result (λ changed. changed ≡ false → before.new ≡ before.old) }
    ensures fewer { (most : ℕ) → length stack.now ≤ most
        → IfOk result (λ changed. changed ≡ true → changes_left most before.new < changes_left most before.old) }
{
    match before {
        Some(before) => Ok(before.merge(stack)),
        None => {
            *before = Some(stack.copied()?);
            Ok(true)
        }
    }
}

/// Brings a stack to the instruction at an IL offset, if there is one, and says whether that changed anything. The
/// instruction of the guessed index is tried first.
#[tactic(auto, using(crate::proofs::OffsetLemmas::coming, crate::proofs::RoomLemmas::one_step))]
fn come_to(
    instrs: &[Instr],
    stacks: &mut [Option<Stack>],
    stack: &Stack,
    guess: usize,
    at: u32,
) -> Result<bool, AllocError>
    requires laid_out { AreLaidOut instrs.now }
    requires same_length { length stacks.old ≡ length instrs.now }
    ensures stacks { OnOk result (stacks.new ≡ come_to instrs.now stacks.old at stack.now) }
    ensures told { (most : ℕ) → length stack.now ≤ most → IfOk result (Tells most stacks.old stacks.new) }
{
    match index_near(instrs, guess, at) {
        Some(index) => arrive(&mut stacks[index], stack),
        None => Ok(false),
    }
}

/// Brings a stack to the instructions at the IL offsets, and says whether that changed anything. For each the
/// instruction of the guessed index is tried first.
pub fn come_to_all(
    instrs: &[Instr],
    stacks: &mut [Option<Stack>],
    stack: &Stack,
    guess: usize,
    offsets: &[u32],
) -> Result<bool, AllocError>
    requires laid_out { AreLaidOut instrs.now }
    requires same_length { length stacks.old ≡ length instrs.now }
    ensures stacks { OnOk result (stacks.new ≡ come_to_all instrs.now stacks.old stack.now offsets.now) }
    ensures told { (most : ℕ) → length stack.now ≤ most → IfOk result (Tells most stacks.old stacks.new) }
{
    let mut changed = false;
    for at in offsets {
        changed |= come_to(instrs, stacks, stack, guess, *at)?;
    }
    Ok(changed)
}
