//! Straight stretches of a clause's code: the instructions up to one that closes the clause or goes two ways.

ghost use Rattle.std.specs.Prelude.{◌≡◌, ◌<◌, ◌≤◌, false, true, length, List, IfOk, IfSome, OnOk, option_map};
ghost use Rattle.cil_model.specs.ClauseTrees.{Item, closing};
ghost use Rattle.cil_model.specs.declared.instruction.Instr.{Instr};
ghost use Rattle.cil_model.specs.ShortCode.{AreOfShortCode, IsOfShortCode};
ghost use Rattle.contract_extract.specs.Dropping.{AreAhead, GoesTo, IsWithin, Spares, Works, ahead_at, behind, dropped_at, without};
ghost use Rattle.contract_extract.specs.Growth.{ends_stretch, forward, jump_of, later_than, tree_here};
ghost use Rattle.contract_extract.specs.TreeStacks.{IsFromNext, IsFromWorking, StandsFor};
ghost use Rattle.contract_extract.specs.declared.trees.dropped.Dropped.{Dropped};
ghost use Rattle.contract_extract.specs.declared.trees.tree_stack.Slot.{Slot};

use crate::trees::ahead::Ahead;
use crate::trees::dropped::{Dropped, NOTHING, drop_values};
use crate::trees::tree_stack::{TreeStack, apply};
use cil_model::{Instr, Op, Test, UnitCall, index_of, unit_call};
use std::alloc::{AllocError, Global};

/// Returns whether the call that closes a clause takes a message, if the operation is such a call.
pub(crate) fn closing_message(op: &Op) -> Option<bool>
    ensures { result ≡ option_map (λ closed. closed.1) (closing op.now) }
{
    let Op::Call(number) = op else {
        return None;
    };
    match unit_call(*number) {
        Some(UnitCall::Requires(message) | UnitCall::Ensures(message)) => Some(message),
        _ => None,
    }
}

/// Returns whether a stretch ends at the operation.
fn ends_stretch(op: &Op) -> bool
    ensures { result ≡ ends_stretch op.now }
{
    match op {
        Op::Branch(test, _) => *test != Test::Always,
        _ => closing_message(op).is_some(),
    }
}

/// Where a branch goes.
pub(crate) fn jump(op: &Op) -> Option<u32>
    ensures { result ≡ jump_of op.now }
{
    match op {
        Op::Branch(_, target) => Some(*target),
        _ => None,
    }
}

/// The offset, where it is later than this one.
pub(crate) fn later_than(at: u32, later: u32) -> Option<u32>
    ensures { result ≡ later_than at later }
{
    (at < later).then_some(later)
}

/// An instruction that makes a part of the tree, or ends a way.
#[derive(Clone, Copy)]
pub(crate) struct Working<'a> {
    pub(crate) instr: &'a Instr,
    /// What is dropped of the stacks that come to it.
    pub(crate) dropped: Dropped,
}

/// Makes the stack before an instruction the one after it, and says where the way goes on, if the code of a clause may
/// have the instruction there.
#[tactic(auto, using(crate::proofs::TreeLemmas::StackLemmas::jumps_on, crate::proofs::TreeLemmas::StackLemmas::lacks, crate::proofs::TreeLemmas::StackLemmas::goes_to))]
fn step(alloc: Global, instr: &Instr, stack: &mut TreeStack) -> Result<Option<u32>, AllocError>
    requires short { IsOfShortCode instr.now }
    requires straight { ends_stretch instr.now.op ≡ false }
    // The stack lacks what is dropped. The instruction takes nothing of that.
    ensures tree { (is : List Instr) (items : List Item) (dropped : Dropped) → Spares instr.now.op dropped → StandsFor stack.old.items (without dropped items)
        → IfOk result (IsFromNext (tree_here (forward is) instr.now items) (forward is) (behind instr.now.op dropped) stack.new.items) }
    ensures later { IfOk result (λ later. IfSome later (GoesTo instr.now)) }
{
    if let Some(target) = jump(&instr.op) {
        return Ok(later_than(instr.at, target));
    }
    if !apply(alloc, &instr.op, stack)? {
        return Ok(None);
    }
    Ok(later_than(instr.at, instr.at + instr.size))
}

/// The first instruction from an IL offset on that makes a part of the tree or ends a way, if there is one.
#[tactic(auto, using(crate::proofs::TreeLemmas::Rising::short_rise))]
fn find_working<'a>(instrs: &'a [Instr], ahead: &[Ahead], at: u32) -> Option<Working<'a>>
    requires lie { AreOfShortCode instrs.now }
    requires ahead { AreAhead instrs.now ahead.now }
    ensures tree { (stack : List Slot) (items : List Item) → StandsFor stack (without (dropped_at instrs.now ahead.now at) items)
        → IsFromWorking (forward instrs.now at items) (forward instrs.now) stack result }
    ensures works { IfSome result (λ w. Works (ahead_at instrs.now ahead.now) w.instr.now w.dropped) }
    ensures later { IfSome result (λ w. at ≤ w.instr.now.at) }
    ensures short { IfSome result (λ w. IsOfShortCode w.instr.now) }
{
    let index = index_of(instrs, at)?;
    let index = index_of(instrs, ahead[index].works_at)?;
    Some(Working {
        instr: &instrs[index],
        dropped: ahead[index].dropped,
    })
}

/// Returns what is dropped of the stacks that come to an IL offset.
#[tactic(auto, using(crate::proofs::TreeLemmas::Rising::short_rise, crate::proofs::TreeLemmas::Looking::dropped_found, crate::proofs::TreeLemmas::Looking::dropped_nowhere))]
fn dropped_at(instrs: &[Instr], ahead: &[Ahead], at: u32) -> Dropped
    requires lie { AreOfShortCode instrs.now }
    requires long { length ahead.now ≡ length instrs.now }
    ensures { result ≡ dropped_at instrs.now ahead.now at }
{
    match index_of(instrs, at) {
        Some(index) => ahead[index].dropped,
        None => NOTHING,
    }
}

/// Makes the stack after an instruction the one that comes to a later one: what is dropped on each way from there
/// leaves it.
pub(crate) fn arrive(
    instrs: &[Instr],
    ahead: &[Ahead],
    from: &Working,
    at: u32,
    stack: &mut TreeStack,
) -> Result<(), AllocError>
    requires lie { AreOfShortCode instrs.now }
    requires long { length ahead.now ≡ length instrs.now }
    requires within { IsWithin (behind from.now.instr.now.op from.now.dropped) (dropped_at instrs.now ahead.now at) }
    ensures { (items : List Item) → StandsFor stack.old.items (without (behind from.now.instr.now.op from.now.dropped) items)
        → OnOk result (StandsFor stack.new.items (without (dropped_at instrs.now ahead.now at) items)) }
{
    let dropped = dropped_at(instrs, ahead, at);
    drop_values(stack, dropped, from.dropped.count)
}

/// Goes from an IL offset straight on to the instruction where the stretch ends, and leaves the stack that it finds. If
/// the clause has a tree from the offset on, it is the one from there on.
pub(crate) fn run<'a>(
    alloc: Global,
    instrs: &'a [Instr],
    ahead: &[Ahead],
    start: u32,
    stack: &mut TreeStack,
) -> Result<Option<Working<'a>>, AllocError>
    requires lie { AreOfShortCode instrs.now }
    requires ahead { AreAhead instrs.now ahead.now }
    ensures tree { (items : List Item) → StandsFor stack.old.items (without (dropped_at instrs.now ahead.now start) items) → IfOk result (λ end.
        IsFromWorking (forward instrs.now start items) (forward instrs.now) stack.new.items end) }
    ensures works { IfOk result (λ end. IfSome end (λ w. Works (ahead_at instrs.now ahead.now) w.instr.now w.dropped)) }
    ensures later { IfOk result (λ end. IfSome end (λ w. start ≤ w.instr.now.at)) }
    ensures ends { IfOk result (λ end. IfSome end (λ w. ends_stretch w.instr.now.op ≡ true)) }
    ensures short { IfOk result (λ end. IfSome end (λ w. IsOfShortCode w.instr.now)) }
{
    let mut at = start;
    while let Some(working) = find_working(instrs, ahead, at) {
        if ends_stretch(&working.instr.op) {
            return Ok(Some(working));
        }
        let Some(later) = step(alloc, working.instr, stack)? else {
            return Ok(None);
        };
        arrive(instrs, ahead, &working, later, stack)?;
        at = later;
    }
    Ok(None)
}
