//! What lies ahead of the instructions of a clause's code: where the next part of its tree is made, and which values of
//! the stack are dropped on each way. It is found once, from the last instruction to the first.

ghost use Rattle.std.specs.Prelude.{◌≡◌, ◌+◌, ◌<◌, ℕ, List, None, Some, IfOk, IfSome, length, map, slice_get};
ghost use Rattle.cil_model.specs.ClauseTrees.{closing};
ghost use Rattle.cil_model.specs.Runs.{instr_at};
ghost use Rattle.cil_model.specs.declared.instruction.Instr.{Instr};
ghost use Rattle.cil_model.specs.ShortCode.{AreOfShortCode, IsOfShortCode};
ghost use Rattle.contract_extract.specs.Dropping.{AreAhead, IsAheadOf, LiesAhead, ahead_at, own_ahead};
ghost use Rattle.contract_extract.specs.Growth.{idle_to, jump_of};
ghost use Rattle.contract_extract.specs.declared.trees.ahead.Ahead.{Ahead};

use crate::trees::dropped::{Dropped, NOTHING, below, both, makes, takes};
use crate::trees::stretch::{closing_message, jump, later_than};
use cil_model::{Instr, Op, Test, index_of};
use std::alloc::{AllocError, Global};

/// What lies ahead of an instruction.
#[derive(Clone, Copy)]
pub(crate) struct Ahead {
    /// The IL offset of the first instruction, from it on, that makes a part of the tree or ends a way.
    pub(crate) works_at: u32,
    /// What is dropped of the stacks that come to it.
    pub(crate) dropped: Dropped,
}

/// Returns what is known of an instruction by itself: that it works, and that a closing call drops its message.
fn own_ahead(instr: &Instr) -> Ahead
    ensures { result ≡ own_ahead instr.now }
{
    let dropped = match closing_message(&instr.op) {
        Some(true) => Dropped { above: 0, count: 1 },
        _ => NOTHING,
    };
    Ahead {
        works_at: instr.at,
        dropped,
    }
}

/// Returns what lies ahead of a later IL offset, where an instruction begins there.
#[tactic(auto, using(crate::proofs::TreeLemmas::Rising::short_rise))]
fn ahead_at(instrs: &[Instr], ahead: &[Ahead], at: u32, later: u32) -> Option<Ahead>
    requires lie { AreOfShortCode instrs.now }
    requires long { length ahead.now ≡ length instrs.now }
    ensures later { IfSome result (λ _. at < later) }
    ensures found { IfSome result (IsAheadOf instrs.now ahead.now later) }
{
    let later = later_than(at, later)?;
    let index = index_of(instrs, later)?;
    Some(ahead[index])
}

/// Where the way goes on after an instruction that makes no part of a tree.
fn idle_to(instr: &Instr) -> Option<u32>
    requires { IsOfShortCode instr.now }
    ensures { result ≡ idle_to instr.now.op (instr.now.at + instr.now.size) }
{
    match instr.op {
        Op::Nop | Op::ConvI4 => Some(instr.at + instr.size),
        Op::Branch(Test::Always, target) => Some(target),
        _ => None,
    }
}

/// Returns what lies ahead of an instruction that makes a value, from what lies ahead of the next one.
#[tactic(auto, using(crate::proofs::TreeLemmas::Looking::own_lies))]
fn before_value(instr: &Instr, next: Ahead) -> Ahead
    requires short { IsOfShortCode instr.now }
    requires inside { closing instr.now.op ≡ None }
    requires straight { jump_of instr.now.op ≡ None }
    ensures { (is : List Instr) (ahead : List Ahead) → AreOfShortCode is → AreAhead is ahead → instr_at is instr.now.at ≡ Some instr.now
        → IsAheadOf is ahead (instr.now.at + instr.now.size) next → LiesAhead is (ahead_at is ahead) instr.now result }
{
    let made = makes(&instr.op);
    let Dropped { above, count } = next.dropped;
    if above >= made {
        let rest = Dropped {
            above: above - made,
            count,
        };
        return Ahead {
            works_at: instr.at,
            dropped: below(rest, takes(&instr.op)),
        };
    }
    if count == 0 {
        return own_ahead(instr);
    }
    // Its value is the first that is dropped, and so are those that it takes.
    match (count - 1).checked_add(takes(&instr.op)) {
        Some(count) => Ahead {
            works_at: next.works_at,
            dropped: Dropped { above: 0, count },
        },
        None => own_ahead(instr),
    }
}

/// Returns what lies ahead of a branch that goes two ways, from what lies ahead on both.
fn before_branch(instr: &Instr, target: Ahead, next: Ahead) -> Ahead
    requires short { IsOfShortCode instr.now }
    ensures { (is : List Instr) (ahead : List Ahead) (to : ℕ) → AreOfShortCode is → AreAhead is ahead → jump_of instr.now.op ≡ Some to
        → IsAheadOf is ahead to target → IsAheadOf is ahead (instr.now.at + instr.now.size) next → LiesAhead is (ahead_at is ahead) instr.now result }
{
    Ahead {
        works_at: instr.at,
        dropped: below(both(target.dropped, next.dropped), takes(&instr.op)),
    }
}

/// Returns what lies ahead of an instruction that does not close the clause.
#[tactic(auto, using(crate::proofs::TreeLemmas::Looking::own_lies))]
fn before_next(instrs: &[Instr], ahead: &[Ahead], instr: &Instr) -> Ahead
    requires lie { AreOfShortCode instrs.now }
    requires ahead { AreAhead instrs.now ahead.now }
    requires short { IsOfShortCode instr.now }
    requires there { instr_at instrs.now instr.now.at ≡ Some instr.now }
    requires inside { closing instr.now.op ≡ None }
    ensures { LiesAhead instrs.now (ahead_at instrs.now ahead.now) instr.now result }
{
    let Some(next) = ahead_at(instrs, ahead, instr.at, instr.at + instr.size) else {
        return own_ahead(instr);
    };
    let Some(target) = jump(&instr.op) else {
        return before_value(instr, next);
    };
    match ahead_at(instrs, ahead, instr.at, target) {
        Some(target) => before_branch(instr, target, next),
        None => own_ahead(instr),
    }
}

/// Returns what lies ahead of the instruction of this index, from what lies ahead of the later ones.
#[tactic(auto, using(crate::proofs::TreeLemmas::Looking::own_lies))]
fn ahead_of(instrs: &[Instr], ahead: &[Ahead], index: usize) -> Ahead
    requires lie { AreOfShortCode instrs.now }
    requires ahead { AreAhead instrs.now ahead.now }
    requires within { index < length instrs.now }
    ensures { (i : Instr) → slice_get instrs.now index ≡ Some i → LiesAhead instrs.now (ahead_at instrs.now ahead.now) i result }
{
    let instr = &instrs[index];
    if closing_message(&instr.op).is_some() {
        return own_ahead(instr);
    }
    let Some(to) = idle_to(instr) else {
        return before_next(instrs, ahead, instr);
    };
    // The way goes on there with the same stack.
    match ahead_at(instrs, ahead, instr.at, to) {
        Some(there) => there,
        None => own_ahead(instr),
    }
}

/// Returns what is known of each instruction by itself.
fn all_own(alloc: Global, instrs: &[Instr]) -> Result<Vec<Ahead>, AllocError>
    ensures { IfOk result (λ ahead. ahead.items ≡ map own_ahead instrs.now) }
{
    instrs.iter().map(own_ahead).collect(alloc)
}

/// For each instruction what lies ahead of it. Its time is n log n in the number of instructions.
pub(crate) fn look_ahead(alloc: Global, instrs: &[Instr]) -> Result<Vec<Ahead>, AllocError>
    requires { AreOfShortCode instrs.now }
    ensures { IfOk result (λ ahead. AreAhead instrs.now ahead.items) }
{
    let mut ahead = all_own(alloc, instrs)?;
    let mut index = instrs.len();
    while index > 0 {
        index -= 1;
        let here = ahead_of(instrs, &ahead, index);
        ahead[index] = here;
    }
    Ok(ahead)
}
