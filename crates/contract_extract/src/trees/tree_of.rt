//! The tree of a clause's code, within the limits of a clause.

ghost use Rattle.std.specs.Prelude.{◌≡◌, ◌+◌, ◌≤◌, false, List, Some, None, IfOk, IfSome};
ghost use Rattle.cil_model.specs.ClauseTrees.{Item, closed_tree, closing, tree_of};
ghost use Rattle.cil_model.specs.Terms.{condition_depth};
ghost use Rattle.cil_model.specs.ShortCode.{AreOfShortCode, IsOfShortCode};
ghost use Rattle.contract_extract.specs.Dropping.{AreAhead, Works, ahead_at, behind, dropped_at, without};
ghost use Rattle.contract_extract.specs.Growth.{Grows, forked, forward, jump_of, onward};
ghost use Rattle.contract_extract.specs.TreeStacks.{StandsFor, closed_slot};

use crate::trees::ahead::{Ahead, look_ahead};
use crate::trees::conditions::{Condition, take_condition};
use crate::trees::limits::{Grown, Limits};
use crate::trees::stretch::{Working, arrive, closing_message, run};
use crate::trees::tree_stack::{Counted, Slot, TreeStack, copied};
use cil_model::{Instr, Op};
use std::alloc::{AllocError, Global};
use std::collections::VecDeque;

/// The tree that a closing call finds, if it is kept: it stands there alone, since a message is dropped before.
fn closed_tree(mut stack: TreeStack) -> Option<Counted>
    ensures { result ≡ closed_slot stack.items }
{
    let Some(Slot::Tree(closed)) = stack.pop_front() else {
        return None;
    };
    if stack.is_empty() { closed } else { None }
}

/// The same within limits.
#[tactic(auto, using(crate::proofs::TreeLemmas::StackLemmas::no_leaf, crate::proofs::TreeLemmas::StackLemmas::large_leaf))]
fn leaf(stack: TreeStack, limits: Limits) -> Option<Grown>
    ensures tree { (items : List Item) → StandsFor stack.items items → Grows limits (closed_tree false items) result }
    ensures room { IfSome result (λ grown. grown.nodes_left ≤ limits.nodes) }
{
    let closed = closed_tree(stack)?;
    let nodes = closed.nodes as usize;
    if limits.nodes < nodes {
        return None;
    }
    Some(Grown {
        tree: closed.tree,
        nodes_left: limits.nodes - nodes,
    })
}

/// The tree over a condition of a branch, within limits.
#[cycle(growth)]
#[tactic(auto, using(crate::proofs::TreeLemmas::Growing::full_passes, crate::proofs::TreeLemmas::Growing::target_passes, crate::proofs::TreeLemmas::Growing::next_passes, crate::proofs::TreeLemmas::Growing::both_grown, crate::proofs::TreeLemmas::Growing::onward_later, crate::proofs::TreeLemmas::Growing::onward_none, crate::proofs::TreeLemmas::Growing::no_target))]
fn fork(
    alloc: Global,
    instrs: &[Instr],
    ahead: &[Ahead],
    branch: &Working,
    target: u32,
    test: Condition,
    mut stack: TreeStack,
    limits: Limits,
) -> Result<Option<Grown>, AllocError>
    requires lie { AreOfShortCode instrs.now }
    requires ahead { AreAhead instrs.now ahead.now }
    requires short { IsOfShortCode branch.now.instr.now }
    requires inside { closing branch.now.instr.now.op ≡ None }
    requires jump { jump_of branch.now.instr.now.op ≡ Some target }
    requires works { Works (ahead_at instrs.now ahead.now) branch.now.instr.now branch.now.dropped }
    ensures tree { let from = onward (forward instrs.now) branch.now.instr.now.at in
        (items : List Item) → StandsFor stack.items (without (behind branch.now.instr.now.op branch.now.dropped) items) → condition_depth test.tree ≡ 0
        → IfOk result (Grows limits (forked test (from target items) (from (branch.now.instr.now.at + branch.now.instr.now.size) items))) }
    ensures room { IfOk result (λ grown. IfSome grown (λ g. g.nodes_left ≤ limits.nodes)) }
{
    let at = branch.instr.at;
    let next = at + branch.instr.size;
    if target <= at {
        return Ok(None);
    }
    let Some(left) = test.leaves(limits) else {
        return Ok(None);
    };
    let mut copy = copied(alloc, &stack)?;
    arrive(instrs, ahead, branch, target, &mut copy)?;
    let Some(taken) = grow(alloc, instrs, ahead, target, copy, left)? else {
        return Ok(None);
    };
    let left = Limits {
        conditions: left.conditions,
        nodes: taken.nodes_left,
    };
    arrive(instrs, ahead, branch, next, &mut stack)?;
    let Some(passed) = grow(alloc, instrs, ahead, next, stack, left)? else {
        return Ok(None);
    };
    Ok(Some(Grown {
        tree: test.over(alloc, taken.tree, passed.tree)?,
        nodes_left: passed.nodes_left,
    }))
}

/// The tree from an IL offset on, within limits. Nothing is grown where there is no such tree.
#[cycle(growth)]
#[tactic(auto, using(crate::proofs::TreeLemmas::StackLemmas::grows_nowhere, crate::proofs::TreeLemmas::StackLemmas::grows_closed, crate::proofs::TreeLemmas::StackLemmas::grows_tested))]
fn grow(
    alloc: Global,
    instrs: &[Instr],
    ahead: &[Ahead],
    at: u32,
    mut stack: TreeStack,
    limits: Limits,
) -> Result<Option<Grown>, AllocError>
    requires lie { AreOfShortCode instrs.now }
    requires ahead { AreAhead instrs.now ahead.now }
    ensures tree { (items : List Item) → StandsFor stack.items (without (dropped_at instrs.now ahead.now at) items)
        → IfOk result (Grows limits (forward instrs.now at items)) }
    ensures room { IfOk result (λ grown. IfSome grown (λ g. g.nodes_left ≤ limits.nodes)) }
{
    let Some(end) = run(alloc, instrs, ahead, at, &mut stack)? else {
        return Ok(None);
    };
    if closing_message(&end.instr.op).is_some() {
        return Ok(leaf(stack, limits));
    }
    let Op::Branch(test, target) = &end.instr.op else {
        return Ok(None);
    };
    let Some(condition) = take_condition(alloc, *test, &mut stack)? else {
        return Ok(None);
    };
    fork(
        alloc, instrs, ahead, &end, *target, condition, stack, limits,
    )
}

/// The tree of the clause whose code begins at an IL offset, within limits. Nothing is grown where there is no such
/// tree.
pub(crate) fn grow_clause(
    alloc: Global,
    instrs: &[Instr],
    start: u32,
    limits: Limits,
) -> Result<Option<Grown>, AllocError>
    requires { AreOfShortCode instrs.now }
    ensures { IfOk result (Grows limits (tree_of instrs.now start)) }
{
    let ahead = look_ahead(alloc, instrs)?;
    let stack = VecDeque::new(alloc);
    grow(alloc, instrs, &ahead, start, stack, limits)
}
