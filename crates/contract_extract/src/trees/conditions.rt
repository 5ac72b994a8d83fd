//! The conditions of branches.

ghost use Rattle.std.specs.Prelude.{◌≡◌, true, Some, IfOk, MatchOption, option_map};
ghost use Rattle.cil_model.specs.ClauseTrees.{branch_operator};
ghost use Rattle.cil_model.specs.declared.instruction.Test.TheVariants as tests;
ghost use Rattle.contract_extract.specs.Growth.{forked, is_full, IsLeft};
ghost use Rattle.contract_extract.specs.TreeStacks.{slots_tested, top_tested};

use crate::trees::limits::Limits;
use crate::trees::tree_counts::room_beside;
use crate::trees::tree_stack::{Pair, Slot, TreeStack, take_two};
use cil_model::{BinOp, CmpOp, Node, Test, Tree};
use std::alloc::{AllocError, Global};

/// What a branch tests.
#[derive(Drop)]
pub(crate) struct Condition {
    pub(crate) tree: Tree,
    /// True where the branch goes where the tree is not true.
    pub(crate) turned: bool,
}

/// The operator of a comparing branch, and whether the branch goes where the operator is not true.
fn branch_operator(op: CmpOp) -> (BinOp, bool)
    ensures operator { result.0 ≡ (branch_operator op).0 }
    ensures turned { result.1 ≡ (branch_operator op).1 }
{
    match op {
        CmpOp::Eq => (BinOp::Ceq, false),
        CmpOp::Ge => (BinOp::Clt, true),
        CmpOp::Gt => (BinOp::Cgt, false),
        CmpOp::Le => (BinOp::Cgt, true),
        CmpOp::Lt => (BinOp::Clt, false),
        CmpOp::NeUn => (BinOp::Ceq, true),
        CmpOp::GeUn => (BinOp::CltUn, true),
        CmpOp::GtUn => (BinOp::CgtUn, false),
        CmpOp::LeUn => (BinOp::CgtUn, true),
        CmpOp::LtUn => (BinOp::CltUn, false),
    }
}

/// Takes the tree that a branch tests, if it is there and kept.
fn take_tree(stack: &mut TreeStack, turned: bool) -> Option<Condition>
    ensures { option_map (λ condition. (condition, stack.new.items)) result ≡ top_tested turned stack.old.items }
{
    match stack.pop_front() {
        Some(Slot::Tree(Some(a))) => Some(Condition {
            tree: a.tree,
            turned,
        }),
        _ => None,
    }
}

/// Takes the comparison of the two trees that a branch compares, if they are there and it is kept.
fn take_comparison(
    alloc: Global,
    op: CmpOp,
    stack: &mut TreeStack,
) -> Result<Option<Condition>, AllocError>
    ensures { IfOk result (λ taken. option_map (λ condition. (condition, stack.new.items)) taken ≡ slots_tested (tests.Cmp op) stack.old.items) }
{
    let (operator, turned) = branch_operator(op);
    if !take_two(alloc, Pair::Operator(operator), stack)? {
        return Ok(None);
    }
    Ok(take_tree(stack, turned))
}

/// Takes the condition of a branch that goes two ways, if its operands are there and it is kept.
pub(crate) fn take_condition(
    alloc: Global,
    test: Test,
    stack: &mut TreeStack,
) -> Result<Option<Condition>, AllocError>
    ensures { IfOk result (λ taken. option_map (λ condition. (condition, stack.new.items)) taken ≡ slots_tested test stack.old.items) }
{
    match test {
        Test::Always => Ok(None),
        Test::True => Ok(take_tree(stack, false)),
        Test::False => Ok(take_tree(stack, true)),
        Test::Cmp(op) => take_comparison(alloc, op, stack),
    }
}

impl Condition {
    /// Returns what limits leave for the trees on both sides of the condition, if anything.
    pub(crate) fn leaves(&self, limits: Limits) -> Option<Limits>
        ensures { MatchOption result (is_full self.now limits ≡ true) (IsLeft self.now limits) }
    {
        if limits.conditions == 0 || limits.nodes == 0 {
            return None;
        }
        let nodes = room_beside(&self.tree, limits.nodes - 1)?;
        Some(Limits {
            conditions: limits.conditions - 1,
            nodes,
        })
    }

    /// The tree over the trees from the branch's target and from the next instruction.
    pub(crate) fn over(self, alloc: Global, target: Tree, next: Tree) -> Result<Tree, AllocError>
        ensures { IfOk result (λ tree. forked self (Some target) (Some next) ≡ Some tree) }
    {
        let test = Box::new(alloc, self.tree)?;
        let target = Box::new(alloc, target)?;
        let next = Box::new(alloc, next)?;
        let node = if self.turned {
            Node::Cond(test, next, target)
        } else {
            Node::Cond(test, target, next)
        };
        Ok(Tree { node })
    }
}
