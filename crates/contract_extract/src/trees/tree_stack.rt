//! The stack that the code of a clause has: trees in place of values.

ghost use Rattle.std.specs.Prelude.{◌≡◌, ◌∷◌, Some, None, IfOk, OnOk};
ghost use Rattle.cil_model.specs.Nodes.{term_of};
ghost use Rattle.cil_model.specs.Terms as terms;
ghost use Rattle.contract_extract.specs.TreeStacks.{kept, left_if, over_one, over_two, pair_root, single_root, slots_behind, slots_called, under_tree};
ghost use Rattle.contract_extract.specs.declared.trees.tree_stack.Slot.TheVariants as slots;

use cil_model::{BinOp, MAX_NODES, Node, Op, Place, Tree, UnOp, UnitCall, unit_call};
use std::alloc::{AllocError, Global};
use std::collections::VecDeque;

/// A tree and how many nodes it has.
#[derive(Drop)]
pub(crate) struct Counted {
    pub(crate) tree: Tree,
    pub(crate) nodes: u16,
}

/// What stands on the stack of a clause's code.
#[derive(Drop)]
pub(crate) enum Slot {
    /// A tree of more nodes than a clause may have is not kept: copying a tree and dropping it go as deep as it is.
    Tree(Option<Counted>),
    /// The message of the call that closes the clause.
    Message,
}

/// The top comes first.
pub(crate) type TreeStack = VecDeque<Slot>;

/// The tree with its count, if it is kept.
fn kept(node: Node, nodes: usize) -> Option<Counted>
    ensures { result ≡ kept (term_of node) nodes }
{
    if MAX_NODES < nodes {
        return None;
    }
    Some(Counted {
        tree: Tree { node },
        nodes: nodes as u16,
    })
}

fn push(stack: &mut TreeStack, node: Node, nodes: usize) -> Result<(), AllocError>
    ensures { OnOk result (stack.new.items ≡ slots.Tree (kept (term_of node) nodes) ∷ stack.old.items) }
{
    stack.push_front(Slot::Tree(kept(node, nodes)))?;
    Ok(())
}

/// Puts a tree that is not kept on the stack.
fn push_large(stack: &mut TreeStack) -> Result<bool, AllocError>
    ensures { IfOk result (λ fits. left_if fits stack.new.items ≡ Some (slots.Tree None ∷ stack.old.items)) }
{
    stack.push_front(Slot::Tree(None))?;
    Ok(true)
}

/// What stands over one tree.
#[derive(Clone, Copy)]
pub(crate) enum Single {
    /// The length of an array.
    Length,
    /// An operator of one number.
    Operator(UnOp),
    /// The value that the tree had at entry.
    Old,
}

/// What stands over two trees.
#[derive(Clone, Copy)]
pub(crate) enum Pair {
    /// An operator of two numbers.
    Operator(BinOp),
    /// The element of an array of this place, at an index.
    Element(Place),
}

fn node_over(root: Single, a: Box<Tree>) -> Node
    ensures { term_of result ≡ single_root root a.value }
{
    match root {
        Single::Length => Node::Len(a),
        Single::Operator(operator) => Node::Un(operator, a),
        Single::Old => Node::Old(a),
    }
}

fn node_over_both(root: Pair, a: Box<Tree>, b: Box<Tree>) -> Node
    ensures { term_of result ≡ pair_root root a.value b.value }
{
    match root {
        Pair::Operator(operator) => Node::Bin(operator, a, b),
        Pair::Element(place) => Node::Elem(place, a, b),
    }
}

/// Puts a tree of this root over the top in its place, and says whether there is a tree for it.
fn take_one(alloc: Global, root: Single, stack: &mut TreeStack) -> Result<bool, AllocError>
    ensures { IfOk result (λ fits. left_if fits stack.new.items ≡ over_one (single_root root) stack.old.items) }
{
    let Some(Slot::Tree(a)) = stack.pop_front() else {
        return Ok(false);
    };
    let Some(a) = a else {
        return push_large(stack);
    };
    let nodes = a.nodes as usize + 1;
    push(stack, node_over(root, Box::new(alloc, a.tree)?), nodes)?;
    Ok(true)
}

/// The same over the two at the top. The second one is the top.
pub(crate) fn take_two(alloc: Global, root: Pair, stack: &mut TreeStack) -> Result<bool, AllocError>
    ensures { IfOk result (λ fits. left_if fits stack.new.items ≡ over_two (pair_root root) stack.old.items) }
{
    let Some(Slot::Tree(b)) = stack.pop_front() else {
        return Ok(false);
    };
    let Some(Slot::Tree(a)) = stack.pop_front() else {
        return Ok(false);
    };
    let Some(b) = b else {
        return push_large(stack);
    };
    let Some(a) = a else {
        return push_large(stack);
    };
    let nodes = a.nodes as usize + b.nodes as usize + 1;
    let node = node_over_both(root, Box::new(alloc, a.tree)?, Box::new(alloc, b.tree)?);
    push(stack, node, nodes)?;
    Ok(true)
}

/// Returns what a call inside a clause makes of the stack.
fn take_call(
    alloc: Global,
    call: Option<UnitCall>,
    stack: &mut TreeStack,
) -> Result<bool, AllocError>
    ensures { IfOk result (λ fits. left_if fits stack.new.items ≡ slots_called call stack.old.items) }
{
    match call {
        Some(UnitCall::Result(_)) => {
            push(stack, Node::Result, 1)?;
            Ok(true)
        }
        Some(UnitCall::OldValue(_)) => take_one(alloc, Single::Old, stack),
        _ => Ok(false),
    }
}

/// Returns whether a tree is the top.
fn has_tree(stack: &TreeStack) -> bool
    ensures { left_if result stack.now.items ≡ under_tree stack.now.items }
{
    matches!(stack.front(), Some(Slot::Tree(_)))
}

/// Makes the stack before an operation that is no branch the one after it, and says whether the code of a clause may
/// have the operation there.
pub(crate) fn apply(alloc: Global, op: &Op, stack: &mut TreeStack) -> Result<bool, AllocError>
    ensures { IfOk result (λ fits. left_if fits stack.new.items ≡ slots_behind op.now stack.old.items) }
{
    match op {
        Op::Nop => {}
        Op::LoadArg(n) => push(stack, Node::Arg(*n), 1)?,
        Op::Null => push(stack, Node::Null, 1)?,
        Op::Const(n) => push(stack, Node::Const(*n), 1)?,
        Op::Text(_) => stack.push_front(Slot::Message)?,
        Op::Bin(operator) => return take_two(alloc, Pair::Operator(*operator), stack),
        Op::Neg => return take_one(alloc, Single::Operator(UnOp::Neg), stack),
        Op::Not => return take_one(alloc, Single::Operator(UnOp::Not), stack),
        Op::ConvI4 => return Ok(has_tree(stack)),
        Op::Length => return take_one(alloc, Single::Length, stack),
        Op::LoadElem(place) => return take_two(alloc, Pair::Element(*place), stack),
        Op::Call(number) => return take_call(alloc, unit_call(*number), stack),
        _ => return Ok(false),
    }
    Ok(true)
}

fn copied_counted(alloc: Global, a: &Counted) -> Result<Counted, AllocError>
    ensures { IfOk result (λ copy. copy ≡ a.now) }
{
    Ok(Counted {
        tree: a.tree.copy(alloc)?,
        nodes: a.nodes,
    })
}

fn copied_slot(alloc: Global, slot: &Slot) -> Result<Slot, AllocError>
    ensures { IfOk result (λ copy. copy ≡ slot.now) }
{
    match slot {
        Slot::Tree(Some(a)) => Ok(Slot::Tree(Some(copied_counted(alloc, a)?))),
        Slot::Tree(None) => Ok(Slot::Tree(None)),
        Slot::Message => Ok(Slot::Message),
    }
}

/// A copy of a stack in memory of its own.
pub(crate) fn copied(alloc: Global, stack: &TreeStack) -> Result<TreeStack, AllocError>
    ensures { IfOk result (λ copy. copy.items ≡ stack.now.items) }
{
    let mut copy = VecDeque::new(alloc);
    for slot in stack.iter() {
        copy.push_back(copied_slot(alloc, slot)?)?;
    }
    Ok(copy)
}
