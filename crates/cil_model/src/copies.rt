//! Copies of trees and of clauses.

ghost use Rattle.std.specs.Prelude.{◌≡◌, IfOk};
ghost use Rattle.std.specs.List.{AllByRecursion};
ghost use Rattle.cil_model.specs.TermCodes.{preorder};
ghost use Rattle.cil_model.specs.Terms as terms;
ghost use Rattle.cil_model.specs.TreeRoots.{alone, over_one, over_two};
ghost use Rattle.cil_model.specs.WellFormed.{HasInts, IsIntRoot};

use crate::clause::Clause;
use crate::tree::{Node, Tree};
use cc_base::NoMemory;
use std::alloc::Global;

/// A tree of this root over one tree. Of another root it is that tree.
fn over_one(alloc: Global, root: &Tree, a: Box<Tree>) -> Result<Box<Tree>, NoMemory>
    ensures { IfOk result (λ tree. tree.value ≡ over_one root.now a.value) }
{
    let node = match root.node {
        Node::Len(_) => Node::Len(a),
        Node::Un(operator, _) => Node::Un(operator, a),
        Node::Old(_) => Node::Old(a),
        _ => return Ok(a),
    };
    Ok(Box::new(alloc, Tree { node })?)
}

/// A tree of this root over two trees. Of another root it is the first one.
fn over_two(alloc: Global, root: &Tree, a: Box<Tree>, b: Box<Tree>) -> Result<Box<Tree>, NoMemory>
    ensures { IfOk result (λ tree. tree.value ≡ over_two root.now a.value b.value) }
{
    let node = match root.node {
        Node::Elem(place, _, _) => Node::Elem(place, a, b),
        Node::Bin(operator, _, _) => Node::Bin(operator, a, b),
        _ => return Ok(a),
    };
    Ok(Box::new(alloc, Tree { node })?)
}

fn over_three(
    alloc: Global,
    a: Box<Tree>,
    b: Box<Tree>,
    c: Box<Tree>,
) -> Result<Box<Tree>, NoMemory>
    ensures { IfOk result (λ tree. tree.value ≡ terms.Cond a.value b.value c.value) }
{
    let node = Node::Cond(a, b, c);
    Ok(Box::new(alloc, Tree { node })?)
}

/// A tree of one node, as this one is. Of a tree of more nodes it is the null constant.
fn alone(alloc: Global, root: &Tree) -> Result<Box<Tree>, NoMemory>
    ensures value { IfOk result (λ tree. tree.value ≡ alone root.now) }
    ensures ints { IfOk result (λ tree. AllByRecursion IsIntRoot (preorder tree.value)) }
{
    let node = match root.node {
        Node::Const(n) => Node::Const(n),
        Node::Arg(n) => Node::Arg(n),
        Node::Result => Node::Result,
        _ => Node::Null,
    };
    Ok(Box::new(alloc, Tree { node })?)
}

/// A copy of a tree in memory of its own.
///
/// It calls itself as deep as the tree is, and a tree on the stack may be as deep as `MAX_NODES`. So its frame is kept
/// small.
#[tactic(auto, using(crate::proofs::TreeInts::ints_behind))]
fn copied(alloc: Global, tree: &Tree) -> Result<Box<Tree>, NoMemory>
    ensures value { IfOk result (λ copy. copy.value ≡ tree.now) }
    // Its constants are int32, as those of each tree in memory are.
    ensures ints { IfOk result (λ _. AllByRecursion IsIntRoot (preorder tree.now)) }
{
    match &tree.node {
        Node::Len(a) | Node::Un(_, a) | Node::Old(a) => over_one(alloc, tree, copied(alloc, a)?),
        Node::Elem(_, a, b) | Node::Bin(_, a, b) => {
            over_two(alloc, tree, copied(alloc, a)?, copied(alloc, b)?)
        }
        Node::Cond(a, b, c) => {
            over_three(
                alloc,
                copied(alloc, a)?,
                copied(alloc, b)?,
                copied(alloc, c)?,
            )
        }
        _ => alone(alloc, tree),
    }
}

impl Tree {
    /// A copy in memory of its own.
    ///
    /// Cost: linear in the nodes; each tree below takes one piece of memory.
    pub fn copy(&self, alloc: Global) -> Result<Tree, NoMemory>
        ensures value { IfOk result (λ copy. copy ≡ self.now) }
        // Its constants are int32, as those of each tree in memory are.
        ensures ints { IfOk result (λ _. AllByRecursion IsIntRoot (preorder self.now)) }
    {
        Ok(Box::into_inner(copied(alloc, self)?))
    }
}

impl Clause {
    /// A copy in memory of its own.
    ///
    /// Cost: that of copying the tree.
    pub fn copy(&self, alloc: Global) -> Result<Clause, NoMemory>
        ensures value { IfOk result (λ copy. copy ≡ self.now) }
        ensures ints { IfOk result HasInts }
    {
        Ok(Clause {
            kind: self.kind,
            tree: self.tree.copy(alloc)?,
        })
    }
}

/// Copies of clauses, in order.
///
/// Cost: that of copying their trees.
#[tactic(auto, using(crate::proofs::TreeInts::one_more))]
pub fn copy_clauses(alloc: Global, clauses: &[Clause]) -> Result<Vec<Clause>, NoMemory>
    ensures value { IfOk result (λ copies. copies.items ≡ clauses.now) }
    // Their constants are int32.
    ensures ints { IfOk result (λ copies. AllByRecursion HasInts copies.items) }
{
    let mut copies = Vec::with_capacity(alloc, clauses.len())?;
    for clause in clauses {
        copies.push(clause.copy(alloc)?)?;
    }
    Ok(copies)
}
