//! Trees, made of their roots.

ghost use Rattle.std.specs.Prelude.{◌≡◌, ◌<◌, ◌≤◌, ◌++◌, ◌∷◌, [], length, map, reverse, IfOk, OnOk};
ghost use Rattle.cil_model.specs.TermCodes.{rooted, terms_of, first_term};
ghost use Rattle.unit_form.specs.Roots.{told};
ghost use Rattle.unit_form.specs.TreeFields.{arity, tree_of_roots};
ghost use Rattle.cil_model.specs.Nodes.{term_of};

use crate::root::Root;
use cil_model::{Node, Tree};
use std::alloc::{AllocError, Global};

/// The last of these trees, taken from them.
fn take_last(alloc: Global, trees: &mut Vec<Tree>) -> Result<Box<Tree>, AllocError>
    requires some { 0 < length trees.old.items }
    ensures { IfOk result (λ tree. trees.old.items ≡ trees.new.items ++ tree.value ∷ []) }
{
    match trees.pop() {
        Some(tree) => Ok(Box::new(alloc, tree)?),
        None => Ok(Box::new(alloc, Tree { node: Node::Null })?),
    }
}

#[tactic(auto, using(crate::proofs::Taking::last_first, crate::proofs::Taking::one_fewer))]
/// The node of a root over the last of these trees, which are taken. The first of them was made last.
fn node_over(alloc: Global, trees: &mut Vec<Tree>, root: Root) -> Result<Node, AllocError>
    requires enough { arity (told root) ≤ length trees.old.items }
    ensures { IfOk result (λ node. rooted (told root) (reverse trees.old.items) ≡ term_of node ∷ reverse trees.new.items) }
{
    let node = match root {
        Root::Const(n) => Node::Const(n),
        Root::Arg(n) => Node::Arg(n),
        Root::Null => Node::Null,
        Root::Result => Node::Result,
        Root::Len => Node::Len(take_last(alloc, trees)?),
        Root::Elem(place) => {
            let array = take_last(alloc, trees)?;
            Node::Elem(place, array, take_last(alloc, trees)?)
        }
        Root::Bin(operator) => {
            let a = take_last(alloc, trees)?;
            Node::Bin(operator, a, take_last(alloc, trees)?)
        }
        Root::Un(operator) => Node::Un(operator, take_last(alloc, trees)?),
        Root::Old => Node::Old(take_last(alloc, trees)?),
        Root::Cond => {
            let test = take_last(alloc, trees)?;
            let a = take_last(alloc, trees)?;
            Node::Cond(test, a, take_last(alloc, trees)?)
        }
    };
    Ok(node)
}

/// Puts a root over the last of these trees, where there are as many as stand below it.
#[tactic(auto, using(crate::proofs::Taking::too_few, crate::proofs::Taking::put_last))]
fn put_root(alloc: Global, trees: &mut Vec<Tree>, root: Root) -> Result<(), AllocError>
    ensures { OnOk result (reverse trees.new.items ≡ rooted (told root) (reverse trees.old.items)) }
{
    if trees.len() < root.arity() {
        return Ok(());
    }
    let node = node_over(alloc, trees, root)?;
    trees.push(Tree { node })?;
    Ok(())
}

/// The tree of these roots, which stand in preorder.
#[tactic(auto, using(crate::proofs::Taking::onto_start, crate::proofs::Taking::onto_step, crate::proofs::Taking::onto_end, crate::proofs::Taking::onto_nothing))]
pub fn tree_of_roots(alloc: Global, roots: &[Root]) -> Result<Tree, AllocError>
    ensures { IfOk result (λ tree. tree ≡ tree_of_roots (map told roots.now)) }
{
    let mut trees = Vec::new(alloc);
    let mut left = roots.len();
    while left > 0 {
        left -= 1;
        put_root(alloc, &mut trees, roots[left])?;
    }
    match trees.pop() {
        Some(tree) => Ok(tree),
        None => Ok(Tree { node: Node::Null }),
    }
}
