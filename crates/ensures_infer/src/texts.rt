//! The texts of inferred clauses.

ghost use Rattle.std.specs.Prelude.{◌≡◌, ◌++◌, OnOk};
ghost use Rattle.ensures_infer.specs.Inferred.{tree_of};
ghost use Rattle.ensures_infer.specs.Texts as rule;
ghost use Rattle.ensures_infer.specs.Texts.{inferred_text, text_of};
ghost use Rattle.ensures_infer.specs.declared.inferred.Inferred.{Inferred};

use cc_base::put_number;
use cil_model::{BinOp, Clause, Node, Tree};
use domain_api::NoMemory;
use std::alloc::Global;

/// What stands between the result and what it is compared with, where the comparison is true, or is false.
fn relation_text(so: bool, op: BinOp) -> &'static [u8]
    ensures { result.now ≡ rule.relation_text so op }
{
    match (so, op) {
        (true, BinOp::Clt) => b" < ",
        (true, BinOp::CgtUn) => b" not ",
        (false, BinOp::Clt) => b" >= ",
        (false, BinOp::Cgt) => b" <= ",
        _ => b" ? ",
    }
}

/// Appends the text of an argument.
fn append_argument(alloc: Global, text: &mut Vec<u8>, tree: &Tree) -> Result<(), NoMemory>
    ensures { OnOk result (text.new.items ≡ text.old.items ++ rule.argument_text tree.now) }
{
    match &tree.node {
        Node::Arg(i) => {
            text.extend_from_slice(b"arg ")?;
            put_number(alloc, text, i64::from(*i))
        }
        _ => Ok(()),
    }
}

/// Appends the text of what the result is compared with.
fn append_operand(alloc: Global, text: &mut Vec<u8>, tree: &Tree) -> Result<(), NoMemory>
    ensures { OnOk result (text.new.items ≡ text.old.items ++ rule.operand_text tree.now) }
{
    match &tree.node {
        Node::Const(n) => put_number(alloc, text, i64::from(*n)),
        Node::Null => text.extend_from_slice(b"null"),
        Node::Len(array) => {
            text.extend_from_slice(b"length of ")?;
            append_argument(alloc, text, array)
        }
        _ => append_argument(alloc, text, tree),
    }
}

/// Appends the text of a comparison of the result that is true, or is false.
fn append_comparison(
    alloc: Global,
    text: &mut Vec<u8>,
    so: bool,
    tree: &Tree,
) -> Result<(), NoMemory>
    ensures { OnOk result (text.new.items ≡ text.old.items ++ rule.comparison_text so tree.now) }
{
    match &tree.node {
        Node::Bin(op, _, other) => {
            text.extend_from_slice(b"result")?;
            text.extend_from_slice(relation_text(so, *op))?;
            append_operand(alloc, text, other)
        }
        _ => Ok(()),
    }
}

/// Appends the text of a tree.
fn append_tree(alloc: Global, text: &mut Vec<u8>, tree: &Tree) -> Result<(), NoMemory>
    ensures { OnOk result (text.new.items ≡ text.old.items ++ rule.tree_text tree.now) }
{
    match &tree.node {
        Node::Bin(BinOp::Ceq, denied, _) => append_comparison(alloc, text, false, denied),
        _ => append_comparison(alloc, text, true, tree),
    }
}

/// Appends the text of an inferred clause, as reports have it: `result >= -9`, `result < length of arg 0`.
///
/// After want of memory a part of it may be there.
pub fn append_inferred(alloc: Global, text: &mut Vec<u8>, clause: &Clause) -> Result<(), NoMemory>
    ensures value { OnOk result (text.new.items ≡ text.old.items ++ inferred_text clause.now) }
    // Where the clause says this, it is the text of that.
    ensures said { OnOk result ((fact : Inferred) → clause.now.tree ≡ tree_of fact
        → text.new.items ≡ text.old.items ++ text_of fact) }
{
    append_tree(alloc, text, &clause.tree)
}
