//! What may be said of a method's result at all its returns.

ghost use Rattle.std.specs.Prelude.{◌≡◌, IfOk};
ghost use Rattle.cil_model.specs.Nodes.{term_of};
ghost use Rattle.cil_model.specs.Terms as terms;
ghost use Rattle.cil_model.specs.declared.instruction.BinOp.TheVariants as operators;
ghost use Rattle.ensures_infer.specs.Inferred as rule;

use cil_model::{BinOp, Clause, ClauseKind, Node, Tree};
use domain_api::NoMemory;
use std::alloc::Global;

/// By which number of an argument the result is compared with it.
#[derive(Clone, Copy)]
pub enum Measure {
    /// The int32 that it is.
    Value,
    /// Its length, as an array.
    Length,
}

/// What may be said of a method's result. Arguments are meant as they were at the entry, and numbered from 0.
#[derive(Clone, Copy)]
pub enum Inferred {
    /// It is this number or a greater one.
    AtLeast(i32),
    /// It is this number or a lesser one.
    AtMost(i32),
    /// It is an array, and not null.
    NotNull,
    /// It is less than this number of an argument.
    Below(Measure, u16),
    /// It is less, or equal.
    NotAbove(Measure, u16),
}

/// A tree of this root.
fn boxed(alloc: Global, node: Node) -> Result<Box<Tree>, NoMemory>
    ensures { IfOk result (λ tree. tree.value ≡ term_of node) }
{
    Ok(Box::new(alloc, Tree { node })?)
}

/// The number of an argument that the result is compared with, as a tree.
fn measured(alloc: Global, measure: Measure, i: u16) -> Result<Box<Tree>, NoMemory>
    ensures { IfOk result (λ tree. tree.value ≡ rule.measured measure i) }
{
    let argument = boxed(alloc, Node::Arg(i))?;
    match measure {
        Measure::Value => Ok(argument),
        Measure::Length => boxed(alloc, Node::Len(argument)),
    }
}

/// The tree of a comparison of the result.
fn compared(alloc: Global, op: BinOp, other: Box<Tree>) -> Result<Box<Tree>, NoMemory>
    ensures { IfOk result (λ tree. tree.value ≡ rule.compared op other.value) }
{
    let result = boxed(alloc, Node::Result)?;
    boxed(alloc, Node::Bin(op, result, other))
}

/// The tree that says that another one is false.
fn denied(alloc: Global, tree: Box<Tree>) -> Result<Box<Tree>, NoMemory>
    ensures { IfOk result (λ denied. denied.value ≡ rule.denied tree.value) }
{
    let zero = boxed(alloc, Node::Const(0))?;
    boxed(alloc, Node::Bin(BinOp::Ceq, tree, zero))
}

/// The tree that says that the result is no number below this one.
fn at_least(alloc: Global, lo: i32) -> Result<Box<Tree>, NoMemory>
    ensures { IfOk result (λ tree. tree.value ≡ rule.denied (rule.compared operators.Clt (terms.Const lo))) }
{
    let least = boxed(alloc, Node::Const(lo))?;
    denied(alloc, compared(alloc, BinOp::Clt, least)?)
}

/// The tree that says that the result is not above what this tree is.
fn not_above(alloc: Global, other: Box<Tree>) -> Result<Box<Tree>, NoMemory>
    ensures { IfOk result (λ tree. tree.value ≡ rule.denied (rule.compared operators.Cgt other.value)) }
{
    denied(alloc, compared(alloc, BinOp::Cgt, other)?)
}

impl Inferred {
    /// What may be said where this does not follow.
    pub fn weaker(self) -> Option<Inferred>
        ensures { result ≡ rule.weaker self }
    {
        match self {
            Inferred::Below(measure, i) => Some(Inferred::NotAbove(measure, i)),
            Inferred::AtLeast(_)
            | Inferred::AtMost(_)
            | Inferred::NotNull
            | Inferred::NotAbove(..) => None,
        }
    }

    /// The tree that says it.
    fn tree(self, alloc: Global) -> Result<Box<Tree>, NoMemory>
        ensures { IfOk result (λ tree. tree.value ≡ rule.tree_of self) }
    {
        match self {
            Inferred::AtLeast(lo) => at_least(alloc, lo),
            Inferred::AtMost(hi) => not_above(alloc, boxed(alloc, Node::Const(hi))?),
            Inferred::NotNull => compared(alloc, BinOp::CgtUn, boxed(alloc, Node::Null)?),
            Inferred::Below(measure, i) => {
                compared(alloc, BinOp::Clt, measured(alloc, measure, i)?)
            }
            Inferred::NotAbove(measure, i) => not_above(alloc, measured(alloc, measure, i)?),
        }
    }

    /// The Ensures that says it.
    pub fn clause(self, alloc: Global) -> Result<Clause, NoMemory>
        ensures { IfOk result (λ clause. clause ≡ rule.clause_of self) }
    {
        Ok(Clause {
            kind: ClauseKind::Ensures,
            tree: Box::into_inner(self.tree(alloc)?),
        })
    }
}
