//! Trees: the expressions of clauses.

use crate::instruction::{BinOp, UnOp};
use crate::place::Place;
use std::marker::Model;

/// The expression of a clause. Contracts see it as a term, whatever memory its parts stand in.
#[cycle(tree)]
#[derive(Drop)]
pub struct Tree {
    pub node: Node,
}

/// The root of a tree, with the trees below it.
#[cycle(tree)]
#[derive(Drop)]
pub enum Node {
    Const(i32),
    /// An argument's value at entry.
    Arg(u16),
    Null,
    Result,
    Len(Box<Tree>),
    /// Of an array of this place, at this index.
    Elem(Place, Box<Tree>, Box<Tree>),
    Bin(BinOp, Box<Tree>, Box<Tree>),
    Un(UnOp, Box<Tree>),
    /// The value that the tree had at entry.
    Old(Box<Tree>),
    /// The second tree where the first is true, else the third.
    Cond(Box<Tree>, Box<Tree>, Box<Tree>),
}

impl Model for Tree {
    ghost use Rattle.std.specs.Coded.{codes};
    ghost use Rattle.cil_model.specs.Terms.{Term, term_size};
    ghost use Rattle.cil_model.specs.Laws.TermsBack.{term_code};

    ghost Value = { Term };

    ghost coded = { term_code (Prim.hlevel codes) };

    ghost use Rattle.cil_model.specs.Nodes.{term_of};

    ghost view = { λ tree. term_of tree.node };

    ghost size = { term_size };

    ghost use Rattle.std.proofs.Common.{arith};

    ghost size_decreases = { λ tree h. Prim.grind arith };
}
