//! Whether two units are equal.
//!
//! Units are compared by their spelled fields: instructions, clauses and the body's start come of these.

ghost use Rattle.std.specs.Prelude.{◌≡◌};
ghost use Rattle.std.specs.Bool.{Decides};
ghost use Rattle.method_unit.specs.Units.{IsUnit};

use cil_model::{CalleeInfo, Clause, Node, Place, Tree, Unit};

/// Returns whether two runs of bytes are equal.
fn same_bytes(a: &[u8], b: &[u8]) -> bool
    ensures same { Decides result (a.now ≡ b.now) }
{
    a == b
}

/// Returns whether two lists of places are equal.
fn same_places(a: &[Place], b: &[Place]) -> bool
    ensures same { Decides result (a.now ≡ b.now) }
{
    a == b
}

/// Returns whether two trees are equal.
fn same_tree(a: &Tree, b: &Tree) -> bool
    ensures same { Decides result (a.now ≡ b.now) }
{
    match (&a.node, &b.node) {
        (Node::Const(n), Node::Const(other)) => n == other,
        (Node::Arg(n), Node::Arg(other)) => n == other,
        (Node::Null, Node::Null) | (Node::Result, Node::Result) => true,
        (Node::Len(x), Node::Len(other)) | (Node::Old(x), Node::Old(other)) => same_tree(x, other),
        (Node::Elem(place, x, y), Node::Elem(other, its_x, its_y)) => {
            place == other && same_tree(x, its_x) && same_tree(y, its_y)
        }
        (Node::Bin(operator, x, y), Node::Bin(other, its_x, its_y)) => {
            operator == other && same_tree(x, its_x) && same_tree(y, its_y)
        }
        (Node::Un(operator, x), Node::Un(other, its_x)) => {
            operator == other && same_tree(x, its_x)
        }
        (Node::Cond(test, x, y), Node::Cond(its_test, its_x, its_y)) => {
            same_tree(test, its_test) && same_tree(x, its_x) && same_tree(y, its_y)
        }
        _ => false,
    }
}

/// Returns whether two clauses are equal.
fn same_clause(a: &Clause, b: &Clause) -> bool
    ensures same { Decides result (a.now ≡ b.now) }
{
    a.kind == b.kind && same_tree(&a.tree, &b.tree)
}

/// Returns whether two lists of clauses are equal.
#[tactic(auto, using(crate::proofs::SameLists::one_differs))]
fn same_clauses(a: &[Clause], b: &[Clause]) -> bool
    ensures same { Decides result (a.now ≡ b.now) }
{
    if a.len() != b.len() {
        return false;
    }
    for i in 0..a.len() {
        if !same_clause(&a[i], &b[i]) {
            return false;
        }
    }
    true
}

/// Returns whether two callees are equal.
fn same_callee(a: &CalleeInfo, b: &CalleeInfo) -> bool
    ensures same { Decides result (a.now ≡ b.now) }
{
    same_bytes(a.name.as_slice(), b.name.as_slice())
        && a.result == b.result
        && same_places(a.args.as_slice(), b.args.as_slice())
        && same_clauses(a.clauses.as_slice(), b.clauses.as_slice())
}

/// Returns whether two lists of callees are equal.
#[tactic(auto, using(crate::proofs::SameLists::one_differs))]
fn same_callees(a: &[CalleeInfo], b: &[CalleeInfo]) -> bool
    ensures same { Decides result (a.now ≡ b.now) }
{
    if a.len() != b.len() {
        return false;
    }
    for i in 0..a.len() {
        if !same_callee(&a[i], &b[i]) {
            return false;
        }
    }
    true
}

/// Returns whether two units are equal. Instructions and the start of the body, which the code tells, are not compared.
#[tactic(auto, using(crate::proofs::SameUnits::same_told))]
pub fn same_unit(a: &Unit, b: &Unit) -> bool
    requires a { IsUnit a.now }
    requires b { IsUnit b.now }
    ensures same { Decides result (a.now ≡ b.now) }
{
    same_bytes(a.name.as_slice(), b.name.as_slice())
        && same_bytes(a.code.as_slice(), b.code.as_slice())
        && a.max_stack == b.max_stack
        && a.result == b.result
        && same_places(a.args.as_slice(), b.args.as_slice())
        && same_places(a.locals.as_slice(), b.locals.as_slice())
        && same_callees(a.callees.as_slice(), b.callees.as_slice())
        && same_clauses(a.clauses.as_slice(), b.clauses.as_slice())
}
