//! The kinds of clauses' trees, and their sizes.

ghost use Rattle.std.specs.Prelude.{◌≡◌, ◌<◌, ◌^◌};
ghost use Rattle.cil_model.specs.Comparisons.{comparison_of};
ghost use Rattle.cil_model.specs.Terms.{condition_depth, old_count, term_size};
ghost use Rattle.cil_model.specs.TreeKinds.{branch_kind, element_kind, kind_in, length_kind, number_if, operator_kind, unary_kind};

use crate::instruction::BinOp;
use crate::kind_rules::{
    comparison_of, is_array_of, is_reference, is_tested, kind_of, merged_kind, pushes_comparison,
};
use crate::place::{Kind, Place};
use crate::tree::{Node, Tree};

/// A number, where the test holds.
fn number_if(test: bool) -> Option<Kind>
    ensures { result ≡ number_if test }
{
    if test { Some(Kind::Int) } else { None }
}

/// The kind of the length of a tree of this kind.
pub fn length_kind(array: Option<Kind>) -> Option<Kind>
    ensures { result ≡ length_kind array }
{
    number_if(is_reference(array?))
}

/// The kind of an element of an array of this place, by the kinds of the array and of the index.
pub fn element_kind(place: Place, array: Option<Kind>, index: Option<Kind>) -> Option<Kind>
    ensures { result ≡ element_kind place array index }
{
    match (array, index) {
        (Some(array), Some(index)) => number_if(is_array_of(place, array) && index == Kind::Int),
        _ => None,
    }
}

/// The kind of what an operator makes of trees of these kinds.
pub fn operator_kind(operator: BinOp, a: Option<Kind>, b: Option<Kind>) -> Option<Kind>
    ensures { result ≡ operator_kind (comparison_of operator) a b }
{
    match (comparison_of(operator), a, b) {
        (None, Some(a), Some(b)) => number_if(a == Kind::Int && b == Kind::Int),
        (Some(op), Some(a), Some(b)) => number_if(pushes_comparison(op, a, b)),
        _ => None,
    }
}

/// The kind of what an operator makes of one tree of this kind.
pub fn unary_kind(operand: Option<Kind>) -> Option<Kind>
    ensures { result ≡ unary_kind operand }
{
    number_if(operand? == Kind::Int)
}

/// The kind of a condition, by the kinds of its test and of its branches.
pub fn branch_kind(test: Option<Kind>, a: Option<Kind>, b: Option<Kind>) -> Option<Kind>
    ensures { result ≡ branch_kind test a b }
{
    match (test, a, b) {
        (Some(test), Some(a), Some(b)) if is_tested(test) => merged_kind(a, b),
        _ => None,
    }
}

impl Tree {
    /// The kind of the tree in a clause of a method of these arguments and this result, if it has one. It says whether
    /// the tree stands in an Ensures, and there outside of each old value.
    pub fn kind(&self, args: &[Place], result_place: Place, ensured: bool) -> Option<Kind>
        ensures { result ≡ kind_in args.now result_place ensured self.now }
    {
        match &self.node {
            Node::Const(_) => Some(Kind::Int),
            Node::Arg(n) => kind_of(*args.get(usize::from(*n))?),
            Node::Null => Some(Kind::NullRef),
            Node::Result if ensured => kind_of(result_place),
            Node::Len(array) => length_kind(array.kind(args, result_place, ensured)),
            Node::Elem(place, array, index) => element_kind(
                *place,
                array.kind(args, result_place, ensured),
                index.kind(args, result_place, ensured),
            ),
            Node::Bin(operator, a, b) => operator_kind(
                *operator,
                a.kind(args, result_place, ensured),
                b.kind(args, result_place, ensured),
            ),
            Node::Un(_, operand) => unary_kind(operand.kind(args, result_place, ensured)),
            Node::Old(operand) if ensured => operand.kind(args, result_place, false),
            Node::Cond(test, a, b) => branch_kind(
                test.kind(args, result_place, ensured),
                a.kind(args, result_place, ensured),
                b.kind(args, result_place, ensured),
            ),
            Node::Result | Node::Old(_) => None,
        }
    }

    /// Returns how many conditions stand on a way from the root to a leaf at most.
    pub fn condition_depth(&self) -> u32
        requires small { term_size self.now < 2 ^ 32 }
        ensures depth { result ≡ condition_depth self.now }
        ensures few { result < term_size self.now }
    {
        match &self.node {
            Node::Const(_) | Node::Arg(_) | Node::Null | Node::Result => 0,
            Node::Len(a) | Node::Un(_, a) | Node::Old(a) => a.condition_depth(),
            Node::Elem(_, a, b) | Node::Bin(_, a, b) => a
                .condition_depth()
                .max(b.condition_depth()),
            Node::Cond(test, a, b) => {
                let branches = a.condition_depth().max(b.condition_depth());
                test.condition_depth().max(branches) + 1
            }
        }
    }

    /// Returns how many old values the tree has.
    pub fn old_count(&self) -> u32
        requires small { term_size self.now < 2 ^ 32 }
        ensures count { result ≡ old_count self.now }
        ensures few { result < term_size self.now }
    {
        match &self.node {
            Node::Const(_) | Node::Arg(_) | Node::Null | Node::Result => 0,
            Node::Len(a) | Node::Un(_, a) => a.old_count(),
            Node::Elem(_, a, b) | Node::Bin(_, a, b) => a.old_count() + b.old_count(),
            Node::Old(a) => a.old_count() + 1,
            Node::Cond(test, a, b) => test.old_count() + a.old_count() + b.old_count(),
        }
    }
}
