//! The values of clauses.

ghost use Rattle.std.specs.Prelude.{◌≡◌, ◌+◌, ◌<◌, ◌≤◌, ◌++◌, drop, length, reverse};
ghost use Rattle.cil_model.specs.Clauses as clauses;
ghost use Rattle.clause_eval.specs.Piles.{size_of};
ghost use Rattle.clause_eval.specs.Told.{behind, first_old, old_values, olds_in, told_false, told_value};

use crate::arrays::Arrays;
use crate::clause_values::{binary, chosen, element, length, unary};
use crate::memory::Memory;
use crate::pile::Pile;
use cil_model::{Clause, ClauseKind, Node, Tree, Value};
use std::marker::Model;

/// What a clause is read over.
#[derive(Drop)]
pub(crate) struct Reading<'a> {
    /// The arguments at entry.
    pub args: &'a Pile<Value>,
    pub arrays: Arrays<'a>,
    pub result: Option<Value>,
    /// The old values that were not read yet: the last of them stands first in the clauses. None: the arrays are those
    /// at entry.
    pub olds: Option<&'a [Option<Value>]>,
}

impl<'a> Model for Reading<'a> {
    ghost use Rattle.clause_eval.specs.Told.{Told};

    ghost Value = { Told };

    ghost use Rattle.std.specs.Prelude.{reverse, option_map};
    ghost use Rattle.clause_eval.specs.Sources.{HasShort, heap_in};

    ghost view = { λ r. record { args = r.args.now.top; heap = heap_in r.arrays; result = r.result; olds = option_map (λ olds. reverse olds.now) r.olds } };

    ghost invariant = { λ r. HasShort r.arrays };
}

/// The old value that is read first.
fn first_of(olds: &[Option<Value>]) -> Option<Value>
    ensures { result ≡ first_old (reverse olds.now) }
{
    match olds {
        [] => None,
        [.., first] => *first,
    }
}

/// The old values that are read after it.
#[tactic(auto, using(crate::proofs::PileLemmas::without_last))]
fn rest_of(olds: &[Option<Value>]) -> &[Option<Value>]
    ensures { reverse result.now ≡ drop 1 (reverse olds.now) }
{
    match olds {
        [] => olds,
        [rest @ .., _] => rest,
    }
}

impl Reading<'_> {
    /// The value of a tree, where it has one.
    #[tactic(auto, using(crate::proofs::ToldLemmas::same_heap))]
    pub fn value(&mut self, tree: &Tree) -> Option<Value>
        ensures value { result ≡ told_value tree.now self.old }
        ensures behind { self.new ≡ behind tree.now self.old }
    {
        match &tree.node {
            Node::Const(n) => Some(Value::Int(*n)),
            Node::Arg(n) => self.args.get(usize::from(*n)),
            Node::Null => Some(Value::Null),
            Node::Result => self.result,
            Node::Len(array) => {
                let array = self.value(array);
                length(&self.arrays, array)
            }
            Node::Elem(place, array, index) => {
                let array = self.value(array);
                let index = self.value(index);
                element(&self.arrays, *place, array, index)
            }
            Node::Bin(op, a, b) => {
                let a = self.value(a);
                let b = self.value(b);
                binary(*op, a, b)
            }
            Node::Un(op, a) => {
                let a = self.value(a);
                unary(*op, a)
            }
            Node::Old(tree) => match self.olds {
                None => self.value(tree),
                Some(olds) => {
                    self.olds = Some(rest_of(olds));
                    first_of(olds)
                }
            },
            Node::Cond(test, a, b) => {
                let test = self.value(test);
                let a = self.value(a);
                let b = self.value(b);
                chosen(test, a, b)
            }
        }
    }
}

/// Returns what makes a clause hold: any number but 0.
fn is_number_true(value: Option<Value>) -> bool
    ensures { result ≡ clauses.is_number_true value }
{
    match value {
        Some(Value::Int(n)) => n != 0,
        _ => false,
    }
}

/// The number of the first of some clauses of a kind that does not hold, counted from 1 among those of the kind.
pub(crate) fn first_false(kind: ClauseKind, all: &[Clause], reading: &mut Reading<'_>) -> Option<u8>
    requires { length all.now < 256 }
    ensures { result ≡ told_false 1 kind all.now reading.old }
{
    let mut number = 0;
    for clause in all {
        if clause.kind == kind {
            number += 1;
            if !is_number_true(reading.value(&clause.tree)) {
                return Some(number);
            }
        }
    }
    None
}

/// Puts the old values of a tree on a list, the last one first.
#[tactic(auto, using(crate::proofs::ToldLemmas::olds_put, crate::proofs::ToldLemmas::present_value))]
pub(crate) fn put_olds<'a>(
    tree: &Tree,
    args: &'a Pile<Value>,
    memory: &'a Memory,
    olds: &mut Pile<Option<Value>>,
)
    requires { size_of olds.old + olds_in tree.now ≤ olds.old.room }
    ensures { olds.new ≡ record olds.old { top = old_values tree.now args.now.top memory.now.heap ++ olds.old.top } }
{
    match &tree.node {
        Node::Const(_) | Node::Arg(_) | Node::Null | Node::Result => {}
        Node::Len(a) | Node::Un(_, a) => put_olds(a, args, memory, olds),
        Node::Elem(_, a, b) | Node::Bin(_, a, b) => {
            put_olds(b, args, memory, olds);
            put_olds(a, args, memory, olds);
        }
        Node::Old(a) => {
            let mut reading = Reading {
                args,
                arrays: Arrays::Made(memory),
                result: None,
                olds: None,
            };
            olds.push(reading.value(a));
        }
        Node::Cond(a, b, c) => {
            put_olds(c, args, memory, olds);
            put_olds(b, args, memory, olds);
            put_olds(a, args, memory, olds);
        }
    }
}
