//! The arguments of calls (ECMA-335 III.3.19).

ghost use Rattle.std.specs.Prelude.{◌≡◌, ◌+◌, ◌≤◌, ◌++◌, length, map, reverse};
ghost use Rattle.cil_model.specs.Values as values;
ghost use Rattle.cil_eval.specs.Actions.{IsTakenFrom, when};
ghost use Rattle.cil_eval.specs.Capacity.{SameRoom};
ghost use Rattle.clause_eval.specs.Piles.{size_of};
ghost use Rattle.cil_eval.specs.Taken.{taken};

use cil_model::{Place, Value};
use clause_eval::{Memory, Pile, put, zero_of};

/// Takes the arguments for these places from a stack, the last one first, and puts them on a list. Says whether each
/// place takes its value.
#[tactic(auto, using(clause_eval::proofs::PileLemmas::turned_last, crate::proofs::TakenLemmas::nothing_taken))]
pub(crate) fn take_args(
    places: &[Place],
    memory: &Memory,
    stack: &mut Pile<Value>,
    args: &mut Pile<Value>,
) -> bool
    requires { size_of args.old + length places.now ≤ args.old.room }
    ensures taken { when result (record { args = args.new.top; rest = stack.new.top }) ≡ taken memory.now.heap (reverse places.now) args.old.top stack.old.top }
    ensures stack { IsTakenFrom stack.old stack.new }
    ensures below { args.new.below ≡ args.old.below }
    ensures room { SameRoom args.old args.new }
{
    let [others @ .., last] = places else {
        return true;
    };
    let Some(value) = stack.pop() else {
        return false;
    };
    let Some(value) = put(memory, *last, value) else {
        return false;
    };
    args.push(value);
    take_args(others, memory, stack, args)
}

/// Puts the values that locals of these places hold first on a list, the last one first.
#[tactic(auto, using(clause_eval::proofs::PileLemmas::turned_last))]
pub(crate) fn put_locals(places: &[Place], locals: &mut Pile<Value>)
    requires { size_of locals.old + length places.now ≤ locals.old.room }
    ensures { locals.new ≡ record locals.old { top = map values.zero_of places.now ++ locals.old.top } }
{
    if let [others @ .., last] = places {
        locals.push(zero_of(*last));
        put_locals(others, locals);
    }
}
