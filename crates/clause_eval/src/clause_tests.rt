//! The tests of contracts at calls and returns.

ghost use Rattle.std.specs.Prelude.{◌≡◌, ◌+◌, ◌<◌, ◌≤◌, ◌++◌, length};
ghost use Rattle.cil_model.specs.Clauses as clauses;
ghost use Rattle.clause_eval.specs.Piles.{size_of};
ghost use Rattle.clause_eval.specs.Sources.{HasShort, heap_in};
ghost use Rattle.clause_eval.specs.Told.{TellsEnsures, olds_in_clauses, olds_of_clauses};

use crate::arrays::Arrays;
use crate::memory::Memory;
use crate::pile::Pile;
use crate::reading::{Reading, first_false, put_olds};
use cil_model::{Clause, ClauseKind, Value};

/// The first Requires that is not true of arguments, counted from 1 among the Requires.
#[tactic(auto, using(crate::proofs::ClauseTests::requires_are))]
pub fn false_requires<'a>(all: &[Clause], args: &'a Pile<Value>, arrays: Arrays<'a>) -> Option<u8>
    requires clauses { length all.now < 256 }
    requires short { HasShort arrays }
    ensures { result ≡ clauses.false_requires all.now args.now.top (heap_in arrays.entry) }
{
    let mut reading = Reading {
        args,
        arrays,
        result: None,
        olds: None,
    };
    first_false(ClauseKind::Requires, all, &mut reading)
}

/// The first Ensures that is not true at the end, counted from 1 among the Ensures. The old values are those that were
/// taken at the entry.
#[tactic(auto, using(crate::proofs::ClauseTests::ensures_tell))]
pub fn false_ensures<'a>(
    all: &[Clause],
    entry_args: &'a Pile<Value>,
    olds: &'a Pile<Option<Value>>,
    memory: &'a Memory,
    returned: Option<Value>,
) -> Option<u8>
    requires { length all.now < 256 }
    ensures { TellsEnsures all.now entry_args.now.top olds.now.top memory.now.heap returned result }
{
    let mut reading = Reading {
        args: entry_args,
        arrays: Arrays::Made(memory),
        result: returned,
        olds: Some(olds.as_slice()),
    };
    first_false(ClauseKind::Ensures, all, &mut reading)
}

/// Puts the old values of clauses on a list, the last one first.
#[tactic(auto, using(crate::proofs::ClauseTests::all_olds_put, crate::proofs::ClauseTests::put_on))]
pub fn put_all_olds<'a>(
    all: &[Clause],
    args: &'a Pile<Value>,
    memory: &'a Memory,
    olds: &mut Pile<Option<Value>>,
)
    requires { size_of olds.old + olds_in_clauses all.now ≤ olds.old.room }
    ensures { olds.new ≡ record olds.old { top = olds_of_clauses all.now args.now.top memory.now.heap ++ olds.old.top } }
{
    match all {
        [] => {}
        [first, rest @ ..] => {
            put_all_olds(rest, args, memory, olds);
            if first.kind == ClauseKind::Ensures {
                put_olds(&first.tree, args, memory, olds);
            }
        }
    }
}
