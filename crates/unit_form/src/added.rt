//! The clauses of a unit that were added to those that its code tells.

ghost use Rattle.std.specs.Prelude.{◌≡◌, count_by, is_some};
ghost use Rattle.cil_model.specs.ClauseTrees.{closed_by, closing};
ghost use Rattle.unit_form.specs.AddedClauses.{added_clauses, closed_count};

use cil_model::{Clause, Instr, Op, Unit, UnitCall, unit_call};

/// Returns whether a call closes a clause.
fn closes_clause(call: Option<UnitCall>) -> bool
    ensures { result ≡ is_some (closed_by call) }
{
    match call {
        Some(UnitCall::Requires(_) | UnitCall::Ensures(_)) => true,
        Some(
            UnitCall::Assert(_)
            | UnitCall::Assume(_)
            | UnitCall::EndContractBlock
            | UnitCall::Result(_)
            | UnitCall::OldValue(_)
            | UnitCall::Callee(_),
        )
        | None => false,
    }
}

/// Returns whether an operation closes a clause.
fn is_closing(op: &Op) -> bool
    ensures { result ≡ is_some (closing op.now) }
{
    match op {
        Op::Call(number) => closes_clause(unit_call(*number)),
        Op::Nop
        | Op::LoadArg(_)
        | Op::StoreArg(_)
        | Op::LoadLocal(_)
        | Op::StoreLocal(_)
        | Op::Null
        | Op::Const(_)
        | Op::Dup
        | Op::Pop
        | Op::Return
        | Op::Branch(_, _)
        | Op::Switch(_)
        | Op::Bin(_)
        | Op::Neg
        | Op::Not
        | Op::ConvI4
        | Op::Text(_)
        | Op::NewArray(_)
        | Op::Length
        | Op::LoadElem(_)
        | Op::StoreElem(_)
        | Op::LoadAddr(_)
        | Op::LoadInd(_)
        | Op::StoreInd(_) => false,
    }
}

/// Returns how many clauses some instructions close.
fn closed_count(instrs: &[Instr]) -> usize
    ensures { result ≡ closed_count instrs.now }
{
    instrs.iter().filter(|instr| is_closing(&instr.op)).count()
}

/// How many clauses the code of a unit tells. Those behind them were added.
pub fn told_count(unit: &Unit) -> usize
    ensures { result ≡ closed_count unit.now.instrs }
{
    closed_count(unit.instrs.as_slice())
}

/// The clauses of a unit that were added to those that its code tells.
pub fn added_clauses(unit: &Unit) -> &[Clause]
    ensures { result.now ≡ added_clauses unit.now }
{
    unit.clauses
        .as_slice()
        .get(told_count(unit)..)
        .unwrap_or(&[])
}
