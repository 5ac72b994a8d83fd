//! Which clauses an instruction tests.

ghost use Rattle.std.specs.Prelude.{◌≡◌, slice_get};
ghost use Rattle.std.specs.Option.{option_copied};
ghost use Rattle.cil_model.specs.Clauses.{is_kind};
ghost use Rattle.cil_model.specs.WellFormed.{IsWellFormed};
ghost use Rattle.obligation_prover.specs.ClausesTested as rule;

use cil_model::{
    CalleeInfo, Clause, ClauseKind, FaultKind, Instr, Obligation, Op, Unit, UnitCall, unit_call,
};

/// Of whose contract an instruction tests clauses.
#[derive(Clone, Copy)]
pub enum Tested {
    /// Of none.
    Nothing,
    /// Each Requires of the callee of this number: the instruction calls it.
    Callee(u16),
    /// Each Ensures of the unit itself: the instruction returns.
    Own,
}

/// What a call tests.
#[tactic(auto, using(crate::proofs::Contracts::few_callees))]
fn tested_at_call(unit: &Unit, call: Option<UnitCall>) -> Tested
    requires formed { IsWellFormed unit.now }
    ensures { result ≡ rule.tested_at_call unit.now call }
{
    match call {
        Some(UnitCall::Callee(number)) => {
            if (number as usize) < unit.callees.as_slice().len() {
                Tested::Callee(number as u16)
            } else {
                Tested::Nothing
            }
        }
        Some(
            UnitCall::Requires(_)
            | UnitCall::Ensures(_)
            | UnitCall::Assert(_)
            | UnitCall::Assume(_)
            | UnitCall::EndContractBlock
            | UnitCall::Result(_)
            | UnitCall::OldValue(_),
        )
        | None => Tested::Nothing,
    }
}

/// Of whose contract an instruction of the unit with this operation tests clauses.
///
/// Cost: constant.
pub fn tested_by(unit: &Unit, op: &Op) -> Tested
    requires formed { IsWellFormed unit.now }
    ensures value { result ≡ rule.tested_by unit.now op.now }
{
    match op {
        Op::Call(number) => tested_at_call(unit, unit_call(*number)),
        Op::Return => Tested::Own,
        Op::Nop
        | Op::LoadArg(_)
        | Op::StoreArg(_)
        | Op::LoadLocal(_)
        | Op::StoreLocal(_)
        | Op::Null
        | Op::Const(_)
        | Op::Dup
        | Op::Pop
        | Op::Branch(_, _)
        | Op::Switch(_)
        | Op::Bin(_)
        | Op::Neg
        | Op::Not
        | Op::ConvI4
        | Op::NewArray(_)
        | Op::Length
        | Op::LoadElem(_)
        | Op::StoreElem(_)
        | Op::LoadAddr(_)
        | Op::LoadInd(_)
        | Op::StoreInd(_)
        | Op::Text(_) => Tested::Nothing,
    }
}

/// The callee of this number.
pub(crate) fn callee_at(unit: &Unit, number: u16) -> Option<&CalleeInfo>
    ensures { option_copied result ≡ slice_get unit.now.callees number }
{
    unit.callees.as_slice().get(number as usize)
}

/// The contract of which clauses are tested.
pub(crate) fn contract_of(unit: &Unit, test: Tested) -> &[Clause]
    ensures { result.now ≡ rule.contract_of unit.now test }
{
    match test {
        Tested::Nothing => &[],
        Tested::Callee(number) => match callee_at(unit, number) {
            Some(callee) => callee.clauses.as_slice(),
            None => &[],
        },
        Tested::Own => unit.clauses_in_force(),
    }
}

/// Returns whether a clause of the contract is tested.
pub(crate) fn is_tested(test: Tested, clause: &Clause) -> bool
    ensures { result ≡ is_kind (rule.kind_tested test) clause.now.kind }
{
    match test {
        Tested::Own => matches!(clause.kind, ClauseKind::Ensures),
        Tested::Callee(_) | Tested::Nothing => matches!(clause.kind, ClauseKind::Requires),
    }
}

/// The obligation that the clause of this number, counted from 1, is true.
pub fn clause_obligation(instr: &Instr, test: Tested, number: u8) -> Obligation
    ensures value { result ≡ rule.clause_obligation instr.now test number }
{
    match test {
        Tested::Own => Obligation {
            at: instr.at,
            kind: FaultKind::Ensures(number),
            callee: None,
        },
        Tested::Callee(callee) => Obligation {
            at: instr.at,
            kind: FaultKind::Requires(number),
            callee: Some(callee),
        },
        Tested::Nothing => Obligation {
            at: instr.at,
            kind: FaultKind::Requires(number),
            callee: None,
        },
    }
}
