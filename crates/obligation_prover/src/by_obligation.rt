//! Obligations of a unit, in a state: whether it entails one, and what it becomes where one is assumed.
//!
//! Faults are asked for by unit, operation and kind: an operation tells neither a callee's clauses nor the unit's own.
//! Who has the instruction asks `rules_out` and `avoid`; `entails` and `assume` look it up by offset.

ghost use Rattle.std.specs.Prelude.{◌≡◌, IfOk, Ok, Some, false, option_map, true};
ghost use Rattle.std.specs.Option.{ForSome, option_copied};
ghost use Rattle.cil_model.specs.Runs.{instr_at};
ghost use Rattle.cil_model.specs.WellFormed.{IsWellFormed};
ghost use Rattle.obligation_prover.specs.ByObligation as rule;
ghost use Rattle.obligation_prover.specs.ByObligation.{AssumesAt, AssumesIt, CanJudge, EndsNotIn, RulesItOut};
ghost use Rattle.obligation_prover.specs.ClausesTested as tests;
ghost use Rattle.obligation_prover.specs.ClausesTested.{CanTest, IsClauseTested, IsContract};
ghost use Rattle.obligation_prover.specs.Faults.{is_of_clause};

use crate::avoidance::avoid;
use crate::clauses::{clause_assumed, clause_shown, put_tested};
use crate::entailment::rules_out;
use crate::tested::{Tested, contract_of, tested_by};
use abs_state::AbsState;
use cil_model::{Clause, ClauseKind, FaultKind, Instr, Obligation, Op, Unit};
use contract_calls::clause_numbered;
use domain_api::NoMemory;
use std::alloc::Global;

/// The instruction at an IL offset.
fn instr_at(instrs: &[Instr], at: u32) -> Option<&Instr>
    ensures { option_copied result ≡ instr_at instrs.now at }
{
    for instr in instrs {
        if instr.at == at {
            return Some(instr);
        }
    }
    None
}

/// Returns whether the fault is that a clause is not true.
fn is_of_clause(kind: FaultKind) -> bool
    ensures { result ≡ is_of_clause kind }
{
    match kind {
        FaultKind::Requires(_) | FaultKind::Ensures(_) => true,
        FaultKind::Assert
        | FaultKind::NullUse
        | FaultKind::Lower
        | FaultKind::Upper
        | FaultKind::DivZero
        | FaultKind::DivOverflow
        | FaultKind::Overflow
        | FaultKind::Shift
        | FaultKind::ArraySize => false,
    }
}

/// The clause of which this is the fault, where one is tested that has this number.
fn clause_of_fault(unit: &Unit, test: Tested, kind: FaultKind) -> Option<&Clause>
    ensures { option_map (λ clause. clause.now) result ≡ rule.clause_of_fault unit.now test kind }
{
    match (test, kind) {
        (Tested::Callee(_), FaultKind::Requires(number)) => {
            clause_numbered(contract_of(unit, test), ClauseKind::Requires, number)
        }
        (Tested::Own, FaultKind::Ensures(number)) => {
            clause_numbered(contract_of(unit, test), ClauseKind::Ensures, number)
        }
        _ => None,
    }
}

/// Returns whether a clause is shown, from the state before the instruction that tests it.
#[tactic(auto, using(crate::proofs::Contracts::put_can))]
fn clause_entailed(
    alloc: Global,
    unit: &Unit,
    test: Tested,
    kind: FaultKind,
    state: &AbsState,
) -> Result<bool, NoMemory>
    requires formed { IsWellFormed unit.now }
    requires contract { IsContract unit.now test }
    requires ready { CanTest unit.now test state.now }
    ensures { IfOk result (λ entailed. entailed ≡ rule.clause_entailed unit.now test kind state.now) }
{
    let Some(clause) = clause_of_fault(unit, test, kind) else {
        return Ok(false);
    };
    let put = put_tested(state.copy(alloc)?, unit, test)?;
    clause_shown(alloc, unit, test, clause, &put)
}

/// The state where a clause is assumed, from the one before the instruction that tests it.
#[tactic(auto, using(crate::proofs::Contracts::put_can))]
fn clause_met(
    alloc: Global,
    unit: &Unit,
    test: Tested,
    kind: FaultKind,
    state: &AbsState,
) -> Result<AbsState, NoMemory>
    requires formed { IsWellFormed unit.now }
    requires contract { IsContract unit.now test }
    requires ready { CanTest unit.now test state.now }
    ensures { IfOk result (λ new. new ≡ rule.clause_met unit.now test kind state.now) }
{
    let before = state.copy(alloc)?;
    let Some(clause) = clause_of_fault(unit, test, kind) else {
        return Ok(before);
    };
    let put = put_tested(before, unit, test)?;
    clause_assumed(alloc, unit, test, clause, &put)
}

/// Returns whether a state entails that an instruction with this operation does not end in the fault.
fn entailed_at(
    alloc: Global,
    unit: &Unit,
    op: &Op,
    kind: FaultKind,
    state: &AbsState,
) -> Result<bool, NoMemory>
    requires formed { IsWellFormed unit.now }
    requires ready { CanTest unit.now (tests.tested_by unit.now op.now) state.now }
    ensures value { IfOk result (λ entailed. entailed ≡ rule.entailed_at unit.now op.now kind state.now) }
    ensures own { is_of_clause kind ≡ false → result ≡ Ok (rule.entailed_at unit.now op.now kind state.now) }
    ensures sound { IfOk result (λ entailed. entailed ≡ true → EndsNotIn unit.now op.now kind state.now) }
{
    if is_of_clause(kind) {
        clause_entailed(alloc, unit, tested_by(unit, op), kind, state)
    } else {
        Ok(rules_out(state, unit, op, kind))
    }
}

/// The state where that is assumed.
fn met_at(
    alloc: Global,
    unit: &Unit,
    op: &Op,
    kind: FaultKind,
    state: &AbsState,
) -> Result<AbsState, NoMemory>
    requires formed { IsWellFormed unit.now }
    requires ready { CanTest unit.now (tests.tested_by unit.now op.now) state.now }
    ensures value { IfOk result (λ new. new ≡ rule.met_at unit.now op.now kind state.now) }
    ensures sound { IfOk result (AssumesAt unit.now op.now kind state.now) }
{
    if is_of_clause(kind) {
        return clause_met(alloc, unit, tested_by(unit, op), kind, state);
    }
    avoid(state.copy(alloc)?, unit, op, kind)
}

/// Returns whether a state entails an obligation of the unit: that the instruction where it stands does not end in its
/// fault. The state is that before the instruction, and is to assume already the obligations before this one there. For
/// a clause the arguments or the result are put into their places first. Where no instruction stands there, none is
/// entailed.
///
/// The caller owes that what the clauses read is there.
///
/// Cost: that of finding the instruction, and for a clause that of showing it. Other obligations take no memory.
pub fn entails(
    alloc: Global,
    unit: &Unit,
    obligation: &Obligation,
    state: &AbsState,
) -> Result<bool, NoMemory>
    requires formed { IsWellFormed unit.now }
    requires ready { CanJudge unit.now obligation.now state.now }
    ensures value { IfOk result (λ entailed. entailed ≡ rule.is_entailed unit.now obligation.now state.now) }
    ensures own { is_of_clause obligation.now.kind ≡ false
        → result ≡ Ok (rule.is_entailed unit.now obligation.now state.now) }
    // The machine does not end in a fault that is entailed.
    ensures sound { IfOk result (λ entailed. entailed ≡ true → RulesItOut unit.now obligation.now state.now) }
{
    match instr_at(unit.instrs.as_slice(), obligation.at) {
        Some(instr) => entailed_at(alloc, unit, &instr.op, obligation.kind, state),
        None => Ok(false),
    }
}

/// The state where an obligation of the unit is assumed: the instruction where it stands did not end in its fault. For
/// a clause it is that where the arguments or the result were put into their places.
///
/// The caller owes as for `entails`.
///
/// Cost: that of finding the instruction, a copy, and one comparison or two, or that of assuming the clause.
pub fn assume(
    alloc: Global,
    unit: &Unit,
    obligation: &Obligation,
    state: &AbsState,
) -> Result<AbsState, NoMemory>
    requires formed { IsWellFormed unit.now }
    requires ready { CanJudge unit.now obligation.now state.now }
    ensures value { IfOk result (λ new. new ≡ rule.assumed unit.now obligation.now state.now) }
    // Where that is so, the state holds as before.
    ensures sound { IfOk result (λ new. AssumesIt unit.now obligation.now state.now new) }
{
    match instr_at(unit.instrs.as_slice(), obligation.at) {
        Some(instr) => met_at(alloc, unit, &instr.op, obligation.kind, state),
        None => state.copy(alloc),
    }
}
