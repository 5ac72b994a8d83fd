//! Whether the clauses that an instruction tests are shown, one after the other.

ghost use Rattle.std.specs.Prelude.{◌≡◌, ◌∷◌, ◌++◌, [], IfOk, OnOk, true};
ghost use Rattle.std.specs.List.{AllByRecursion, list_all};
ghost use Rattle.cil_model.specs.Clauses.{clauses_of};
ghost use Rattle.cil_model.specs.WellFormed.{IsWellFormed};
ghost use Rattle.obligation_prover.specs.Meaning.{FindsNoneFalse};
ghost use Rattle.obligation_prover.specs.ClausesTested as rule;
ghost use Rattle.obligation_prover.specs.ClausesTested.{CanTest, IsClauseTested, IsContract};

use crate::tested::{Tested, callee_at, contract_of, is_tested, tested_by};
use abs_state::AbsState;
use cil_model::{Clause, Op, Unit};
use contract_calls::{
    assume_ensures, assume_requires, ensures_shown, put_args, put_result, requires_shown,
};
use domain_api::NoMemory;
use std::alloc::Global;

/// Puts what a call passes, or what a return gives, into its places.
pub(crate) fn put_tested(state: AbsState, unit: &Unit, test: Tested) -> Result<AbsState, NoMemory>
    requires formed { IsWellFormed unit.now }
    requires ready { CanTest unit.now test state }
    ensures { IfOk result (λ new. new ≡ rule.put_tested unit.now test state) }
{
    match test {
        Tested::Nothing => Ok(state),
        Tested::Callee(number) => match callee_at(unit, number) {
            Some(callee) => put_args(state, callee.args.as_slice()),
            None => Ok(state),
        },
        Tested::Own => put_result(state, unit.result),
    }
}

/// Returns whether a clause is shown.
pub(crate) fn clause_shown(
    alloc: Global,
    unit: &Unit,
    test: Tested,
    clause: &Clause,
    state: &AbsState,
) -> Result<bool, NoMemory>
    requires ready { CanTest unit.now test state.now }
    requires test { IsClauseTested unit.now test clause.now }
    ensures { IfOk result (λ shown. shown ≡ rule.clause_shown unit.now test clause.now state.now) }
{
    match test {
        Tested::Nothing => Ok(false),
        Tested::Callee(number) => match callee_at(unit, number) {
            Some(callee) => requires_shown(alloc, state, callee, clause),
            None => Ok(false),
        },
        Tested::Own => ensures_shown(alloc, state, unit, clause),
    }
}

/// The state in which a clause is assumed.
pub(crate) fn clause_assumed(
    alloc: Global,
    unit: &Unit,
    test: Tested,
    clause: &Clause,
    state: &AbsState,
) -> Result<AbsState, NoMemory>
    requires ready { CanTest unit.now test state.now }
    requires test { IsClauseTested unit.now test clause.now }
    ensures { IfOk result (λ new. new ≡ rule.clause_assumed unit.now test clause.now state.now) }
{
    match test {
        Tested::Nothing => state.copy(alloc),
        Tested::Callee(number) => match callee_at(unit, number) {
            Some(callee) => assume_requires(alloc, state, callee, clause),
            None => state.copy(alloc),
        },
        Tested::Own => assume_ensures(alloc, state, unit, clause),
    }
}

/// Appends whether a clause is shown, where it is one of those that are tested, and gives the state in which it is
/// assumed.
fn judge_one(
    alloc: Global,
    found: &mut Vec<bool>,
    unit: &Unit,
    test: Tested,
    clause: &Clause,
    state: AbsState,
) -> Result<AbsState, NoMemory>
    requires ready { CanTest unit.now test state }
    requires test { IsClauseTested unit.now test clause.now }
    ensures shown { OnOk result (found.new.items ≡ found.old.items
        ++ rule.shown_in_turn unit.now test (clauses_of (rule.kind_tested test) (clause.now ∷ [])) state) }
    ensures assumed { IfOk result (λ new. new
        ≡ rule.assumed_in_turn unit.now test (clauses_of (rule.kind_tested test) (clause.now ∷ [])) state) }
{
    if !is_tested(test, clause) {
        return Ok(state);
    }
    found.push(clause_shown(alloc, unit, test, clause, &state)?)?;
    clause_assumed(alloc, unit, test, clause, &state)
}

/// Whether each of these clauses is shown that is tested, in turn.
#[tactic(auto, using(crate::proofs::JudgingClauses::judging))]
fn judge_each(
    alloc: Global,
    unit: &Unit,
    test: Tested,
    clauses: &[Clause],
    state: AbsState,
) -> Result<Vec<bool>, NoMemory>
    requires ready { CanTest unit.now test state }
    requires tests { AllByRecursion (IsClauseTested unit.now test) clauses.now }
    ensures { IfOk result (λ shown. shown.items
        ≡ rule.shown_in_turn unit.now test (clauses_of (rule.kind_tested test) clauses.now) state) }
{
    let mut found = Vec::new(alloc);
    let mut known = state;
    for clause in clauses {
        known = judge_one(alloc, &mut found, unit, test, clause, known)?;
    }
    Ok(found)
}

/// Whether each clause is shown, from the state before the instruction.
#[tactic(auto, using(crate::proofs::Contracts::putting))]
fn judge_clauses(
    alloc: Global,
    unit: &Unit,
    test: Tested,
    state: AbsState,
) -> Result<Vec<bool>, NoMemory>
    requires formed { IsWellFormed unit.now }
    requires contract { IsContract unit.now test }
    requires ready { CanTest unit.now test state }
    ensures { IfOk result (λ shown. shown.items ≡ rule.shown_in_turn unit.now test
        (rule.clauses_tested unit.now test) (rule.put_tested unit.now test state)) }
{
    let put = put_tested(state, unit, test)?;
    judge_each(alloc, unit, test, contract_of(unit, test), put)
}

/// Whether each clause is shown that an instruction of the unit with this operation tests, in their order and from the
/// state before it: each Requires of the callee at a call, and each Ensures of the unit itself at a return. The
/// arguments or the result are put into their places first, and each is judged where those before it are assumed.
///
/// The caller owes that what the clauses read is there.
///
/// Cost: that of showing and of assuming each.
pub fn clauses_shown(
    alloc: Global,
    unit: &Unit,
    op: &Op,
    state: AbsState,
) -> Result<Vec<bool>, NoMemory>
    requires formed { IsWellFormed unit.now }
    requires ready { CanTest unit.now (rule.tested_by unit.now op.now) state }
    ensures value { IfOk result (λ shown. shown.items ≡ rule.clauses_shown unit.now op.now state) }
    // Where each is shown, the instruction finds none false.
    ensures sound { IfOk result (λ shown.
        list_all (λ b. b) shown.items ≡ true → FindsNoneFalse unit.now op.now state) }
{
    let found = judge_clauses(alloc, unit, tested_by(unit, op), state)?;
    Ok(found)
}
