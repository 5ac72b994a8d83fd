//! The clauses of a kind, one after the other.

ghost use Rattle.std.specs.Prelude.{◌≡◌, ◌-◌, ◌==◌, ◌&&◌, ◌∷◌, [], IfOk, if◌then◌else◌};
ghost use Rattle.std.specs.Option.{option_map};
ghost use Rattle.cil_model.specs.Clauses as clauses;
ghost use Rattle.cil_model.specs.Clauses.{clauses_of};
ghost use Rattle.contract_calls.specs.CallForms.{CanAssume};
ghost use Rattle.contract_calls.specs.CallStates as rule;

use abs_state::AbsState;
use cil_model::{Clause, ClauseKind};
use clause_trees::{TreeEnv, assume_tree};
use domain_api::NoMemory;
use std::alloc::Global;

/// Returns whether a clause is of this kind.
fn is_kind(kind: ClauseKind, clause: &Clause) -> bool
    ensures { result ≡ clauses.is_kind kind clause.now.kind }
{
    matches!(
        (kind, clause.kind),
        (ClauseKind::Requires, ClauseKind::Requires) | (ClauseKind::Ensures, ClauseKind::Ensures)
    )
}

/// The state in which a clause is assumed to be true, where it is of this kind.
#[tactic(auto, using(crate::proofs::Assuming::can_test))]
fn assume_if(
    alloc: Global,
    state: AbsState,
    kind: ClauseKind,
    clause: &Clause,
    env: &TreeEnv,
) -> Result<AbsState, NoMemory>
    requires ready { CanAssume env.now (clause.now ∷ []) state }
    ensures { IfOk result (λ new. new ≡ rule.assumed_each env.now (clauses_of kind (clause.now ∷ [])) state) }
{
    if is_kind(kind, clause) {
        assume_tree(alloc, &state, &clause.tree, env)
    } else {
        Ok(state)
    }
}

/// The state in which each clause of this kind is assumed to be true, one after the other.
#[tactic(auto, using(crate::proofs::Assuming::assuming))]
pub(crate) fn assume_each(
    alloc: Global,
    state: AbsState,
    kind: ClauseKind,
    clauses: &[Clause],
    env: &TreeEnv,
) -> Result<AbsState, NoMemory>
    requires ready { CanAssume env.now clauses.now state }
    ensures { IfOk result (λ new. new ≡ rule.assumed_each env.now (clauses_of kind clauses.now) state) }
{
    let mut known = state;
    for clause in clauses {
        known = assume_if(alloc, known, kind, clause, env)?;
    }
    Ok(known)
}

/// Returns whether a clause is the next one of this kind, where so many of the kind are left to find it.
fn is_next(kind: ClauseKind, clause: &Clause, left: u8) -> bool
    ensures { result ≡ ((left == 1) && clauses.is_kind kind clause.now.kind) }
{
    left == 1 && is_kind(kind, clause)
}

/// How many of this kind are left behind a clause.
fn left_behind(kind: ClauseKind, clause: &Clause, left: u8) -> u8
    ensures { result ≡ (if clauses.is_kind kind clause.now.kind then left - 1 else left) }
{
    if left > 0 && is_kind(kind, clause) {
        left - 1
    } else {
        left
    }
}

/// The clause of this number among those of a kind, counted from 1 as the machine counts. None where there is none.
#[tactic(auto, using(crate::proofs::Numbered::counting))]
pub fn clause_numbered(clauses: &[Clause], kind: ClauseKind, number: u8) -> Option<&Clause>
    ensures { option_map (λ clause. clause.now) result ≡ rule.numbered (clauses_of kind clauses.now) number }
{
    let mut left = number;
    for clause in clauses {
        if is_next(kind, clause, left) {
            return Some(clause);
        }
        left = left_behind(kind, clause, left);
    }
    None
}
