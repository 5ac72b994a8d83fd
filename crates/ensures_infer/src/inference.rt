//! The clauses that a method's returns show.
//!
//! An Ensures is inferred where it follows at each return that is reached, of the state there with the result in its
//! place; the unit's own Ensures are not assumed. A bound on the result is the least or the greatest number of all
//! returns together. Where no return is reached, and under states that are no invariant, nothing is inferred. All
//! clauses of a method count for the room that is left, its Requires too.

ghost use Rattle.std.specs.Prelude.{◌≡◌, ◌-◌, ◌≤◌, ◌++◌, length, map, take, filter_map, IfOk, OnOk, option_to_list};
ghost use Rattle.cil_model.specs.WellFormed.{IsWellFormed};
ghost use Rattle.ensures_infer.specs.Candidates as rule;
ghost use Rattle.ensures_infer.specs.Following.{shown_of};
ghost use Rattle.ensures_infer.specs.Inferred.{clause_of};
ghost use Rattle.ensures_infer.specs.Strengthening.{CanBeAdded};
ghost use Rattle.unit_flow.specs.Flow.{IsLawful};

use crate::following::{ranges_at, shown_of};
use crate::inferred::Inferred;
use crate::returns::returns_of;
use crate::rows::rows_of;
use abs_state::{AbsState, Invariant};
use cil_model::{Clause, MAX_CLAUSES, Unit};
use domain_api::NoMemory;
use std::alloc::Global;
use transfer_rules::inductive;
use unit_flow::UnitFlow;

/// Appends what follows of a row at each return, where there is room for it.
fn push_shown(
    found: &mut Vec<Inferred>,
    room: usize,
    returns: &[AbsState],
    row: Inferred,
) -> Result<(), NoMemory>
    requires within { length found.old.items ≤ room }
    ensures { OnOk result (found.new.items
        ≡ take room (found.old.items ++ option_to_list (shown_of returns.now row))) }
{
    if found.len() == room {
        return Ok(());
    }
    match shown_of(returns, row) {
        Some(fact) => Ok(found.push(fact)?),
        None => Ok(()),
    }
}

/// What follows of rows at each return, the first ones, for which there is room.
fn first_shown(
    alloc: Global,
    room: usize,
    returns: &[AbsState],
    rows: &[Inferred],
) -> Result<Vec<Inferred>, NoMemory>
    ensures { IfOk result (λ found. found.items
        ≡ take room (filter_map (shown_of returns.now) rows.now)) }
{
    let mut found = Vec::new(alloc);
    for row in rows {
        push_shown(&mut found, room, returns, *row)?;
    }
    Ok(found)
}

/// What is known at these returns of a unit, as far as its clauses leave room.
fn shown_at(alloc: Global, unit: &Unit, returns: &[AbsState]) -> Result<Vec<Inferred>, NoMemory>
    requires formed { IsWellFormed unit.now }
    ensures { IfOk result (λ found. found.items ≡ rule.shown_at unit.now returns.now) }
{
    if returns.is_empty() {
        return Ok(Vec::new(alloc));
    }
    let room = MAX_CLAUSES - unit.clauses.as_slice().len();
    let ranges = ranges_at(alloc, returns)?;
    let rows = rows_of(alloc, unit.result, unit.args.as_slice(), &ranges)?;
    first_shown(alloc, room, returns, &rows)
}

/// What is inferred of a unit under states, one for each block.
fn inferred(alloc: Global, code: &UnitFlow, states: &[AbsState]) -> Result<Vec<Inferred>, NoMemory>
    requires lawful { IsLawful code.now }
    ensures { IfOk result (λ found. found.items ≡ rule.inferred code.now states.now) }
{
    if inductive(alloc, code, states)? {
        let returns = returns_of(alloc, code, states)?;
        shown_at(alloc, &code.unit, &returns)
    } else {
        Ok(Vec::new(alloc))
    }
}

/// The clauses that say this.
fn clauses_of(alloc: Global, facts: &[Inferred]) -> Result<Vec<Clause>, NoMemory>
    ensures { IfOk result (λ clauses. clauses.items ≡ map clause_of facts.now) }
{
    let mut clauses = Vec::with_capacity(alloc, facts.len())?;
    for fact in facts {
        clauses.push(fact.clause(alloc)?)?;
    }
    Ok(clauses)
}

/// The Ensures that the returns of a unit show under an invariant, which may have come from anywhere: where it is none
/// of this unit, or no return is reached, nothing is inferred.
///
/// What is inferred follows at each return, of the state there with the result in its place. The unit's own Ensures
/// are not assumed. There are at most so many that the unit has no more clauses with them than a method may have.
///
/// Cost: that of `inductive`, one walk through each block that returns, and that of two gaps for each argument and
/// return.
pub fn candidates(
    alloc: Global,
    code: &UnitFlow,
    invariant: &Invariant,
) -> Result<Vec<Clause>, NoMemory>
    requires lawful { IsLawful code.now }
    ensures value { IfOk result (λ found. found.items ≡ rule.candidates_of code.now invariant.now.states.items) }
    // They may be added to the unit's clauses.
    ensures may_be_added { IfOk result (λ found.
        CanBeAdded code.now.unit.args code.now.unit.result code.now.unit.clauses found.items) }
{
    let facts = inferred(alloc, code, invariant.states.as_slice())?;
    clauses_of(alloc, &facts)
}
