//! Units to whose clauses others are added.
//!
//! What is inferred is trusted nowhere: a unit to which it was added is judged as any unit, so no law of this crate
//! speaks of runs. Its code and its kinds are the old ones (`strengthen`: `kinds`), and typing is not done again.

ghost use Rattle.std.specs.Prelude.{◌≡◌, ◌++◌, length, IfOk};
ghost use Rattle.cil_model.specs.Passes.{KindsOf, Stacks};
ghost use Rattle.cil_model.specs.Shapes.{shape_of};
ghost use Rattle.cil_model.specs.WellFormed.{IsWellFormed};
ghost use Rattle.ensures_infer.specs.Strengthening.{CanBeAdded, CanBeAddedToEach};
ghost use Rattle.safe_worlds.specs.Strengthened as rule;

use cil_model::{CalleeInfo, Clause, List, Unit, copy_clauses};
use domain_api::NoMemory;
use std::alloc::Global;

/// Copies of clauses, and after them of others.
fn with_added(alloc: Global, clauses: &[Clause], added: &[Clause]) -> Result<List<Clause>, NoMemory>
    ensures { IfOk result (λ all. all ≡ clauses.now ++ added.now) }
{
    let mut all = copy_clauses(alloc, clauses)?;
    for clause in added {
        all.push(clause.copy(alloc)?)?;
    }
    Ok(List::from_vec(all))
}

/// A callee with clauses after its own.
fn strengthened(
    alloc: Global,
    callee: &CalleeInfo,
    added: &[Clause],
) -> Result<CalleeInfo, NoMemory>
    ensures { IfOk result (λ new. new ≡ rule.with_clauses callee.now added.now) }
{
    Ok(CalleeInfo {
        name: callee.name.copy(alloc)?,
        result: callee.result,
        args: callee.args.copy(alloc)?,
        clauses: with_added(alloc, callee.clauses.as_slice(), added)?,
    })
}

/// Callees, each with the clauses of its place after its own.
fn all_strengthened(
    alloc: Global,
    callees: &[CalleeInfo],
    added: &[List<Clause>],
) -> Result<List<CalleeInfo>, NoMemory>
    requires { length added.now ≡ length callees.now }
    ensures { IfOk result (λ all. all ≡ rule.with_each callees.now added.now) }
{
    let mut all = Vec::with_capacity(alloc, callees.len())?;
    for i in 0..callees.len() {
        all.push(strengthened(alloc, &callees[i], added[i].as_slice())?)?;
    }
    Ok(List::from_vec(all))
}

/// The unit with clauses after its own, and with clauses after those of each method that it calls, in their order.
///
/// The caller owes a list for each of these methods. Where the clauses may be added (`CanBeAdded`), what was well
/// formed is so again.
///
/// Cost: linear in the bytes of the unit and the nodes of the clauses.
pub fn strengthen(
    alloc: Global,
    unit: &Unit,
    own: &[Clause],
    callees: &[List<Clause>],
) -> Result<Unit, NoMemory>
    requires lists { length callees.now ≡ length unit.now.callees }
    ensures value { IfOk result (λ new. new ≡ rule.strengthened unit.now own.now callees.now) }
    // A well formed unit is well formed again.
    ensures formed { IfOk result (λ new. IsWellFormed unit.now
        → CanBeAdded unit.now.args unit.now.result unit.now.clauses own.now
        → CanBeAddedToEach unit.now.callees callees.now → IsWellFormed new) }
    // Its code has the kinds that it had.
    ensures kinds { IfOk result (λ new. (stacks : Stacks) → KindsOf (shape_of unit.now) unit.now.instrs stacks
        → KindsOf (shape_of new) new.instrs stacks) }
{
    let mut new = unit.copy(alloc)?;
    new.callees = all_strengthened(alloc, unit.callees.as_slice(), callees)?;
    new.clauses = with_added(alloc, unit.clauses.as_slice(), own)?;
    Ok(new)
}
