//! The obligations of a unit.

ghost use Rattle.std.specs.Prelude.{◌≡◌, ◌++◌, ◌≤◌, IfOk, OnOk, length, map};
ghost use Rattle.std.specs.List.{range_with_len};
ghost use Rattle.cil_model.specs.Clauses.{clauses_of};
ghost use Rattle.cil_model.specs.Limits.{MAX_CLAUSES};
ghost use Rattle.cil_model.specs.WellFormed.{IsWellFormed};
ghost use Rattle.obligation_prover.specs.EachFault.{ListsEachFault};
ghost use Rattle.obligation_prover.specs.Obligations as rule;
ghost use Rattle.obligation_prover.specs.ClausesTested as tests;

use crate::faults::faults_of;
use crate::tested::{Tested, clause_obligation, contract_of, is_tested, tested_by};
use cil_model::{Clause, Instr, Obligation, Unit};
use domain_api::NoMemory;
use std::alloc::Global;

/// How many of these clauses are tested.
fn count_tested(test: Tested, clauses: &[Clause]) -> u8
    requires few { length clauses.now ≤ MAX_CLAUSES }
    ensures { result ≡ length (clauses_of (tests.kind_tested test) clauses.now) }
{
    let mut count = 0;
    for clause in clauses {
        if is_tested(test, clause) {
            count += 1;
        }
    }
    count
}

/// Appends the obligations of so many clauses that an instruction tests.
fn push_each(
    found: &mut Vec<Obligation>,
    instr: &Instr,
    test: Tested,
    count: u8,
) -> Result<(), NoMemory>
    requires few { count ≤ MAX_CLAUSES }
    ensures { OnOk result (found.new.items
        ≡ found.old.items ++ map (tests.clause_obligation instr.now test) (range_with_len 1 count)) }
{
    for before in 0..count {
        found.push(clause_obligation(instr, test, before + 1))?;
    }
    Ok(())
}

/// Appends those of the clauses that an instruction tests.
fn push_clause_obligations(
    found: &mut Vec<Obligation>,
    unit: &Unit,
    instr: &Instr,
) -> Result<(), NoMemory>
    requires formed { IsWellFormed unit.now }
    ensures { OnOk result (found.new.items ≡ found.old.items ++ tests.clause_obligations unit.now instr.now) }
{
    let test = tested_by(unit, &instr.op);
    push_each(
        found,
        instr,
        test,
        count_tested(test, contract_of(unit, test)),
    )
}

/// Appends the own obligations of an instruction of the unit.
fn push_own_obligations(
    found: &mut Vec<Obligation>,
    unit: &Unit,
    instr: &Instr,
) -> Result<(), NoMemory>
    ensures { OnOk result (found.new.items ≡ found.old.items ++ rule.own_obligations unit.now instr.now) }
{
    for kind in faults_of(unit, &instr.op) {
        found.push(Obligation {
            at: instr.at,
            kind: *kind,
            callee: None,
        })?;
    }
    Ok(())
}

/// Appends the obligations of an instruction where it stands in the unit's body.
fn push_body_obligations(
    found: &mut Vec<Obligation>,
    unit: &Unit,
    instr: &Instr,
) -> Result<(), NoMemory>
    requires formed { IsWellFormed unit.now }
    ensures { OnOk result (found.new.items ≡ found.old.items ++ rule.obligations_in unit.now instr.now) }
{
    if instr.at < unit.body_start {
        return Ok(());
    }
    push_own_obligations(found, unit, instr)?;
    push_clause_obligations(found, unit, instr)
}

/// The obligations of a unit's body: by the offsets of their instructions, and those of one in the order in which the
/// machine tests. Clauses are counted from 1, each Requires of a callee among its Requires and each Ensures of the unit
/// among its Ensures.
pub fn obligations(alloc: Global, unit: &Unit) -> Result<Vec<Obligation>, NoMemory>
    requires formed { IsWellFormed unit.now }
    ensures value { IfOk result (λ found. found.items ≡ rule.obligations_of unit.now) }
    // A step of the unit ends in no fault but one of these.
    ensures complete { IfOk result (λ found. ListsEachFault unit.now found.items) }
{
    let mut found = Vec::new(alloc);
    for instr in unit.instrs.as_slice() {
        push_body_obligations(&mut found, unit, instr)?;
    }
    Ok(found)
}
