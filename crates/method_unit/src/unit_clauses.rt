//! The clauses and the blocks of a unit's code.

ghost use Rattle.std.specs.Prelude.{◌≡◌, ◌+◌, ◌++◌, ◌<◌, ◌≤◌, ◌^◌, ⊤, length, All, IfOk};
ghost use Rattle.std.specs.List.{AllByRecursion};
ghost use Rattle.cc_base.specs.Tests.{Judges, JudgesOrNoMemory};
ghost use Rattle.cil_model.specs.Blocks.{start_of_body};
ghost use Rattle.cil_model.specs.Code.{MeetsStarts};
ghost use Rattle.cil_model.specs.Bodies.{HasBody};
ghost use Rattle.cil_model.specs.FitKinds.{AreDecoded};
ghost use Rattle.cil_model.specs.Passes.{KindsOf, Stacks};
ghost use Rattle.cil_model.specs.ShortCode.{AreOfShortCode};
ghost use Rattle.cil_model.specs.TreeKinds.{IsNumberClause};
ghost use Rattle.cil_model.specs.WellFormed.{ClausesWithinLimits};
ghost use Rattle.contract_extract.specs.Extracting.{AreContracts};
ghost use Rattle.cil_model.specs.Limits.{MAX_CODE_BYTES};
ghost use Rattle.method_unit.specs.Units.{AreWithin};
ghost use Rattle.method_unit.specs.UnitFile.{added_test, block_test, clause_test, start_test, told_clauses};
ghost use Rattle.unit_form.specs.Callees.{olds_in};

use cc_base::{NoMemory, Refusal};
use cil_model::{Clause, Instr, List, MAX_BLOCKS, MAX_CLAUSES, MAX_OLD_VALUES, Shape};
use contract_extract::{Contracts, extract};
use flow_graph::block_starts;
use std::alloc::Global;
use unit_form::{UnitFault, UnitRefusal};

/// The clauses of the code, which begins at the offset `base` of the file, and the start of its body.
#[tactic(auto, using(clause_faults::proofs::FaultLemmas::FaultPlaces::clause_fault_place), unfolding(crate::specs::UnitFile::clause_test))]
pub fn read_contracts(
    alloc: Global,
    instrs: &[Instr],
    shape: &Shape,
    base: u32,
) -> Result<Contracts, UnitRefusal>
    requires lie { AreOfShortCode instrs.now }
    requires targets { AllByRecursion (MeetsStarts instrs.now) instrs.now }
    requires inside { AreWithin instrs.now }
    requires small { base + MAX_CODE_BYTES < 2 ^ 32 }
    ensures judged { JudgesOrNoMemory result (clause_test base instrs.now shape.now)
        (λ contracts. AreContracts instrs.now contracts.clauses contracts.body_start) }
    ensures told { IfOk result (λ contracts. contracts.clauses ≡ told_clauses instrs.now) }
    ensures limits { IfOk result (λ contracts. ClausesWithinLimits contracts.clauses) }
    ensures numbers { (stacks : Stacks) → AreDecoded instrs.now → KindsOf shape.now instrs.now stacks
        → IfOk result (λ contracts. AllByRecursion (IsNumberClause shape.now.args shape.now.result) contracts.clauses) }
    ensures body { (stacks : Stacks) → AreDecoded instrs.now → KindsOf shape.now instrs.now stacks
        → IfOk result (λ contracts. HasBody instrs.now stacks contracts.body_start) }
{
    match extract(alloc, instrs, shape) {
        Ok(contracts) => Ok(contracts),
        Err(Refusal::Bad(fault)) => Err(Refusal::Bad(UnitFault::Form(base + fault.at()))),
        Err(Refusal::NoMemory) => Err(Refusal::NoMemory),
    }
}

/// Returns how many old values clauses have together.
fn old_values(clauses: &[Clause]) -> u32
    requires within { ClausesWithinLimits clauses.now }
    ensures { result ≡ olds_in clauses.now }
{
    let mut olds = 0;
    for clause in clauses {
        olds += clause.tree.old_count();
    }
    olds
}

/// Tests that a method may have these clauses together with those that were added, which begin at this offset of the
/// file.
#[tactic(auto, using(unit_form::proofs::AddedClauses::olds_together), unfolding(crate::specs::UnitFile::added_test))]
pub fn check_added(clauses: &[Clause], added: &[Clause], at: u32) -> Result<(), UnitFault>
    requires clauses { ClausesWithinLimits clauses.now }
    requires added { ClausesWithinLimits added.now }
    ensures { Judges result (added_test clauses.now added.now at) (λ _. ⊤) }
{
    let count = clauses.len() + added.len();
    let olds = old_values(clauses) + old_values(added);
    if count <= MAX_CLAUSES && olds as usize <= MAX_OLD_VALUES {
        Ok(())
    } else {
        Err(UnitFault::Form(at))
    }
}

/// The clauses that the code tells, and after them those that were added.
pub fn with_added(told: List<Clause>, mut added: Vec<Clause>) -> Result<List<Clause>, NoMemory>
    ensures { IfOk result (λ clauses. clauses ≡ told ++ added.items) }
{
    let mut clauses = told.into_vec();
    clauses.append(&mut added)?;
    Ok(List::from_vec(clauses))
}

/// Tests that no block starts past the limit, where blocks start at these IL offsets.
#[tactic(auto, unfolding(crate::specs::UnitFile::start_test))]
fn check_starts(starts: &[u32], base: u32) -> Result<(), UnitFault>
    requires { All (λ at. base + at < 2 ^ 32) starts.now }
    ensures { Judges result (start_test base starts.now) (λ _. ⊤) }
{
    match starts.get(MAX_BLOCKS) {
        Some(at) => Err(UnitFault::Form(base + at)),
        None => Ok(()),
    }
}

/// Tests that there are not too many blocks in the body that starts here. Few instructions make few blocks.
#[tactic(auto, using(crate::proofs::Places::blocks_within))]
pub fn check_blocks(
    alloc: Global,
    instrs: &[Instr],
    body_start: u32,
    base: u32,
) -> Result<(), UnitRefusal>
    requires lie { AreOfShortCode instrs.now }
    requires start { body_start ≡ start_of_body instrs.now }
    requires inside { AreWithin instrs.now }
    requires small { base + MAX_CODE_BYTES < 2 ^ 32 }
    ensures { JudgesOrNoMemory result (block_test base instrs.now) (λ _. ⊤) }
{
    if instrs.len() <= MAX_BLOCKS {
        return Ok(());
    }
    let starts = block_starts(alloc, instrs, body_start)?;
    check_starts(&starts, base)?;
    Ok(())
}
