//! The verdicts on the obligations of a unit.

ghost use Rattle.std.specs.Prelude.{◌≡◌, ◌++◌, ◌*◌, ◌<◌, ◌≤◌, All, IfOk, IsTrue, OnOk, length, map};
ghost use Rattle.cil_model.specs.Limits.{MAX_CLAUSES};
ghost use Rattle.cil_model.specs.WellFormed.{IsWellFormed};
ghost use Rattle.obligation_prover.specs.ClausesTested.{CanTest, tested_by};
ghost use Rattle.obligation_prover.specs.Obligations.{obligations_of};
ghost use Rattle.transfer_rules.specs.Flow.{Fits, before_last, up_to_last};
ghost use Rattle.transfer_rules.specs.Inductive.{AreBeforeLast, HasShape, IsInductive};
ghost use Rattle.unit_flow.specs.Flow.{IsLawful};
ghost use Rattle.invariant_checker.specs.Counts as counts;
ghost use Rattle.invariant_checker.specs.Safety.{IsSafe};
ghost use Rattle.invariant_checker.specs.Verdicts as rule;
ghost use Rattle.invariant_checker.specs.Verdicts.{CanJudge};

use crate::verdict::Verdict;
use abs_state::{AbsState, Invariant};
use cil_model::{Instr, Obligation, Unit};
use domain_api::NoMemory;
use obligation_prover::{
    Tested, avoid, clause_obligation, clauses_shown, faults_of, obligations, rules_out, tested_by,
};
use std::alloc::Global;
use transfer_rules::{all_carried, are_begun, post};
use unit_flow::UnitFlow;

/// Appends a verdict for each own fault of an instruction. Each is judged where those before it are assumed not to have
/// come.
fn push_in_turn(
    found: &mut Vec<Verdict>,
    mut state: AbsState,
    unit: &Unit,
    instr: &Instr,
) -> Result<(), NoMemory>
    ensures { OnOk result (found.new.items ≡ found.old.items ++ rule.own_verdicts unit.now instr.now state) }
{
    for kind in faults_of(unit, &instr.op) {
        found.push(Verdict {
            obligation: Obligation {
                at: instr.at,
                kind: *kind,
                callee: None,
            },
            proved: rules_out(&state, unit, &instr.op, *kind),
        })?;
        state = avoid(state, unit, &instr.op, *kind)?;
    }
    Ok(())
}

/// Appends the verdicts on the own faults of an instruction, from the state before it. An instruction without any costs
/// nothing, and any other one a copy of the state.
fn push_own(
    alloc: Global,
    found: &mut Vec<Verdict>,
    state: &AbsState,
    unit: &Unit,
    instr: &Instr,
) -> Result<(), NoMemory>
    ensures { OnOk result (found.new.items ≡ found.old.items ++ rule.own_verdicts unit.now instr.now state.now) }
{
    if faults_of(unit, &instr.op).is_empty() {
        return Ok(());
    }
    push_in_turn(found, state.copy(alloc)?, unit, instr)
}

/// Appends a verdict for each clause that an instruction tests, by whether it is shown.
fn push_shown(
    found: &mut Vec<Verdict>,
    instr: &Instr,
    test: Tested,
    shown: &[bool],
) -> Result<(), NoMemory>
    requires few { length shown.now ≤ MAX_CLAUSES }
    ensures { OnOk result (found.new.items ≡ found.old.items ++ rule.clauses_from instr.now test 1 shown.now) }
{
    for before in 0..shown.len() {
        found.push(Verdict {
            obligation: clause_obligation(instr, test, before as u8 + 1),
            proved: shown[before],
        })?;
    }
    Ok(())
}

/// Appends the verdicts on the clauses that an instruction tests, from the state before it.
#[tactic(auto, using(crate::proofs::ClauseVerdicts::few_shown))]
fn push_clauses(
    alloc: Global,
    found: &mut Vec<Verdict>,
    state: &AbsState,
    unit: &Unit,
    instr: &Instr,
) -> Result<(), NoMemory>
    requires formed { IsWellFormed unit.now }
    requires ready { CanTest unit.now (tested_by unit.now instr.now.op) state.now }
    ensures { OnOk result (found.new.items ≡ found.old.items ++ rule.clause_verdicts unit.now instr.now state.now) }
{
    let before = state.copy(alloc)?;
    let shown = clauses_shown(alloc, unit, &instr.op, before)?;
    push_shown(found, instr, tested_by(unit, &instr.op), shown.as_slice())
}

/// Appends them where the instruction tests any clauses. Any other one costs nothing.
fn push_tested(
    alloc: Global,
    found: &mut Vec<Verdict>,
    state: &AbsState,
    unit: &Unit,
    instr: &Instr,
) -> Result<(), NoMemory>
    requires formed { IsWellFormed unit.now }
    requires ready { CanTest unit.now (tested_by unit.now instr.now.op) state.now }
    ensures { OnOk result (found.new.items ≡ found.old.items ++ rule.clause_verdicts unit.now instr.now state.now) }
{
    match tested_by(unit, &instr.op) {
        Tested::Nothing => Ok(()),
        Tested::Callee(_) | Tested::Own => push_clauses(alloc, found, state, unit, instr),
    }
}

/// Appends the verdicts at an instruction, from the state before it.
fn push_verdicts(
    alloc: Global,
    found: &mut Vec<Verdict>,
    state: &AbsState,
    unit: &Unit,
    instr: &Instr,
) -> Result<(), NoMemory>
    requires formed { IsWellFormed unit.now }
    requires ready { CanTest unit.now (tested_by unit.now instr.now.op) state.now }
    ensures { OnOk result (found.new.items ≡ found.old.items ++ rule.verdicts_at unit.now instr.now state.now) }
{
    push_own(alloc, found, state, unit, instr)?;
    push_tested(alloc, found, state, unit, instr)
}

/// Appends the verdicts at the instructions of a block, from the state before the first of them. Answers the state
/// before the last.
fn judge_instrs(
    alloc: Global,
    found: &mut Vec<Verdict>,
    unit: &Unit,
    instrs: &[Instr],
    mut state: AbsState,
) -> Result<AbsState, NoMemory>
    requires formed { IsWellFormed unit.now }
    requires ready { CanJudge unit.now instrs.now state }
    ensures found { OnOk result (found.new.items ≡ found.old.items ++ rule.verdicts_from unit.now instrs.now state) }
    ensures before { IfOk result (λ before. before ≡ up_to_last unit.now instrs.now state) }
{
    let [others @ .., last] = instrs else {
        return Ok(state);
    };
    for instr in others {
        push_verdicts(alloc, found, &state, unit, instr)?;
        state = post(alloc, state, unit, &instr.op)?;
    }
    push_verdicts(alloc, found, &state, unit, last)?;
    Ok(state)
}

/// Appends the verdicts in a block, from its state. Answers the state before its last instruction.
fn judge_block(
    alloc: Global,
    found: &mut Vec<Verdict>,
    code: &UnitFlow,
    block: u32,
    state: &AbsState,
) -> Result<AbsState, NoMemory>
    requires lawful { IsLawful code.now }
    requires there { block < length code.now.graph.blocks }
    requires fits { Fits code.now block state.now }
    ensures found { OnOk result (found.new.items ≡ found.old.items ++ rule.verdicts_of_block code.now state.now block) }
    ensures before { IfOk result (λ before. before ≡ before_last state.now code.now block) }
{
    let begun = state.copy(alloc)?;
    judge_instrs(alloc, found, &code.unit, code.block(block), begun)
}

/// What one walk through each block tells.
#[derive(Drop)]
struct Judged {
    /// The verdicts, in the order of the code.
    found: Vec<Verdict>,
    /// For each block the state before its last instruction.
    befores: Vec<AbsState>,
}

/// The verdicts in all blocks, in order, and the states before the last instructions of the blocks.
fn judge_blocks(alloc: Global, code: &UnitFlow, states: &[AbsState]) -> Result<Judged, NoMemory>
    requires lawful { IsLawful code.now }
    requires shape { HasShape code.now states.now }
    ensures found { IfOk result (λ judged. judged.found.items ≡ rule.verdicts_by_blocks code.now states.now) }
    ensures befores { IfOk result (λ judged. AreBeforeLast code.now states.now judged.befores.items) }
{
    let mut found = Vec::new(alloc);
    let mut befores = Vec::with_capacity(alloc, states.len())?;
    for block in 0..states.len() {
        let before = judge_block(alloc, &mut found, code, block as u32, &states[block])?;
        befores.push(before)?;
    }
    Ok(Judged { found, befores })
}

/// Each obligation of a unit, unproved.
fn all_unproved(alloc: Global, unit: &Unit) -> Result<Vec<Verdict>, NoMemory>
    requires formed { IsWellFormed unit.now }
    ensures { IfOk result (λ found. found.items ≡ map rule.unproved (obligations_of unit.now)) }
{
    let listed = obligations(alloc, unit)?;
    let mut found = Vec::new(alloc);
    for obligation in listed.as_slice() {
        found.push(Verdict {
            obligation: *obligation,
            proved: false,
        })?;
    }
    Ok(found)
}

/// The verdicts.
fn find_verdicts(
    alloc: Global,
    code: &UnitFlow,
    states: &[AbsState],
) -> Result<Vec<Verdict>, NoMemory>
    requires { IsLawful code.now }
    ensures { IfOk result (λ found. found.items ≡ rule.verdicts code.now states.now) }
{
    if !are_begun(alloc, code, states)? {
        return all_unproved(alloc, &code.unit);
    }
    let Judged { found, befores } = judge_blocks(alloc, code, states)?;
    if all_carried(alloc, code, states, befores.as_slice())? {
        Ok(found)
    } else {
        all_unproved(alloc, &code.unit)
    }
}

/// Returns whether each obligation of a unit is proved by an invariant, which may have come from anywhere: where it is
/// none of this unit, nothing is proved.
///
/// Cost: one walk through each block, with a copy of the state at each instruction that has obligations, and that of
/// `all_carried`.
pub fn judge(
    alloc: Global,
    code: &UnitFlow,
    invariant: &Invariant,
) -> Result<Vec<Verdict>, NoMemory>
    requires lawful { IsLawful code.now }
    ensures value { IfOk result (λ found. found.items ≡ rule.verdicts code.now invariant.now.states.items) }
    // There is one verdict for each obligation, in the order of the code.
    ensures each { IfOk result (λ found.
        map (λ verdict. verdict.obligation) found.items ≡ obligations_of code.now.unit) }
    // Nothing is proved by what is no invariant of the unit.
    ensures inductive { IfOk result (λ found.
        All (λ verdict. IsTrue verdict.proved → IsInductive code.now invariant.now.states.items) found.items) }
    // A unit whose obligations are all proved is safe.
    ensures sound { IfOk result (λ found. IsTrue (counts.all_proved found.items) → IsSafe code.now.unit) }
    // An instruction has no more obligations than a method may have clauses.
    ensures few { IfOk result (λ found. length found.items ≤ MAX_CLAUSES * length code.now.unit.instrs) }
    ensures inside { IfOk result (λ found.
        All (λ verdict. verdict.obligation.at < length code.now.unit.code) found.items) }
{
    let found = find_verdicts(alloc, code, invariant.states.as_slice())?;
    Ok(found)
}
