//! What is wrong with an instruction of a clause's code by itself, whatever way comes to it.

ghost use Rattle.std.specs.Prelude.{◌≡◌, ◌||◌, nat_le, nat_lt, slice_get, Some};
ghost use Rattle.std.specs.List.{list_any};
ghost use Rattle.cil_model.specs.Blocks.{branch_targets, closes, is_closing_call};
ghost use Rattle.cil_model.specs.ClauseTrees.{closed_by, closing};
ghost use Rattle.cil_model.specs.UnitCalls.{unit_call};
ghost use Rattle.clause_faults.specs.ClauseLies.{LieInOrder};
ghost use Rattle.clause_faults.specs.Faults.{branch_faults, faults_of, first_fault, is_misplaced, is_requires};
ghost use Rattle.clause_faults.specs.Ways.{is_old, is_old_value};

use crate::clause_fault::ClauseFault;
use crate::first_fault::{either, fault_if};
use crate::pure_code::is_pure;
use crate::ways::made_values::asked_by;
use cil_model::{Instr, Op, Place, Shape, UnitCall, unit_call};
use std::slice;

/// Returns whether the operation closes a clause, or the contract block.
pub fn closes(op: &Op) -> bool
    ensures { result ≡ closes op.now }
{
    match op {
        Op::Call(number) => matches!(
            unit_call(*number),
            Some(UnitCall::Requires(_) | UnitCall::Ensures(_) | UnitCall::EndContractBlock)
        ),
        _ => false,
    }
}

/// Returns whether the operation closes a `Requires`.
fn closes_requires(op: &Op) -> bool
    ensures { result ≡ is_requires (closing op.now) }
{
    match op {
        Op::Call(number) => matches!(unit_call(*number), Some(UnitCall::Requires(_))),
        _ => false,
    }
}

/// Returns whether the operation is a call of `OldValue`.
fn is_old_value(op: &Op) -> bool
    ensures { result ≡ is_old_value op.now }
{
    match op {
        Op::Call(number) => matches!(unit_call(*number), Some(UnitCall::OldValue(_))),
        _ => false,
    }
}

/// The IL offsets to which an operation may branch.
pub fn branch_targets(op: &Op) -> &[u32]
    ensures { result.now ≡ branch_targets op.now }
{
    match op {
        Op::Branch(_, target) => slice::from_ref(target),
        Op::Switch(targets) => targets.as_slice(),
        _ => &[],
    }
}

/// Returns whether one of the offsets is this one, or lies below it.
fn goes_back(at: u32, targets: &[u32]) -> bool
    ensures { result ≡ list_any (λ target. nat_le target at) targets.now }
{
    targets.iter().any(|target| *target <= at)
}

/// Returns whether one of the offsets lies outside these.
fn goes_out(start: u32, end: u32, targets: &[u32]) -> bool
    ensures { result ≡ list_any (λ target. nat_lt target start || nat_lt end target) targets.now }
{
    targets
        .iter()
        .any(|target| *target < start || end < *target)
}

/// The first fault of the branches of an instruction, in a clause between these IL offsets.
#[tactic(auto, using(crate::proofs::FaultLemmas::Earliest::appended_faults))]
fn branch_fault(start: u32, closing: &Instr, instr: &Instr) -> Option<ClauseFault>
    ensures { result ≡ first_fault (branch_faults start closing.now instr.now) }
{
    let targets = branch_targets(&instr.op);
    let backward = goes_back(instr.at, targets);
    let outside = goes_out(start, closing.at, targets);
    either(
        fault_if(backward, ClauseFault::Backward(instr.at)),
        fault_if(outside, ClauseFault::IntoBlock(instr.at)),
    )
}

/// Returns whether a `Result` or an `OldValue` stands in a `Requires`, or a `Result` is of another place than the
/// method's.
fn is_misplaced(result_place: Place, closing_op: &Op, instr: &Instr) -> bool
    ensures { result ≡ is_misplaced result_place (closing closing_op.now) instr.now }
{
    match asked_by(&instr.op) {
        Some(place) => {
            closes_requires(closing_op)
                || (!is_old_value(&instr.op) && place.number() != result_place.number())
        }
        None => false,
    }
}

/// The first fault of the instruction of this index, in a clause between these IL offsets.
#[tactic(auto, using(crate::proofs::FaultLemmas::Earliest::appended_faults))]
pub(crate) fn own_fault(
    instrs: &[Instr],
    index: usize,
    instr: &Instr,
    shape: &Shape,
    start: u32,
    closing: &Instr,
) -> Option<ClauseFault>
    requires lie { LieInOrder instrs.now }
    requires there { slice_get instrs.now index ≡ Some instr.now }
    ensures { result ≡ first_fault (faults_of instrs.now shape.now start closing.now instr.now) }
{
    let at = instr.at;
    let impure = fault_if(!is_pure(instrs, index, instr), ClauseFault::NotPure(at));
    let branch = branch_fault(start, closing, instr);
    let misplaced = is_misplaced(shape.result, &closing.op, instr);
    either(
        either(impure, branch),
        fault_if(misplaced, ClauseFault::OldForm(at)),
    )
}
