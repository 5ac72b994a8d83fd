//! What is wrong with the body of a method, after the contract block.

ghost use Rattle.std.specs.Prelude.{◌≡◌, ◌||◌, flat_map, nat_lt, true, false};
ghost use Rattle.std.specs.List.{list_any};
ghost use Rattle.std.specs.Option.{option_map_or};
ghost use Rattle.cil_model.specs.Blocks.{branch_targets};
ghost use Rattle.clause_faults.specs.Faults.{body_faults, first_fault};
ghost use Rattle.clause_faults.specs.Ways.{asked_by};

use cil_model::{Instr, Op};
use clause_faults::{ClauseFault, asked_by, branch_targets, either, fault_if};

/// Returns whether an operation of the body branches into the block before it.
fn goes_into_block(start: u32, op: &Op) -> bool
    ensures { result ≡ list_any (λ target. nat_lt target start) (branch_targets op.now) }
{
    branch_targets(op).iter().any(|target| *target < start)
}

/// Returns whether an operation is a call of `Result` or `OldValue`.
fn asks(op: &Op) -> bool
    ensures { result ≡ option_map_or (λ place. true) (asked_by op.now) false }
{
    asked_by(op).is_some()
}

/// The first fault of an instruction of the body.
#[tactic(auto, using(clause_faults::proofs::FaultLemmas::Earliest::appended_faults))]
fn body_fault(start: u32, instr: &Instr) -> Option<ClauseFault>
    ensures { result ≡ first_fault (body_faults start instr.now) }
{
    either(
        fault_if(
            goes_into_block(start, &instr.op),
            ClauseFault::IntoBlock(instr.at),
        ),
        fault_if(asks(&instr.op), ClauseFault::OldForm(instr.at)),
    )
}

/// The first fault of a body that starts at this IL offset.
pub(crate) fn first_body_fault(start: u32, body: &[Instr]) -> Option<ClauseFault>
    ensures { result ≡ first_fault (flat_map (body_faults start) body.now) }
{
    let mut first = None;
    for instr in body {
        first = either(first, body_fault(start, instr));
    }
    first
}
