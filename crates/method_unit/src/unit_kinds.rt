//! The kinds of a unit's code.

ghost use Rattle.std.specs.Prelude.{◌≡◌, ◌+◌, ◌<◌, ◌^◌};
ghost use Rattle.cc_base.specs.Tests.{JudgesOrNoMemory};
ghost use Rattle.cil_model.specs.Passes.{KindsOf};
ghost use Rattle.stack_typer.specs.FaultPlaces.{type_fault_at};
ghost use Rattle.cil_model.specs.Offsets.{AreLaidOut};
ghost use Rattle.cil_model.specs.Limits.{MAX_CODE_BYTES};
ghost use Rattle.method_unit.specs.UnitFile.{typing_test};
ghost use Rattle.method_unit.specs.Units.{AreWithin};

use cc_base::Refusal;
use cil_model::{Instr, Shape, TypeFault};
use stack_typer::{Kinds, type_code};
use std::alloc::Global;
use unit_form::{UnitFault, UnitRefusal};

/// The IL offset that a fault of kinds names.
fn type_fault_at(fault: TypeFault) -> u32
    ensures { result ≡ type_fault_at fault }
{
    match fault {
        TypeFault::Underflow(at)
        | TypeFault::Conflict(at)
        | TypeFault::WrongKind(at)
        | TypeFault::FallsOff(at)
        | TypeFault::Deep(at) => at,
    }
}

/// Finds the kinds of code that begins at the offset `base` of the file.
#[tactic(auto, using(stack_typer::proofs::FaultPlaces::type_fault_place), unfolding(crate::specs::UnitFile::typing_test))]
pub fn find_kinds(
    alloc: Global,
    instrs: &[Instr],
    shape: &Shape,
    base: u32,
) -> Result<Kinds, UnitRefusal>
    requires lie { AreLaidOut instrs.now }
    requires inside { AreWithin instrs.now }
    requires small { base + MAX_CODE_BYTES < 2 ^ 32 }
    ensures { JudgesOrNoMemory result (typing_test base instrs.now shape.now) (KindsOf shape.now instrs.now) }
{
    match type_code(alloc, instrs, shape) {
        Ok(kinds) => Ok(kinds),
        Err(Refusal::Bad(fault)) => Err(Refusal::Bad(UnitFault::Form(base + type_fault_at(fault)))),
        Err(Refusal::NoMemory) => Err(Refusal::NoMemory),
    }
}
