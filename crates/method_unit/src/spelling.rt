//! Units, written as files.

ghost use Rattle.std.specs.Prelude.{◌≡◌, IfOk};
ghost use Rattle.unit_form.specs.Spelling.{unit_bytes};
ghost use Rattle.method_unit.specs.Units.{IsUnit};

use cil_model::Unit;
use std::alloc::{AllocError, Global};

/// The file of a unit in the second form, or in the third where clauses were added; it is the key under which the unit
/// is kept. `read_unit` reads it back.
///
/// Cost: linear in the length of the file.
#[tactic(auto, using(crate::proofs::UnitAgain::unit_has_fields))]
pub fn unit_bytes(alloc: Global, unit: &Unit) -> Result<Vec<u8>, AllocError>
    requires { IsUnit unit.now }
    ensures { IfOk result (λ bytes. bytes.items ≡ unit_bytes unit.now) }
{
    unit_form::unit_bytes(alloc, unit)
}
