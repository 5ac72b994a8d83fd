//! The bytes of instructions.

ghost use Rattle.std.specs.Prelude.{◌≡◌, ℕ, List, IfOk};
ghost use Rattle.cil_model.specs.Code.{CodeOf};
ghost use Rattle.method_code.specs.Numbering.{spelled_code};

use cc_base::NoMemory;
use cil_model::Instr;
use il_decoder::spell;
use std::alloc::Global;

/// The code that these instructions are decoded from, which is one and no other.
///
/// Cost: linear in the length of the code.
pub fn spell_code(alloc: Global, instrs: &[Instr]) -> Result<Vec<u8>, NoMemory>
    requires spelled { (code : List ℕ) × CodeOf instrs.now code }
    ensures value { IfOk result (λ code. code.items ≡ spelled_code instrs.now) }
    ensures spelled { IfOk result (λ code. CodeOf instrs.now code.items) }
{
    let mut code = Vec::new(alloc);
    for instr in instrs {
        spell(alloc, instr, &mut code)?;
    }
    Ok(code)
}
