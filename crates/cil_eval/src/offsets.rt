//! Instructions by their IL offsets.

ghost use Rattle.std.specs.Prelude.{◌≡◌, Some, None, MatchOption};
ghost use Rattle.cil_model.specs.Offsets.{RiseFrom};
ghost use Rattle.cil_model.specs.Runs.{instr_at};

use cil_model::{Instr, index_of};

/// The instruction at an IL offset.
pub(crate) fn find(instrs: &[Instr], at: u32) -> Option<&Instr>
    requires { RiseFrom 0 instrs.now }
    ensures { MatchOption result (instr_at instrs.now at ≡ None) (λ instr. instr_at instrs.now at ≡ Some instr.now) }
{
    match index_of(instrs, at) {
        Some(index) => instrs.get(index),
        None => None,
    }
}
