//! Instructions by their IL offsets.

ghost use Rattle.std.specs.Prelude.{◌≡◌, ◌==◌, ℕ, false, None, MatchOption};
ghost use Rattle.std.specs.Option.{option_map_or};
ghost use Rattle.cil_model.specs.Code.{begins_at};
ghost use Rattle.cil_model.specs.Offsets.{BeginsAt, RiseFrom, StandsAt, begins_with};
ghost use Rattle.cil_model.specs.Runs.{instr_at};

use crate::instruction::Instr;

/// The index of the instruction that begins at an IL offset, if one does.
///
/// Cost: that of a search by halving.
pub fn index_of(instrs: &[Instr], at: u32) -> Option<usize>
    requires rise { RiseFrom 0 instrs.now }
    ensures stands { MatchOption result (instr_at instrs.now at ≡ None) (StandsAt instrs.now at) }
    ensures begins { MatchOption result (begins_at instrs.now at ≡ false) (BeginsAt instrs.now at) }
    // No other instruction begins there.
    ensures only { (other : ℕ) → begins_with instrs.now at other ≡ option_map_or (λ index. index == other) result false }
{
    instrs.binary_search_by_key(&at, |instr| instr.at).ok()
}
