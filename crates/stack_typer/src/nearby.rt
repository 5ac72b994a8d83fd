//! Where instructions begin, beside a place that is likely.

ghost use Rattle.std.specs.Prelude.{◌≡◌, false, MatchOption};
ghost use Rattle.cil_model.specs.Code.{begins_at};
ghost use Rattle.cil_model.specs.Offsets.{AreLaidOut, BeginsAt};

use cil_model::{Instr, index_of};

/// The index of the instruction that begins at an IL offset, if one does.
///
/// Cost: none where it is the one that is guessed, and else that of a search by halving.
#[tactic(auto, using(cil_model::proofs::OffsetSearch::laid_rise, crate::proofs::OffsetLemmas::begins_here))]
pub fn index_near(instrs: &[Instr], guess: usize, at: u32) -> Option<usize>
    requires { AreLaidOut instrs.now }
    ensures { MatchOption result (begins_at instrs.now at ≡ false) (BeginsAt instrs.now at) }
{
    match instrs.get(guess) {
        Some(instr) if instr.at == at => Some(guess),
        _ => index_of(instrs, at),
    }
}
