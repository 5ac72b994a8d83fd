//! What may follow an instruction (ECMA-335 III.1.7.5).

ghost use Rattle.std.specs.Prelude.{◌≡◌, Some, option_map, slice_get};
ghost use Rattle.cil_model.specs.Blocks.{branch_targets};
ghost use Rattle.cil_model.specs.Offsets.{AreLaidOut};
ghost use Rattle.cil_model.specs.Passes.{goes_behind};
ghost use Rattle.stack_typer.specs.Successors.{next_offset};

use cil_model::{Instr, Op, Test};
use std::slice;

/// The IL offsets to which an operation may branch.
pub fn branch_targets(op: &Op) -> &[u32]
    ensures { result.now ≡ branch_targets op.now }
{
    match op {
        Op::Branch(_, target) => slice::from_ref(target),
        Op::Switch(targets) => targets.as_slice(),
        _ => &[],
    }
}

fn goes_behind(op: &Op) -> bool
    ensures { result ≡ goes_behind op.now }
{
    !matches!(op, Op::Return | Op::Branch(Test::Always, _))
}

/// The IL offset after the instruction of this index, as a list, where the instruction may go on there.
/// There is no list where the code ends there.
#[tactic(auto, using(crate::proofs::OffsetLemmas::goes_on, crate::proofs::OffsetLemmas::ends_there))]
pub fn next_offset<'a>(instrs: &'a [Instr], index: usize, instr: &Instr) -> Option<&'a [u32]>
    requires laid_out { AreLaidOut instrs.now }
    requires there { slice_get instrs.now index ≡ Some instr.now }
    ensures { option_map (λ offsets. offsets.now) result ≡ next_offset instrs.now instr.now }
{
    if !goes_behind(&instr.op) {
        return Some(&[]);
    }
    let next = instrs.get(index + 1)?;
    Some(slice::from_ref(&next.at))
}
