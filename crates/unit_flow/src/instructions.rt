//! Instructions of a code, found by halving.

ghost use Rattle.std.specs.Prelude.{◌≡◌, filter, nat_le, nat_lt};
ghost use Rattle.std.specs.List.Sorted.{IsNonDecreasingBy};

use cil_model::Instr;

/// Those of the instructions that begin at an IL offset or after it.
pub(crate) fn from_offset(instrs: &[Instr], at: u32) -> &[Instr]
    requires { IsNonDecreasingBy (λ i. i.at) instrs.now }
    ensures { result.now ≡ filter (λ i. nat_le at i.at) instrs.now }
{
    let start = instrs.partition_point(|i| i.at < at);
    &instrs[start..]
}

/// Those that begin before it.
pub(crate) fn before_offset(instrs: &[Instr], at: u32) -> &[Instr]
    requires { IsNonDecreasingBy (λ i. i.at) instrs.now }
    ensures { result.now ≡ filter (λ i. nat_lt i.at at) instrs.now }
{
    let end = instrs.partition_point(|i| i.at < at);
    &instrs[..end]
}
