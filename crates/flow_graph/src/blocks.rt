//! Where the blocks of a body start.

ghost use Rattle.std.specs.Prelude.{◌≡◌, ◌==◌, ◌||◌, ℕ, map, filter, nat_le, IfOk, OnOk};
ghost use Rattle.std.specs.List.{All, list_any};
ghost use Rattle.std.specs.List.Sorted.{IsNonDecreasing, IsNonDecreasingBy};
ghost use Rattle.cil_model.specs.Blocks.{body_of, branch_targets, ends_block, starts_at};
ghost use Rattle.flow_graph.specs.BlocksOf.{block_starts, blocks_of};
ghost use Rattle.cil_model.specs.ShortCode.{AreOfShortCode, IsOfShortCode};

use crate::sorted::{is_among, sorted};
use cc_base::NoMemory;
use cil_model::{Instr, Op, Unit};
use std::alloc::Global;
use std::slice;

/// Those of the instructions that begin at an IL offset or after it.
fn from_offset(instrs: &[Instr], at: u32) -> &[Instr]
    requires { IsNonDecreasingBy (λ i. i.at) instrs.now }
    ensures { result.now ≡ filter (λ i. nat_le at i.at) instrs.now }
{
    let start = instrs.partition_point(|i| i.at < at);
    &instrs[start..]
}

/// The instructions of the unit's body.
pub(crate) fn body(unit: &Unit) -> &[Instr]
    requires { IsNonDecreasingBy (λ i. i.at) unit.now.instrs }
    ensures { result.now ≡ body_of unit.now }
{
    from_offset(unit.instrs.as_slice(), unit.body_start)
}

/// The IL offsets to which an operation may branch.
pub(crate) fn branch_targets(op: &Op) -> &[u32]
    ensures { result.now ≡ branch_targets op.now }
{
    match op {
        Op::Branch(_, target) => slice::from_ref(target),
        Op::Switch(targets) => targets.as_slice(),
        _ => &[],
    }
}

/// Returns whether the operation is the last of its block whatever follows.
fn ends_block(op: &Op) -> bool
    ensures { result ≡ ends_block op.now }
{
    matches!(op, Op::Branch(..) | Op::Switch(_) | Op::Return)
}

/// Appends the IL offsets at which the instruction makes blocks start.
#[tactic(auto, using(crate::proofs::Marks::starts_added))]
fn push_starts(offsets: &mut Vec<u32>, instr: &Instr) -> Result<(), NoMemory>
    requires { IsOfShortCode instr.now }
    ensures { OnOk result ((at : ℕ) → list_any (λ n. n == at) offsets.new.items ≡
        (list_any (λ n. n == at) offsets.old.items || starts_at at instr.now)) }
{
    offsets.extend_from_slice(branch_targets(&instr.op))?;
    if ends_block(&instr.op) {
        offsets.push(instr.at + instr.size)?;
    }
    Ok(())
}

/// The IL offsets at which these instructions make blocks start, and this one, in any order.
fn start_offsets(alloc: Global, body: &[Instr], body_start: u32) -> Result<Vec<u32>, NoMemory>
    requires { All IsOfShortCode body.now }
    ensures { IfOk result (λ offsets. (at : ℕ) →
        list_any (λ n. n == at) offsets.items ≡ (at == body_start || list_any (starts_at at) body.now)) }
{
    let mut offsets = Vec::new(alloc);
    offsets.push(body_start)?;
    for instr in body {
        push_starts(&mut offsets, instr)?;
    }
    Ok(offsets)
}

/// The offsets of those instructions that begin at one of these, which rise.
fn offsets_among(alloc: Global, body: &[Instr], sorted: &[u32]) -> Result<Vec<u32>, NoMemory>
    requires { IsNonDecreasing sorted.now }
    ensures { IfOk result (λ offsets. offsets.items ≡
        map (λ i. i.at) (filter (λ i. list_any (λ n. n == i.at) sorted.now) body.now)) }
{
    body.iter()
        .filter(|instr| is_among(sorted, instr.at))
        .map(|instr| instr.at)
        .collect(alloc)
}

/// The IL offsets at which the blocks of a body start, also those that no path reaches (ECMA-335 III.1.7.2). The body
/// is what begins at the offset `body_start` or after it.
///
/// Its time is n log n in the number of instructions and targets.
pub fn block_starts(alloc: Global, instrs: &[Instr], body_start: u32) -> Result<Vec<u32>, NoMemory>
    requires { AreOfShortCode instrs.now }
    ensures { IfOk result (λ blocks. blocks.items ≡ block_starts instrs.now body_start) }
{
    let body = from_offset(instrs, body_start);
    let offsets = sorted(start_offsets(alloc, body, body_start)?);
    offsets_among(alloc, body, offsets.as_slice())
}

/// The IL offsets at which the blocks of the unit's body start.
pub(crate) fn blocks(alloc: Global, unit: &Unit) -> Result<Vec<u32>, NoMemory>
    requires { AreOfShortCode unit.now.instrs }
    ensures { IfOk result (λ blocks. blocks.items ≡ blocks_of unit.now) }
{
    block_starts(alloc, unit.instrs.as_slice(), unit.body_start)
}
