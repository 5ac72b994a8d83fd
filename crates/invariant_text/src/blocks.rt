//! The text of an invariant.

ghost use Rattle.std.specs.Prelude.{◌≡◌, ◌++◌, List, length, IfOk, OnOk};
ghost use Rattle.state_facts.specs.StateFacts.{State};
ghost use Rattle.invariant_text.specs.InvariantText.{block_end, block_line, block_text, invariant_text};
ghost use Rattle.invariant_text.specs.Shape.{AreOfBlocks};

use crate::states::put_state_lines;
use abs_state::AbsState;
use cil_model::Unit;
use domain_api::NoMemory;
use il_decoder::put_label;
use std::alloc::Global;

/// The end of a block's line.
fn block_end(reached: bool) -> &'static [u8]
    ensures { result.now ≡ block_end reached }
{
    if reached { b"\n" } else { b" unreachable\n" }
}

/// Appends the line of the block that starts at an IL offset.
#[tactic(auto, unfolding(crate::specs::InvariantText::block_line))]
fn put_block_line(alloc: Global, out: &mut Vec<u8>, at: u32, reached: bool) -> Result<(), NoMemory>
    ensures { OnOk result (out.new.items ≡ out.old.items ++ block_line at reached) }
{
    out.extend_from_slice(b"  block ")?;
    put_label(alloc, out, at)?;
    out.extend_from_slice(block_end(reached))
}

/// Appends a block's line, and then what holds at its start.
fn put_block(
    alloc: Global,
    out: &mut Vec<u8>,
    unit: &Unit,
    at: u32,
    state: &AbsState,
) -> Result<(), NoMemory>
    ensures { OnOk result (out.new.items ≡ out.old.items ++ block_text unit.now at state.now) }
{
    let parts = state.parts(alloc)?;
    put_block_line(alloc, out, at, parts.reached)?;
    if !parts.reached {
        return Ok(());
    }
    put_state_lines(alloc, out, unit, &parts)
}

/// Appends each block.
fn put_blocks(
    alloc: Global,
    out: &mut Vec<u8>,
    unit: &Unit,
    blocks: &[u32],
    states: &[AbsState],
) -> Result<(), NoMemory>
    requires each { length states.now ≡ length blocks.now }
    ensures { OnOk result (out.new.items ≡ out.old.items ++ invariant_text unit.now blocks.now states.now) }
{
    for i in 0..blocks.len() {
        put_block(alloc, out, unit, blocks[i], &states[i])?;
    }
    Ok(())
}

/// The blocks of an invariant as text.
fn blocks_text(
    alloc: Global,
    unit: &Unit,
    blocks: &[u32],
    states: &[AbsState],
) -> Result<Vec<u8>, NoMemory>
    requires each { length states.now ≡ length blocks.now }
    ensures { IfOk result (λ text. text.items ≡ invariant_text unit.now blocks.now states.now) }
{
    let mut text = Vec::new(alloc);
    put_blocks(alloc, &mut text, unit, blocks, states)?;
    Ok(text)
}

/// The text of a unit's invariant: for each block its line, and then the lines of what holds at its start. The blocks
/// start at these IL offsets, and have these states.
///
/// Cost: that of the parts of each state, and else one pass over them, linear in the text.
///
/// # Errors
///
/// Want of memory.
pub fn invariant_text(
    alloc: Global,
    unit: &Unit,
    blocks: &[u32],
    states: &[AbsState],
) -> Result<Vec<u8>, NoMemory>
    requires each { length states.now ≡ length blocks.now }
    ensures value { IfOk result (λ text. text.items ≡ invariant_text unit.now blocks.now states.now) }
    // Two invariants that differ have different texts.
    ensures distinct { (first second : List State) → AreOfBlocks blocks.now first → AreOfBlocks blocks.now second
        → invariant_text unit.now blocks.now first ≡ invariant_text unit.now blocks.now second → first ≡ second }
{
    blocks_text(alloc, unit, blocks, states)
}
