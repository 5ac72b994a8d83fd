//! Invariants, read of their text.

ghost use Rattle.std.specs.Prelude.{◌≡◌, length, option_map, IfOk, IfSome};
ghost use Rattle.std.specs.List.{AllByRecursion};
ghost use Rattle.invariant_reader.specs.BlockReaders.{HasText, ReadsReached, line_prefix};
ghost use Rattle.invariant_reader.specs.Reading.{HasParts, IsReadAs};
ghost use Rattle.invariant_reader.specs.StateReaders.{ReadsBlock, ReadsBlocks};
ghost use Rattle.invariant_text.specs.Shape.{IsPrintableState};

use crate::prefixes::behind;
use crate::states::read_state;
use abs_state::AbsState;
use cil_model::Unit;
use domain_api::NoMemory;
use il_decoder::put_label;
use invariant_text::invariant_text;
use std::alloc::{AllocError, Global};

/// The line of the block that starts at an IL offset, up to what it says of being reached.
fn line_prefix(alloc: Global, at: u32) -> Result<Vec<u8>, NoMemory>
    ensures { IfOk result (λ prefix. prefix.items ≡ line_prefix at) }
{
    let mut prefix = Vec::from_slice(alloc, b"  block ")?;
    put_label(alloc, &mut prefix, at)?;
    Ok(prefix)
}

/// Whether the line of the block that starts at an IL offset says that it is reached, and what is behind the line.
fn read_reached(alloc: Global, at: u32, text: &[u8]) -> Result<Option<(bool, &[u8])>, NoMemory>
    ensures { IfOk result (λ read. ReadsReached at text.now (option_map (λ it. (it.0, it.1.now)) read)) }
{
    let prefix = line_prefix(alloc, at)?;
    let Some(left) = behind(text, &prefix) else {
        return Ok(None);
    };
    if let Some(left) = behind(left, b"\n") {
        return Ok(Some((true, left)));
    }
    let Some(left) = behind(left, b" unreachable\n") else {
        return Ok(None);
    };
    Ok(Some((false, left)))
}

/// The state of the block that starts at an IL offset, and what is behind the block.
fn read_block(alloc: Global, at: u32, text: &[u8]) -> Result<Option<(AbsState, &[u8])>, NoMemory>
    ensures printable { IfOk result (λ read. IfSome read (λ it. IsPrintableState it.0)) }
    ensures ordered { IfOk result (λ read. IfSome read (λ it. HasParts it.0)) }
    ensures reads { IfOk result (λ read. ReadsBlock at text.now (option_map (λ it. (it.0, it.1.now)) read)) }
{
    let Some(read) = read_reached(alloc, at, text)? else {
        return Ok(None);
    };
    let (reached, left) = read;
    if !reached {
        return Ok(Some((AbsState::nothing(), left)));
    }
    read_state(alloc, left)
}

/// The states of the blocks that start at these IL offsets.
fn read_blocks(
    alloc: Global,
    blocks: &[u32],
    text: &[u8],
) -> Result<Option<Vec<AbsState>>, NoMemory>
    ensures count { IfOk result (λ read. IfSome read (λ states. length states.items ≡ length blocks.now)) }
    ensures printable { IfOk result (λ read. IfSome read (λ states. AllByRecursion IsPrintableState states.items)) }
    ensures ordered { IfOk result (λ read. IfSome read (λ states. AllByRecursion HasParts states.items)) }
    ensures reads { IfOk result (λ read. ReadsBlocks blocks.now text.now (option_map (λ states. states.items) read)) }
{
    let mut states = Vec::with_capacity(alloc, blocks.len())?;
    let mut rest = text;
    for at in blocks {
        let Some(read) = read_block(alloc, *at, rest)? else {
            return Ok(None);
        };
        let (state, left) = read;
        states.push(state)?;
        rest = left;
    }
    Ok(Some(states))
}

/// Returns whether these states have this text.
fn have_text(
    alloc: Global,
    unit: &Unit,
    blocks: &[u32],
    states: &[AbsState],
    text: &[u8],
) -> Result<bool, NoMemory>
    requires each { length states.now ≡ length blocks.now }
    ensures { IfOk result (λ is. HasText unit.now blocks.now states.now text.now is) }
{
    let again = invariant_text(alloc, unit, blocks, states)?;
    Ok(again.as_slice() == text)
}

/// The states whose text this is: of a unit, of whose blocks each starts at one of these IL offsets, in order. None
/// exactly where it is the text of no states.
///
/// Cost: that of the parts of each state, and else linear in the text. Nothing is recursive on its length, and no room
/// is made by a number that it tells.
///
/// # Errors
///
/// Want of memory, which is also the answer to a text of 4 GiB or more: 32 bits name symbols and references.
pub fn read_invariant_text(
    alloc: Global,
    unit: &Unit,
    blocks: &[u32],
    text: &[u8],
) -> Result<Option<Vec<AbsState>>, NoMemory>
    // The states are those of the text. Where there are none, the text is that of no states.
    ensures exact { IfOk result (λ read. IsReadAs unit.now blocks.now text.now
        (option_map (λ states. states.items) read)) }
{
    if text.len() > u32::MAX as usize {
        return Err(AllocError);
    }
    let Some(states) = read_blocks(alloc, blocks, text)? else {
        return Ok(None);
    };
    if !have_text(alloc, unit, blocks, &states, text)? {
        return Ok(None);
    }
    Ok(Some(states))
}
