//! Entries, read from the bytes of their units and the lines of their invariants.

ghost use Rattle.std.specs.Prelude.{◌≡◌, ◌≤◌, length, option_map, IfOk};
ghost use Rattle.unit_flow.specs.Flow.{IsLawful};
ghost use Rattle.std.specs.Str.{bytes_eq};
ghost use Rattle.proof_files.specs.Held.{told};
ghost use Rattle.proof_files.specs.Steps.{AreStatesOf, IsEntryOf, IsUnitOf};

use crate::proof_entry::ProofEntry;
use abs_state::{AbsState, Invariant};
use cc_base::{NoMemory, Refusal};
use invariant_reader::read_invariant_text;
use method_unit::{read_unit, unit_bytes};
use stack_typer::TypedUnit;
use std::alloc::{AllocError, Global};
use transfer_rules::has_shape;
use unit_flow::UnitFlow;

/// Returns whether two byte strings are the same.
fn are_same(a: &[u8], b: &[u8]) -> bool
    ensures { result ≡ bytes_eq a.now b.now }
{
    a == b
}

/// The unit whose bytes these are. There is none where they spell a unit in another form.
fn read_key(alloc: Global, key: &[u8]) -> Result<Option<TypedUnit>, NoMemory>
    requires short { length key.now ≤ 2147483647 }
    ensures { IfOk result (IsUnitOf key.now) }
{
    match read_unit(alloc, key) {
        Ok(unit) => {
            let bytes = unit_bytes(alloc, unit.unit())?;
            if are_same(&bytes, key) {
                Ok(Some(unit))
            } else {
                Ok(None)
            }
        }
        Err(Refusal::Bad(_)) => Ok(None),
        Err(Refusal::NoMemory) => Err(AllocError),
    }
}

/// The states whose text the lines are, where they have the unit's shape.
fn read_states(
    alloc: Global,
    code: &UnitFlow,
    lines: &[u8],
) -> Result<Option<Vec<AbsState>>, NoMemory>
    requires lawful { IsLawful code.now }
    ensures { IfOk result (λ read. AreStatesOf code.now lines.now (option_map (λ states. states.items) read)) }
{
    let blocks = code.graph.blocks.as_slice();
    let Some(states) = read_invariant_text(alloc, &code.unit, blocks, lines)? else {
        return Ok(None);
    };
    if has_shape(code, &states) {
        Ok(Some(states))
    } else {
        Ok(None)
    }
}

/// The entry of the unit whose bytes these are, with the states whose text the lines are.
pub(crate) fn read_entry(
    alloc: Global,
    key: &[u8],
    lines: &[u8],
) -> Result<Option<ProofEntry>, NoMemory>
    requires short { length key.now ≤ 2147483647 }
    ensures { IfOk result (λ read. IsEntryOf key.now lines.now (option_map told read)) }
{
    let Some(unit) = read_key(alloc, key)? else {
        return Ok(None);
    };
    let code = UnitFlow::of(alloc, unit)?;
    let Some(states) = read_states(alloc, &code, lines)? else {
        return Ok(None);
    };
    Ok(Some(ProofEntry {
        unit: code.unit,
        inv: Invariant { states },
    }))
}
