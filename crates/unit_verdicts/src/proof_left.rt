//! The proof file that a call leaves.

ghost use Rattle.std.specs.Prelude.{◌≡◌, ◌++◌, List, option_to_list, IfOk, OnOk};
ghost use Rattle.std.specs.List.{AllByRecursion};
ghost use Rattle.invariant_codec.specs.Invariants.{IsInvariant};
ghost use Rattle.method_unit.specs.UnitFile.{unit_of};
ghost use Rattle.method_unit.specs.Units.{IsUnit};
ghost use Rattle.proof_files.specs.Held.{IsMadeOf};
ghost use Rattle.proof_files.specs.Proofs.{Entry, IsEntry};
ghost use Rattle.result_cache.specs.Entries.{AreEntries};
ghost use Rattle.unit_flow.specs.FlowOf.{flow_of};
ghost use Rattle.unit_verdicts.specs.ProofLeft.{spelled_entries, spelled_entry};

use crate::analysis::{find_flow, invariant_in, readable};
use method_unit::read_unit;
use proof_files::ProofText;
use result_cache::Entries;
use stack_typer::TypedUnit;
use std::alloc::{AllocError, Global};
use transfer_rules::has_shape;
use unit_flow::UnitFlow;

/// The unit of these bytes.
fn unit_at(alloc: Global, key: &[u8]) -> Result<TypedUnit, AllocError>
    ensures value { IfOk result (λ unit. unit ≡ unit_of key.now) }
    ensures unit { IfOk result (λ unit. IsUnit unit) }
{
    match read_unit(alloc, readable(key)?) {
        Ok(unit) => Ok(unit),
        // Memory ran out, since the bytes of a unit have no fault.
        Err(_) => Err(AllocError),
    }
}

/// The same with its graph and its kinds.
fn read_flow(alloc: Global, key: &[u8]) -> Result<UnitFlow, AllocError>
    ensures value { IfOk result (λ code. code ≡ flow_of (unit_of key.now)) }
    ensures unit { IfOk result (λ code. IsUnit code.unit) }
{
    find_flow(alloc, unit_at(alloc, key)?)
}

/// Adds the unit of these bytes with the states that the other bytes spell, where they have its shape.
fn add_unit(
    alloc: Global,
    text: &mut ProofText,
    key: &[u8],
    invariant: &[u8],
) -> Result<(), AllocError>
    requires { IsInvariant invariant.now }
    ensures made { (entries : List Entry) → IsMadeOf entries text.old →
        OnOk result (IsMadeOf (entries ++ option_to_list (spelled_entry (key.now, invariant.now))) text.new) }
    ensures entry { OnOk result (AllByRecursion IsEntry (option_to_list (spelled_entry (key.now, invariant.now)))) }
{
    let code = read_flow(alloc, key)?;
    let invariant = invariant_in(alloc, readable(invariant)?)?;
    if !has_shape(&code, &invariant.states) {
        return Ok(());
    }
    text.add(alloc, &code, &invariant.states)
}

/// The text of these entries, of units with the bytes of their invariants. Those whose states have not their unit's
/// shape are left out.
///
/// Cost: linear in the bytes of the entries and in the text, and what the flow of each unit takes. No two units are
/// held at once.
pub fn proof_text<E: Entries>(alloc: Global, entries: &E) -> Result<ProofText, AllocError>
    requires { AreEntries (E.entries entries.now) }
    ensures made { IfOk result (IsMadeOf (spelled_entries (E.entries entries.now))) }
    ensures entries { IfOk result (λ _. AllByRecursion IsEntry (spelled_entries (E.entries entries.now))) }
{
    let mut text = ProofText::begin(alloc)?;
    for place in 0..entries.count() {
        let Some((key, invariant)) = entries.entry_at(place) else {
            return Ok(text);
        };
        add_unit(alloc, &mut text, key, invariant)?;
    }
    Ok(text)
}
