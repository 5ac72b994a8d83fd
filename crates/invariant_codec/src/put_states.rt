//! States, written.

ghost use Rattle.std.specs.Prelude.{◌≡◌, ◌++◌, true, length, map, IfOk, OnOk};
ghost use Rattle.std.specs.List.{AllByRecursion, flat_map};
ghost use Rattle.std.specs.Option.{ForSome};
ghost use Rattle.abs_state.specs.StateParts.{AreParts, parts_of};
ghost use Rattle.invariant_codec.specs.Invariants.{IsInvariant};
ghost use Rattle.invariant_codec.specs.Spellable.{AreSpellable, IsSpellable};
ghost use Rattle.invariant_codec.specs.Spelling.{known_bytes, parts_bytes, state_bytes, states_bytes};
ghost use Rattle.invariant_codec.specs.States.{states_file};
ghost use Rattle.state_facts.specs.Sizes.{AreSmall, IsSmall};

use crate::constants::read_constants;
use crate::put_arrays::put_references;
use crate::put_numbers::{put_byte, put_ranges, put_u16};
use crate::put_symbols::{put_definitions, put_pairs, put_rows, put_variables};
use abs_state::{AbsState, Invariant, Parts};
use domain_api::NoMemory;
use std::alloc::Global;

/// Appends what is known where something is reached.
#[tactic(auto, unfolding(crate::specs::Spelling::known_bytes))]
fn put_known(out: &mut Vec<u8>, parts: &Parts) -> Result<(), NoMemory>
    requires are { AreParts parts.now }
    requires reached { parts.now.reached ≡ true }
    ensures { OnOk result (out.new.items ≡ out.old.items ++ known_bytes parts.now) }
{
    put_ranges(out, &parts.ranges)?;
    put_u16(out, parts.references.len() as u64)?;
    put_references(out, &parts.references, &parts.contents)?;
    put_variables(out, &parts.variables)?;
    put_rows(out, &parts.bounds)?;
    put_definitions(out, &parts.definitions)?;
    put_pairs(out, &parts.apart)
}

/// Appends a state by its parts.
#[tactic(auto, unfolding(crate::specs::Spelling::parts_bytes))]
fn put_parts(out: &mut Vec<u8>, parts: &Parts) -> Result<(), NoMemory>
    requires are { AreParts parts.now }
    ensures { OnOk result (out.new.items ≡ out.old.items ++ parts_bytes parts.now) }
{
    if !parts.reached {
        return put_byte(out, 0);
    }
    put_byte(out, 1)?;
    put_known(out, parts)
}

/// The parts of a state, of which all fits its fields.
fn parts_of(alloc: Global, state: &AbsState) -> Result<Parts, NoMemory>
    requires small { ForSome state.now IsSmall }
    ensures value { IfOk result (λ parts. parts ≡ parts_of state.now) }
    ensures form { IfOk result (λ parts. AreParts parts) }
    ensures spellable { IfOk result (λ _. IsSpellable state.now) }
{
    let parts = state.parts(alloc)?;
    read_constants(&parts);
    Ok(parts)
}

/// Appends a state.
fn put_state(alloc: Global, out: &mut Vec<u8>, state: &AbsState) -> Result<(), NoMemory>
    requires small { ForSome state.now IsSmall }
    ensures bytes { OnOk result (out.new.items ≡ out.old.items ++ state_bytes state.now) }
    ensures spellable { OnOk result (IsSpellable state.now) }
{
    let parts = parts_of(alloc, state)?;
    put_parts(out, &parts)
}

/// Appends states.
fn put_each(alloc: Global, out: &mut Vec<u8>, states: &[AbsState]) -> Result<(), NoMemory>
    requires small { AllByRecursion (λ state. ForSome state IsSmall) states.now }
    ensures bytes { OnOk result (out.new.items ≡ out.old.items ++ flat_map state_bytes states.now) }
    ensures spellable { OnOk result (AllByRecursion IsSpellable states.now) }
{
    for state in states {
        put_state(alloc, out, state)?;
    }
    Ok(())
}

/// The bytes of states, without their law.
#[tactic(auto, unfolding(crate::specs::Spelling::states_bytes))]
fn written(alloc: Global, states: &[AbsState]) -> Result<Vec<u8>, NoMemory>
    requires small { AreSmall states.now }
    ensures bytes { IfOk result (λ bytes. bytes.items ≡ states_bytes states.now) }
    ensures spellable { IfOk result (λ _. AreSpellable states.now) }
{
    let mut out = Vec::new(alloc);
    put_u16(&mut out, states.len() as u64)?;
    put_each(alloc, &mut out, states)?;
    Ok(out)
}

/// The bytes of these states are those of an invariant. Nothing is done.
fn see_invariant(bytes: &[u8], states: &[AbsState])
    requires spelled { bytes.now ≡ states_bytes states.now }
    requires spellable { AreSpellable states.now }
    ensures invariant { IsInvariant bytes.now }
    ensures again { (states_file bytes.now).value ≡ map parts_of states.now }
{
    let _ = states.len();
    let _ = bytes.len();
}

/// The bytes of an invariant.
///
/// # Errors
///
/// Want of memory.
///
/// Cost: linear in what is known, but for what a state sorts of its pairs.
pub fn invariant_bytes(alloc: Global, invariant: &Invariant) -> Result<Vec<u8>, NoMemory>
    requires small { AreSmall invariant.now.states.items }
    ensures bytes { IfOk result (λ bytes. bytes.items ≡ states_bytes invariant.now.states.items) }
    // Each count and each constant fits its field, so that the bytes are those of no other invariant.
    ensures spellable { IfOk result (λ _. AreSpellable invariant.now.states.items) }
    ensures invariant { IfOk result (λ bytes. IsInvariant bytes.items) }
    // The states are read of them again.
    ensures again { IfOk result (λ bytes. (states_file bytes.items).value ≡ map parts_of invariant.now.states.items) }
{
    let states = invariant.states.as_slice();
    let bytes = written(alloc, states)?;
    see_invariant(&bytes, states);
    Ok(bytes)
}
