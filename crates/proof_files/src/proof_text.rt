//! Proof files, written.

ghost use Rattle.std.specs.Prelude.{◌≡◌, ◌+◌, ◌*◌, ◌≤◌, ◌++◌, [], ◌∷◌, false};
ghost use Rattle.std.specs.Prelude.{List, nat_le, length, IfOk, OnOk};
ghost use Rattle.std.specs.List.{AllByRecursion};
ghost use Rattle.method_unit.specs.Units.{IsUnit};
ghost use Rattle.transfer_rules.specs.Inductive.{HasShape};
ghost use Rattle.unit_flow.specs.FlowOf.{flow_of};
ghost use Rattle.proof_files.specs.Held.{entries_told, IsMadeOf, told};
ghost use Rattle.proof_files.specs.Proofs.{AreEntries, blocks_of, Entry, IsEntry, IsProofOf, kept, proof_bytes};
ghost use Rattle.proof_files.specs.Steps.{IsPut, parts_text};

use crate::hex_text::put_hex_text;
use crate::proof_entry::ProofEntry;
use crate::{FIRST_LINE, MAX_PROOF_BYTES};
use abs_state::AbsState;
use cc_base::NoMemory;
use cil_model::Unit;
use flow_graph::Graph;
use invariant_text::invariant_text;
use method_unit::unit_bytes;
use std::alloc::Global;
use std::marker::Model;
use unit_flow::UnitFlow;

/// Returns whether so much room is enough for the entry of a unit of these bytes, with these lines of its invariant.
fn has_room(room: usize, key: &[u8], lines: &[u8]) -> bool
    requires { room ≤ 67108864 }
    ensures { result ≡ nat_le (10 + 2 * length key.now + length lines.now) room }
{
    key.len() <= room && lines.len() <= room && 10 + 2 * key.len() + lines.len() <= room
}

/// Appends the entry of a unit of these bytes, with these lines of its invariant.
#[tactic(auto, unfolding(crate::specs::Steps::parts_text))]
fn put_entry(alloc: Global, out: &mut Vec<u8>, key: &[u8], lines: &[u8]) -> Result<(), NoMemory>
    ensures { OnOk result (out.new.items ≡ out.old.items ++ parts_text key.now lines.now) }
{
    out.extend_from_slice(b"unit ")?;
    put_hex_text(alloc, out, key)?;
    out.extend_from_slice(b"\n")?;
    out.extend_from_slice(lines)?;
    out.extend_from_slice(b"end\n")
}

/// The text of a proof file that is being made, entry by entry. Contracts see the text, and whether an entry had no
/// room.
#[derive(Drop)]
pub struct ProofText {
    text: Vec<u8>,
    full: bool,
}

impl Model for ProofText {
    ghost use Rattle.proof_files.specs.Held.{WrittenProof};

    ghost Value = { WrittenProof };

    ghost view = { λ proof. record { text = proof.text.items; full = proof.full } };
}

impl ProofText {
    /// That of no entry.
    ///
    /// # Errors
    ///
    /// Want of memory.
    pub fn begin(alloc: Global) -> Result<ProofText, NoMemory>
        ensures { IfOk result (IsMadeOf []) }
    {
        let mut text = Vec::new(alloc);
        text.extend_from_slice(FIRST_LINE)?;
        Ok(ProofText { text, full: false })
    }

    /// Adds an entry where there is room for it.
    fn put(&mut self, alloc: Global, key: &[u8], lines: &[u8]) -> Result<(), NoMemory>
        requires open { self.old.full ≡ false }
        ensures { OnOk result (IsPut self.old self.new key.now lines.now) }
    {
        let room = MAX_PROOF_BYTES.saturating_sub(self.text.len());
        if has_room(room, key, lines) {
            put_entry(alloc, &mut self.text, key, lines)
        } else {
            self.full = true;
            Ok(())
        }
    }

    /// Adds the entry of a unit whose blocks start at these IL offsets.
    fn add_states(
        &mut self,
        alloc: Global,
        unit: &Unit,
        blocks: &[u32],
        states: &[AbsState],
    ) -> Result<(), NoMemory>
        requires is_unit { IsUnit unit.now }
        requires blocks { blocks.now ≡ blocks_of unit.now }
        requires count { length states.now ≡ length blocks.now }
        ensures { (entries : List Entry) → IsMadeOf entries self.old → OnOk result
            (IsMadeOf (entries ++ record { unit = unit.now; states = states.now } ∷ []) self.new) }
    {
        if self.full {
            return Ok(());
        }
        let key = unit_bytes(alloc, unit)?;
        let lines = invariant_text(alloc, unit, blocks, states)?;
        self.put(alloc, &key, &lines)
    }

    /// Adds the entry of a unit, with these states of its blocks. Where it, or one before it, would bring the text past
    /// 67,108,864 bytes, nothing is added.
    ///
    /// Cost: linear in what is added, and then what the text of the invariant costs.
    ///
    /// # Errors
    ///
    /// Want of memory. It may leave some of the entry.
    pub fn add(
        &mut self,
        alloc: Global,
        code: &UnitFlow,
        states: &[AbsState],
    ) -> Result<(), NoMemory>
        requires is_unit { IsUnit code.now.unit }
        requires flow { code.now ≡ flow_of code.now.unit }
        requires shape { HasShape code.now states.now }
        ensures { (entries : List Entry) → IsMadeOf entries self.old → OnOk result
            (IsMadeOf (entries ++ record { unit = code.now.unit; states = states.now } ∷ []) self.new) }
    {
        self.add_states(alloc, &code.unit, code.graph.blocks.as_slice(), states)
    }

    /// Adds an entry that is held.
    fn add_entry(&mut self, alloc: Global, entry: &ProofEntry) -> Result<(), NoMemory>
        requires { IsEntry (told entry.now) }
        ensures { (entries : List Entry) → IsMadeOf entries self.old → OnOk result
            (IsMadeOf (entries ++ told entry.now ∷ []) self.new) }
    {
        let graph = Graph::of(alloc, &entry.unit)?;
        self.add_states(
            alloc,
            &entry.unit,
            graph.blocks.as_slice(),
            &entry.inv.states,
        )
    }

    /// The text. It is the proof file of the entries that were added.
    pub fn into_bytes(self) -> Vec<u8>
        ensures value { result.items ≡ self.text }
        // It is read back as those that were kept, where each was an entry and no two of one unit.
        ensures file { (entries : List Entry) → IsMadeOf entries self → AreEntries entries
            → IsProofOf (kept entries) result.items }
    {
        self.text
    }
}

/// The text of these entries.
fn text_of(alloc: Global, entries: &[ProofEntry]) -> Result<ProofText, NoMemory>
    requires { AllByRecursion IsEntry (entries_told entries.now) }
    ensures { IfOk result (IsMadeOf (entries_told entries.now)) }
{
    let mut text = ProofText::begin(alloc)?;
    for entry in entries {
        text.add_entry(alloc, entry)?;
    }
    Ok(text)
}

/// The proof file of these entries, up to the first with which it would have more than 67,108,864 bytes.
///
/// Cost: linear in the number of bytes, and then what the graphs of the units and the texts of the invariants cost.
///
/// # Errors
///
/// Want of memory.
pub fn proof_bytes(alloc: Global, entries: &[ProofEntry]) -> Result<Vec<u8>, NoMemory>
    requires { AreEntries (entries_told entries.now) }
    ensures value { IfOk result (λ bytes. bytes.items ≡ proof_bytes (entries_told entries.now)) }
    ensures file { IfOk result (λ bytes. IsProofOf (kept (entries_told entries.now)) bytes.items) }
{
    let text = text_of(alloc, entries)?;
    Ok(text.into_bytes())
}
