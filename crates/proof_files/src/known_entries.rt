//! The entries of a proof file that were read so far.

ghost use Rattle.std.specs.Prelude.{◌≡◌, ◌≤◌, ◌++◌, [], ◌∷◌, false, length, IfOk, OnOk};
ghost use Rattle.proof_files.specs.Proofs.{is_among};
ghost use Rattle.proof_files.specs.Held.{entries_held, keys_held, told};
ghost use Rattle.proof_files.specs.Steps.{Takes};

use crate::entry_reader::read_entry;
use crate::proof_entry::ProofEntry;
use crate::unit_lines::read_unit_line;
use cc_base::NoMemory;
use indexmap::IndexMap;
use std::alloc::Global;

/// Entries, and the bytes of their units.
#[derive(Drop)]
pub(crate) struct KnownEntries {
    pub(crate) entries: Vec<ProofEntry>,
    pub(crate) keys: IndexMap<Vec<u8>, ()>,
}

impl KnownEntries {
    /// No entry.
    pub(crate) fn none(alloc: Global) -> KnownEntries
        ensures entries { entries_held result ≡ [] }
        ensures keys { keys_held result ≡ [] }
    {
        KnownEntries {
            entries: Vec::new(alloc),
            keys: IndexMap::new(alloc),
        }
    }

    /// Returns whether an entry is of the unit of these bytes.
    fn has(&self, key: &[u8]) -> bool
        ensures { result ≡ is_among (keys_held self.now) key.now }
    {
        self.keys.get(key).is_some()
    }

    /// Adds an entry, of a unit of which there was none.
    fn add(&mut self, key: Vec<u8>, entry: ProofEntry) -> Result<(), NoMemory>
        requires new { is_among (keys_held self.old) key.items ≡ false }
        ensures entries { OnOk result (entries_held self.new ≡ entries_held self.old ++ told entry ∷ []) }
        ensures keys { OnOk result (keys_held self.new ≡ keys_held self.old ++ key.items ∷ []) }
    {
        self.keys.insert(key, ())?;
        self.entries.push(entry)?;
        Ok(())
    }

    /// Adds the entry whose text this is, up to its last line. Returns whether it is one, of a unit of which there was
    /// none.
    pub(crate) fn read_next(&mut self, alloc: Global, prefix: &[u8]) -> Result<bool, NoMemory>
        requires short { length prefix.now ≤ 67108864 }
        ensures { IfOk result (Takes self.old self.new prefix.now) }
    {
        let Some((key, lines)) = read_unit_line(alloc, prefix)? else {
            return Ok(false);
        };
        if self.has(&key) {
            return Ok(false);
        }
        let Some(entry) = read_entry(alloc, &key, lines)? else {
            return Ok(false);
        };
        self.add(key, entry)?;
        Ok(true)
    }
}
