//! Units and their invariants, as a proof file has them.

ghost use Rattle.std.specs.Prelude.{◌≡◌, ◌++◌, [], ◌∷◌, false, IfOk, OnOk};
ghost use Rattle.std.specs.Option.{option_map_or};
ghost use Rattle.method_unit.specs.Units.{IsUnit};
ghost use Rattle.proof_files.specs.Held.{entries_told, told};
ghost use Rattle.proof_files.specs.Proofs.{AreEntries, is_among, keys_of};
ghost use Rattle.unit_form.specs.Spelling.{unit_bytes};
ghost use Rattle.unit_verdicts.specs.ProvedUnits.{states_for};

use abs_state::Invariant;
use indexmap::IndexMap;
use method_unit::unit_bytes;
use proof_files::ProofEntry;
use std::alloc::{AllocError, Global};
use std::marker::Model;

/// Invariants, each under the whole bytes of its unit. Contracts see the units with their states, in the order in which
/// they came.
#[derive(Drop)]
pub struct ProvedUnits {
    invariants: IndexMap<Vec<u8>, Invariant>,
}

impl Model for ProvedUnits {
    ghost use Rattle.std.specs.Prelude.{List};
    ghost use Rattle.proof_files.specs.Proofs.{Entry};
    ghost use Rattle.unit_verdicts.specs.ProvedUnits.{AreKeyed, units_stated};

    ghost Value = { List Entry };

    ghost use Rattle.std.specs.Coded.{codes};
    ghost use Rattle.cil_model.specs.contracts.unit.Unit as the_unit;

    ghost coded = { Prim.hlevel (codes, the_unit.the_row.coded) };

    ghost view = { λ units. units_stated units.invariants.entries };

    ghost invariant = { λ units. AreKeyed units.invariants.entries };
}

impl ProvedUnits {
    /// No unit.
    fn none(alloc: Global) -> ProvedUnits
        ensures { result ≡ [] }
    {
        ProvedUnits {
            invariants: IndexMap::new(alloc),
        }
    }

    /// Adds an entry of a unit that none has yet.
    fn add(&mut self, alloc: Global, entry: ProofEntry) -> Result<(), AllocError>
        requires unit { IsUnit entry.unit }
        requires new { is_among (keys_of self.old) (unit_bytes entry.unit) ≡ false }
        ensures { OnOk result (self.new ≡ self.old ++ told entry ∷ []) }
    {
        let ProofEntry { unit, inv } = entry;
        let key = unit_bytes(alloc, &unit)?;
        self.invariants.insert(key, inv)?;
        Ok(())
    }

    /// These entries. Of each unit its bytes are kept, with its states.
    pub fn of(alloc: Global, entries: Vec<ProofEntry>) -> Result<ProvedUnits, AllocError>
        requires { AreEntries (entries_told entries.items) }
        ensures { IfOk result (λ units. units ≡ entries_told entries.items) }
    {
        let mut units = ProvedUnits::none(alloc);
        for entry in entries {
            units.add(alloc, entry)?;
        }
        Ok(units)
    }

    /// What is stated of the unit of these bytes, where something is.
    pub fn get(&self, key: &[u8]) -> Option<&Invariant>
        ensures { option_map_or (λ found. found.now.states.items) result [] ≡ states_for self.now key.now }
    {
        self.invariants.get(key)
    }
}
