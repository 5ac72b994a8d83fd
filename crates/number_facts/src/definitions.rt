//! The definitions that are stored.

ghost use Rattle.std.specs.Prelude.{◌≡◌, ◌+◌, ◌≤◌, ◌<◌, ◌++◌, [], ◌∷◌, length, IfOk, IsOk, OnOk, OnErr};
ghost use Rattle.std.specs.Vec.{vec_len, vec_capacity};
ghost use Rattle.number_facts.specs.Differences.{AreDifferences};

use crate::differences::{Difference, difference_of, put_some, sorted_differences, subtracting};
use domain_api::NoMemory;
use pentagon_domain::{BoundRow, Bounds};
use std::alloc::Global;
use std::marker::Model;
use symbolic_values::Def;

/// What some symbols are, each beside its symbol. Contracts see them as their rows, in the order in which they came.
#[derive(Drop)]
pub struct Definitions {
    rows: Vec<(u32, Def)>,
    /// The differences among them, rising by the symbol that is subtracted; those of one symbol in the order of the
    /// rows.
    differences: Vec<Difference>,
}

impl Model for Definitions {
    ghost use Rattle.std.specs.Prelude.{ℕ, List};
    ghost use Rattle.symbolic_values.specs.declared.def.Def.{Def};
    ghost use Rattle.number_facts.specs.Differences.{AreDifferences};

    ghost Value = { List (ℕ × Def) };

    ghost view = { λ definitions. definitions.rows.items };

    ghost invariant = { λ definitions. AreDifferences definitions.differences.items definitions.rows.items };
}

/// Adds a definition, and where it is a difference, puts that among the differences.
#[tactic(auto, using(crate::proofs::DifferenceLists::both_added))]
fn add(
    rows: &mut Vec<(u32, Def)>,
    differences: &mut Vec<Difference>,
    row: (u32, Def),
) -> Result<(), NoMemory>
    requires { AreDifferences differences.old.items rows.old.items }
    ensures form { AreDifferences differences.new.items rows.new.items }
    ensures value { OnOk result (rows.new.items ≡ rows.old.items ++ row ∷ []) }
    ensures unchanged { OnErr result (rows.new.items ≡ rows.old.items) }
    ensures room { vec_len rows.old < vec_capacity rows.old → vec_len differences.old < vec_capacity differences.old →
        IsOk result }
    ensures rows_room { (vec_len rows.new ≤ vec_len rows.old + 1) × (vec_capacity rows.old ≤ vec_capacity rows.new) }
    ensures differences_room { (vec_len differences.new ≤ vec_len differences.old + 1)
        × (vec_capacity differences.old ≤ vec_capacity differences.new) }
{
    rows.reserve(1)?;
    put_some(differences, difference_of(row.0, row.1))?;
    rows.push(row)?;
    Ok(())
}

/// Adds definitions one after another, for which there is room.
#[tactic(auto, using(crate::proofs::DifferenceLists::additions))]
fn add_all(
    rows: &mut Vec<(u32, Def)>,
    differences: &mut Vec<Difference>,
    more: &[(u32, Def)],
) -> Result<(), NoMemory>
    requires form { AreDifferences differences.old.items rows.old.items }
    requires rows_room { vec_len rows.old + length more.now ≤ vec_capacity rows.old }
    requires differences_room { vec_len differences.old + length more.now ≤ vec_capacity differences.old }
    ensures form { AreDifferences differences.new.items rows.new.items }
    ensures value { rows.new.items ≡ rows.old.items ++ more.now }
    ensures ok { IsOk result }
{
    for row in more {
        add(rows, differences, *row)?;
    }
    Ok(())
}

impl Definitions {
    ghost use Rattle.pentagon_domain.specs.Rows.{with_bounds};
    ghost use Rattle.number_facts.specs.Differences as rule;

    /// No definition. Takes no memory.
    pub fn new(alloc: Global) -> Definitions
        ensures { result ≡ [] }
    {
        Definitions {
            rows: Vec::new(alloc),
            differences: Vec::new(alloc),
        }
    }

    /// The definitions of these rows. Costs one pass, and a sort of the differences among them.
    pub fn of_rows(alloc: Global, rows: Vec<(u32, Def)>) -> Result<Definitions, NoMemory>
        ensures { IfOk result (λ definitions. definitions ≡ rows.items) }
    {
        let differences = sorted_differences(alloc, &rows)?;
        Ok(Definitions { rows, differences })
    }

    /// The rows. Takes no memory.
    pub fn rows(&self) -> &[(u32, Def)]
        ensures { result.now ≡ self.now }
    {
        &self.rows
    }

    /// The differences that subtract an expression of a symbol, in the order of the rows. They are found by halving; no
    /// memory is taken.
    pub(crate) fn subtracting(&self, y: u32) -> &[Difference]
        ensures { result.now ≡ rule.subtracting y (rule.differences self.now) }
    {
        subtracting(&self.differences, y)
    }

    /// Adds a definition as the last one. A difference moves those that subtract a later symbol. After an error nothing
    /// has changed.
    pub fn push(&mut self, symbol: u32, def: Def) -> Result<(), NoMemory>
        ensures value { OnOk result (self.new ≡ self.old ++ (symbol, def) ∷ []) }
        ensures unchanged { OnErr result (self.new ≡ self.old) }
    {
        add(&mut self.rows, &mut self.differences, (symbol, def))
    }

    /// Adds definitions as the last ones, each as `push` does, and bounds, as `Bounds::add_all` does. After an error
    /// neither has changed: room for all is taken first.
    pub(crate) fn extend_with(
        &mut self,
        definitions: &[(u32, Def)],
        bounds: &mut Bounds,
        rows: &[BoundRow],
    ) -> Result<(), NoMemory>
        ensures value { OnOk result (self.new ≡ self.old ++ definitions.now) }
        ensures bounds { OnOk result (bounds.new ≡ with_bounds bounds.old rows.now) }
        ensures unchanged { OnErr result (self.new ≡ self.old) }
        ensures bounds_unchanged { OnErr result (bounds.new ≡ bounds.old) }
    {
        self.rows.reserve(definitions.len())?;
        self.differences.reserve(definitions.len())?;
        bounds.add_all(rows)?;
        add_all(&mut self.rows, &mut self.differences, definitions)
    }

    /// The same definitions again. Costs one pass.
    pub fn copy(&self, alloc: Global) -> Result<Definitions, NoMemory>
        ensures { IfOk result (λ again. again ≡ self.now) }
    {
        Ok(Definitions {
            rows: Vec::from_slice(alloc, self.rows.as_slice())?,
            differences: Vec::from_slice(alloc, self.differences.as_slice())?,
        })
    }
}
