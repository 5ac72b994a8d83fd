//! Definitions of new symbols, each of which stands for a key.

ghost use Rattle.std.specs.Prelude.{◌≡◌, ◌+◌, ◌++◌, [], length, map, IfOk, OnOk};
ghost use Rattle.symbolic_values.specs.Names as naming;
ghost use Rattle.symbolic_values.specs.OwnNames.{own_names};
ghost use Rattle.merged_states.specs.Parts as rule;

use domain_api::{Expr, NoMemory};
use frame_names::PairedFrames;
use state_facts::{Known, definition_at};
use std::alloc::{AllocError, Global};
use symbolic_values::{Def, Key};

/// Adds the definition of a symbol, if it has one.
fn add(definitions: &mut Vec<(u32, Def)>, symbol: u32, def: Option<Def>) -> Result<(), NoMemory>
    ensures { OnOk result (definitions.new.items ≡ definitions.old.items ++ rule.with_definition symbol def []) }
{
    let Some(def) = def else {
        return Ok(());
    };
    definitions.push((symbol, def))?;
    Ok(())
}

/// The symbol of the key at a place.
fn symbol_at(place: usize) -> Result<u32, NoMemory>
    ensures { IfOk result (λ symbol. symbol ≡ place + 1) }
{
    match u32::try_from(place) {
        Ok(place) if place < u32::MAX => Ok(place + 1),
        _ => Err(AllocError),
    }
}

// ---- two states

/// Returns whether the symbol of a key is worth what the symbols of both states are.
fn is_of_symbols(key: &Key) -> bool
    ensures { result ≡ rule.is_of_symbols key.now }
{
    key.first == 0 && key.shift == 0
}

/// The definitions of two states whose frames were named together.
#[derive(Clone, Copy)]
struct Sides<'a> {
    frames: &'a PairedFrames,
    a: &'a [(u32, Def)],
    b: &'a [(u32, Def)],
}

impl Sides<'_> {
    /// The definition of a key's symbol, where both states have the same one.
    fn def_of(&self, key: &Key) -> Option<Def>
        ensures { result ≡ rule.def_of_both self.now.frames.now self.now.a.now self.now.b.now key.now }
    {
        if !is_of_symbols(key) {
            return None;
        }
        let first = definition_at(self.a, key.s)?;
        let second = definition_at(self.b, key.t)?;
        let frames = self.frames;
        let pairs = &frames.numbers;
        pairs.named_def(&frames.references, first, second)
    }
}

/// The definitions that both states have.
///
/// Cost: for each key whose symbol is worth the same in both states, a pass over the definitions of both.
pub(crate) fn definitions_of_both(
    alloc: Global,
    frames: &PairedFrames,
    a: &[(u32, Def)],
    b: &[(u32, Def)],
) -> Result<Vec<(u32, Def)>, NoMemory>
    ensures { IfOk result (λ definitions. definitions.items ≡
        rule.definitions_from (rule.def_of_both frames.now a.now b.now) 1 frames.now.numbers.keys) }
{
    let sides = Sides { frames, a, b };
    let keys = frames.numbers.keys.as_slice();
    let mut definitions = Vec::with_capacity(alloc, a.len().min(b.len()))?;
    for place in 0..keys.len() {
        let symbol = symbol_at(place)?;
        add(&mut definitions, symbol, sides.def_of(&keys[place]))?;
    }
    Ok(definitions)
}

// ---- one state

/// The new names of a state's symbols and references, and its definitions.
#[derive(Drop)]
struct Names<'a> {
    symbols: &'a [Option<Expr>],
    references: Vec<Option<u32>>,
    definitions: &'a [(u32, Def)],
}

/// The new name of a reference, if it has one.
fn reference_of(name: &Option<Expr>) -> Option<u32>
    ensures { result ≡ naming.symbol_of name.now }
{
    match name {
        None => None,
        Some(e) => Some(e.sym),
    }
}

/// The new reference of each reference below a count.
fn reference_names(
    alloc: Global,
    frames: &PairedFrames,
    count: usize,
) -> Result<Vec<Option<u32>>, NoMemory>
    ensures { IfOk result (λ names. names.items ≡
        map naming.symbol_of (own_names frames.now.references count)) }
{
    let names = frames.references.pairs.names(alloc, count)?;
    names.iter().map(|name| reference_of(name)).collect(alloc)
}

impl Names<'_> {
    /// The definition of a key's symbol, which is the key's first constant above the old one.
    fn def_of(&self, key: &Key) -> Option<Def>
        ensures { result ≡ rule.own_def self.now.symbols.now self.now.references.items
            self.now.definitions.now key.now }
    {
        let def = definition_at(self.definitions, key.s)?;
        def.renamed_above(key.first, self.symbols, self.references.as_slice())
    }

    /// The definitions in new names.
    fn renamed(&self, alloc: Global, keys: &[Key]) -> Result<Vec<(u32, Def)>, NoMemory>
        ensures { IfOk result (λ definitions. definitions.items ≡ rule.definitions_from
            (rule.own_def self.now.symbols.now self.now.references.items self.now.definitions.now) 1 keys.now) }
    {
        let mut definitions = Vec::with_capacity(alloc, self.definitions.len())?;
        for place in 0..keys.len() {
            let symbol = symbol_at(place)?;
            add(&mut definitions, symbol, self.def_of(&keys[place]))?;
        }
        Ok(definitions)
    }
}

/// The definitions of a state in the names of its own first uses, given the names of its symbols.
///
/// Cost: for each key a pass over the definitions.
#[tactic(auto, using(crate::proofs::Nothing::none_defined))]
pub(crate) fn renamed_definitions(
    alloc: Global,
    frames: &PairedFrames,
    symbols: &[Option<Expr>],
    a: &Known,
) -> Result<Vec<(u32, Def)>, NoMemory>
    requires { symbols.now ≡ own_names frames.now.numbers (length a.now.facts.ranges + 1) }
    ensures { IfOk result (λ renamed. renamed.items ≡ rule.definitions_from
        (rule.def_of_one frames.now (length a.now.facts.ranges + 1) (length a.now.references + 1)
        a.now.facts.definitions) 1 frames.now.numbers.keys) }
{
    let definitions = a.numbers.definitions.rows();
    if definitions.is_empty() {
        return Ok(Vec::new(alloc));
    }
    let names = Names {
        symbols,
        references: reference_names(alloc, frames, a.references.len() + 1)?,
        definitions,
    };
    names.renamed(alloc, frames.numbers.keys.as_slice())
}
