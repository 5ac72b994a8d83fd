//! A state as lists, and back.

ghost use Rattle.std.specs.Prelude.{◌≡◌, ◌↔◌, length, IfOk, IfSome, IsSome, IsTrue, Some};
ghost use Rattle.std.specs.List.{list_all};
ghost use Rattle.array_contents.specs.Contents.{AreFormed};
ghost use Rattle.state_facts.specs.Forms.{lengths_of};
ghost use Rattle.abs_state.specs.FormTests as tests;
ghost use Rattle.abs_state.specs.StateParts.{AreOrdered, AreParts, known_of, parts_of};

use crate::state::AbsState;
use alias_facts::Apart;
use array_contents::{Contents, are_narrow};
use cil_model::Place;
use domain_api::{Expr, NoMemory};
use frame_names::{Reference, Var};
use interval_domain::Range;
use number_facts::{Definitions, Numbers};
use pentagon_domain::{BoundRow, Bounds};
use state_facts::Known;
use std::alloc::Global;
use std::marker::Model;
use symbolic_values::Def;

/// A state as lists. Symbol 0 and reference 0 are not among them.
#[derive(Drop)]
pub struct Parts {
    /// True where something is reached. Where nothing is, all lists are empty.
    pub reached: bool,
    /// What each variable has: the arguments at the entry, the arguments, the locals, the stack from the bottom.
    pub variables: Vec<Var>,
    /// The range of each symbol, that of symbol s at place s - 1.
    pub ranges: Vec<Range>,
    /// What some symbols are, rising by the symbol, each once.
    pub definitions: Vec<(u32, Def)>,
    /// How symbols lie to each other, rising by the first symbol, then by the second.
    pub bounds: Vec<BoundRow>,
    /// What is known of each reference, that of reference r at place r - 1.
    pub references: Vec<Reference>,
    /// Which references are not the same array, lower first, in order.
    pub apart: Vec<(u32, u32)>,
    /// The segments of each reference, those of reference r at place r - 1.
    pub contents: Contents,
}

impl Model for Parts {
    ghost use Rattle.abs_state.specs.StateParts.{StateParts};

    ghost Value = { StateParts };

    ghost view = { λ p. record {
      reached = p.reached;
      variables = p.variables.items;
      ranges = p.ranges.items;
      definitions = p.definitions.items;
      bounds = p.bounds.items;
      references = p.references.items;
      apart = p.apart.items;
      contents = p.contents;
    } };
}

/// How many symbols and references there are.
#[derive(Clone, Copy)]
pub(crate) struct Sizes {
    symbols: usize,
    references: usize,
}

impl Sizes {
    /// Returns whether the symbol of an expression is there.
    fn has(self, e: Expr) -> bool
        ensures { result ≡ tests.has self.symbols e }
    {
        e.sym as usize <= self.symbols
    }

    /// Returns whether the symbol of an expression is there, and its constant is near.
    fn has_number(self, e: Expr) -> bool
        ensures { result ≡ tests.is_number self.symbols e }
    {
        self.has(e) && -4_294_967_296 <= e.k && e.k <= 4_294_967_296
    }

    /// Returns whether what a variable has is there.
    fn has_var(self, v: &Var) -> bool
        ensures { result ≡ tests.is_var self.symbols self.references v.now }
    {
        match *v {
            Var::Number(e) => self.has_number(e),
            Var::Reference(r) => r as usize <= self.references,
            Var::Text => true,
            Var::Address(r, e) => r as usize <= self.references && self.has_number(e),
        }
    }

    /// Returns whether a reference is one of an array, and its length is there.
    fn has_reference(self, reference: &Reference) -> bool
        ensures { result ≡ tests.is_reference self.symbols reference.now }
    {
        matches!(reference.place, Place::Bools | Place::Ints) && self.has_number(reference.length)
    }

    /// Returns whether what a definition names is there.
    fn has_definition(self, definition: &(u32, Def)) -> bool
        ensures { result ≡ tests.is_definition self.symbols self.references definition.now }
    {
        let (symbol, def) = *definition;
        symbol as usize <= self.symbols
            && match def {
                Def::Eq(a, b) | Def::Lt(a, b) | Def::LtUn(a, b) | Def::Sub(a, b) => {
                    self.has(a) && self.has(b)
                }
                Def::NullTest(r, _) => r as usize <= self.references,
            }
    }

    /// Returns whether the symbols of a bound are there.
    fn has_bound(self, row: &BoundRow) -> bool
        ensures { result ≡ tests.is_bound self.symbols row.now }
    {
        row.s as usize <= self.symbols && row.t as usize <= self.symbols
    }

    /// Returns whether both references of a pair are there.
    fn has_pair(self, pair: &(u32, u32)) -> bool
        ensures { result ≡ tests.is_pair self.references pair.now }
    {
        pair.0 as usize <= self.references && pair.1 as usize <= self.references
    }

    /// Returns whether what each variable has is there.
    fn has_vars(self, variables: &[Var]) -> bool
        ensures { result ≡ list_all (tests.is_var self.symbols self.references) variables.now }
    {
        variables.iter().all(|v| self.has_var(v))
    }

    /// Returns whether each reference is one of an array, and its length is there.
    fn has_all_references(self, references: &[Reference]) -> bool
        ensures { result ≡ list_all (tests.is_reference self.symbols) references.now }
    {
        references.iter().all(|r| self.has_reference(r))
    }

    /// Returns whether what each definition names is there.
    fn has_definitions(self, definitions: &[(u32, Def)]) -> bool
        ensures { result ≡ list_all (tests.is_definition self.symbols self.references) definitions.now }
    {
        definitions.iter().all(|d| self.has_definition(d))
    }

    /// Returns whether the symbols of each bound are there.
    fn has_bounds(self, rows: &[BoundRow]) -> bool
        ensures { result ≡ list_all (tests.is_bound self.symbols) rows.now }
    {
        rows.iter().all(|row| self.has_bound(row))
    }

    /// Returns whether the references of each pair are there.
    fn has_pairs(self, pairs: &[(u32, u32)]) -> bool
        ensures { result ≡ list_all (tests.is_pair self.references) pairs.now }
    {
        pairs.iter().all(|pair| self.has_pair(pair))
    }
}

/// Returns whether symbols from 1 on are defined, each once at most, and they rise.
#[tactic(auto, using(crate::proofs::Rising::rising_symbols))]
fn are_rising(definitions: &[(u32, Def)]) -> bool
    ensures { result ≡ tests.are_rising definitions.now }
{
    let mut least = 1;
    for definition in definitions {
        let symbol = u64::from(definition.0);
        if symbol < least {
            return false;
        }
        least = symbol + 1;
    }
    true
}

impl Parts {
    /// Returns whether nothing is listed.
    fn is_empty(&self) -> bool
        ensures { result ≡ tests.is_empty self.now }
    {
        self.variables.is_empty()
            && self.ranges.is_empty()
            && self.definitions.is_empty()
            && self.bounds.is_empty()
            && self.references.is_empty()
            && self.apart.is_empty()
            && self.contents.segments.is_empty()
    }

    /// How many symbols and references there are.
    fn sizes(&self) -> Sizes
        ensures symbols { result.symbols ≡ length self.now.ranges }
        ensures references { result.references ≡ length self.now.references }
    {
        Sizes {
            symbols: self.ranges.len(),
            references: self.references.len(),
        }
    }

    /// Returns whether ranges are of int32, and what is known of symbols names what is there.
    #[tactic(auto, unfolding(crate::specs::FormTests::has_numbers))]
    fn has_numbers(&self) -> bool
        ensures { result ≡ tests.has_numbers self.now }
    {
        let sizes = self.sizes();
        are_narrow(&self.ranges)
            && are_rising(&self.definitions)
            && sizes.has_definitions(&self.definitions)
            && sizes.has_bounds(&self.bounds)
    }

    /// Returns whether what is known of references names what is there.
    #[tactic(auto, unfolding(crate::specs::FormTests::has_references))]
    fn has_references(&self) -> bool
        ensures { result ≡ tests.has_references self.now }
    {
        let sizes = self.sizes();
        sizes.has_all_references(&self.references) && sizes.has_pairs(&self.apart)
    }

    /// Returns whether ranges are of int32, and what is named is there.
    fn names_known(&self) -> bool
        ensures { result ≡ tests.names_known self.now }
    {
        self.has_numbers() && self.sizes().has_vars(&self.variables) && self.has_references()
    }

    /// The length of each reference.
    fn lengths(&self, alloc: Global) -> Result<Vec<Expr>, NoMemory>
        ensures { IfOk result (λ lengths. lengths.items ≡ lengths_of self.now.references) }
    {
        self.references.iter().map(|r| r.length).collect(alloc)
    }

    /// Returns whether there are segments for references of these lengths.
    fn are_formed(&self, lengths: &[Expr]) -> bool
        ensures { IsTrue result ↔ AreFormed (length self.now.ranges) lengths.now self.now.contents }
    {
        self.contents.are_formed(self.ranges.len(), lengths)
    }

    /// Returns whether there are segments for each reference.
    fn has_contents(&self, alloc: Global) -> Result<bool, NoMemory>
        ensures { IfOk result (λ is. is ≡ tests.has_contents self.now) }
    {
        let lengths = self.lengths(alloc)?;
        Ok(self.are_formed(lengths.as_slice()))
    }

    /// Returns whether the lists are of the form of a state's.
    fn has_form(&self, alloc: Global) -> Result<bool, NoMemory>
        ensures { IfOk result (λ is. is ≡ tests.has_form self.now) }
    {
        if !self.names_known() {
            return Ok(false);
        }
        self.has_contents(alloc)
    }

    /// What is known by these lists, where something is reached. None where bounds or pairs are not in order.
    fn known(&self, alloc: Global) -> Result<Option<Known>, NoMemory>
        ensures value { IfOk result (λ made. IfSome made (λ known. known ≡ known_of self.now)) }
        ensures some { IfOk result (λ made. IsSome made ↔ AreOrdered (known_of self.now)) }
    {
        let rows = Vec::from_slice(alloc, self.bounds.as_slice())?;
        let Some(bounds) = Bounds::of_rows(alloc, rows)? else {
            return Ok(None);
        };
        let Some(apart) = Apart::of_pairs(alloc, self.apart.as_slice())? else {
            return Ok(None);
        };
        let rows = Vec::from_slice(alloc, self.definitions.as_slice())?;
        let definitions = Definitions::of_rows(alloc, rows)?;
        Ok(Some(Known {
            variables: Vec::from_slice(alloc, self.variables.as_slice())?,
            numbers: Numbers {
                ranges: Vec::from_slice(alloc, self.ranges.as_slice())?,
                definitions,
                bounds,
            },
            references: Vec::from_slice(alloc, self.references.as_slice())?,
            apart,
            contents: self.contents.copy(alloc)?,
        }))
    }
}

/// The lists that what is known is made of, where something is reached.
fn listed(alloc: Global, known: &Known) -> Result<Parts, NoMemory>
    ensures value { IfOk result (λ parts. parts ≡ parts_of (Some known.now)) }
    ensures in_order { IfOk result (λ _. AreOrdered known.now) }
{
    Ok(Parts {
        reached: true,
        variables: Vec::from_slice(alloc, known.variables.as_slice())?,
        ranges: Vec::from_slice(alloc, known.numbers.ranges.as_slice())?,
        definitions: Vec::from_slice(alloc, known.numbers.definitions.rows())?,
        bounds: Vec::from_slice(alloc, known.numbers.bounds.rows())?,
        references: Vec::from_slice(alloc, known.references.as_slice())?,
        apart: known.apart.pairs(alloc)?,
        contents: known.contents.copy(alloc)?,
    })
}

impl AbsState {
    /// The lists that the state is made of.
    ///
    /// Cost: that of putting the pairs of references in order, and else linear in the lengths of the lists.
    pub fn parts(&self, alloc: Global) -> Result<Parts, NoMemory>
        ensures value { IfOk result (λ parts. parts ≡ parts_of self.now) }
        ensures form { IfOk result (λ parts. AreParts parts) }
    {
        match &self.known {
            None => Ok(Parts {
                reached: false,
                variables: Vec::new(alloc),
                ranges: Vec::new(alloc),
                definitions: Vec::new(alloc),
                bounds: Vec::new(alloc),
                references: Vec::new(alloc),
                apart: Vec::new(alloc),
                contents: Contents::new(alloc),
            }),
            Some(known) => listed(alloc, known),
        }
    }

    /// The state of these parts. None exactly where they are not those of a state.
    ///
    /// Cost: as of `parts`.
    pub fn of_parts(alloc: Global, parts: &Parts) -> Result<Option<AbsState>, NoMemory>
        ensures value { IfOk result (λ made. IfSome made (λ state. parts_of state ≡ parts.now)) }
        ensures exact { IfOk result (λ made. IsSome made ↔ AreParts parts.now) }
    {
        if !parts.reached {
            return Ok(if parts.is_empty() {
                Some(AbsState::nothing())
            } else {
                None
            });
        }
        let has_form = parts.has_form(alloc)?;
        if !has_form {
            return Ok(None);
        }
        let Some(known) = parts.known(alloc)? else {
            return Ok(None);
        };
        let state = AbsState::of_known(alloc, Some(known))?;
        Ok(Some(state))
    }
}
