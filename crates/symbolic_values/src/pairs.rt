//! Pairs of expressions, by their keys.

ghost use Rattle.std.specs.Prelude.{◌≡◌, [], map, IfOk};
ghost use Rattle.std.specs.List.{position};
ghost use Rattle.symbolic_values.specs.Identities.{identity_of};
ghost use Rattle.symbolic_values.specs.Pairing.{same_key, use_of};
ghost use Rattle.symbolic_values.specs.Table.{IsTableOf};

use crate::identity::{Identity, distance, table_of};
use domain_api::{Expr, NoMemory};
use indexmap::IndexSet;
use std::alloc::Global;
use std::marker::Model;

/// The key that pairs of expressions with one symbol have in common: an expression s + k of a first state and
/// t + l of a second have the key of s, t and l - k.
#[derive(Clone, Copy, Debug, PartialEq, Eq)]
pub struct Key {
    /// The symbol in the first state.
    pub s: u32,
    /// The symbol in the second state.
    pub t: u32,
    /// The distance of the constant in the second state from the one in the first, l - k.
    pub shift: i64,
    /// The constant in the first state at the first use, k.
    pub first: i64,
}

/// The expressions of two states, named together. Contracts see both lists.
///
/// The key of number i, from 1 on, stands at place i - 1. Symbol i is worth what the expressions of its first use are
/// worth: in the first state s + first, in the second t + first + shift. Symbol 0 is the number 0.
#[derive(Drop)]
pub struct Pairs {
    /// The keys in order of first use, but for the one of two equal constants.
    pub keys: Vec<Key>,
    /// The new expression of each pair.
    pub exprs: Vec<Expr>,
    /// The same keys, where there are many.
    table: Option<IndexSet<Identity>>,
}

impl Model for Pairs {
    ghost use Rattle.symbolic_values.specs.Pairing.{Pairing};

    ghost Value = { Pairing };

    ghost use Rattle.symbolic_values.specs.Table.{IsTableOf};

    ghost view = { λ pairs. record { keys = pairs.keys.items; exprs = pairs.exprs.items } };

    ghost invariant = { λ pairs. IsTableOf pairs.table pairs.keys.items };
}

/// Returns whether two expressions have a key.
fn have_key(e: Expr, f: Expr, key: &Key) -> bool
    ensures { result ≡ same_key (use_of e f) key.now }
{
    e.sym == key.s && f.sym == key.t && distance(e.k, f.k) == i128::from(key.shift)
}

/// The place of the key of two expressions among some, which are looked at one by one.
fn place_among(keys: &[Key], e: Expr, f: Expr) -> Option<usize>
    ensures { result ≡ position (same_key (use_of e f)) keys.now }
{
    keys.iter().position(|key| have_key(e, f, key))
}

/// The place of the key of two expressions in a table of some.
fn place_in(keys: &[Key], table: &IndexSet<Identity>, e: Expr, f: Expr) -> Option<usize>
    requires { table.now.keys ≡ map identity_of keys.now }
    ensures { result ≡ position (same_key (use_of e f)) keys.now }
{
    table.get_index_of(&Identity::of_both(e, f))
}

impl Pairs {
    /// No pairs.
    pub(crate) fn none(alloc: Global) -> Pairs
        ensures { result ≡ record { keys = []; exprs = [] } }
    {
        Pairs {
            keys: Vec::new(alloc),
            exprs: Vec::new(alloc),
            table: None,
        }
    }

    /// These keys and expressions, with a table of the keys.
    pub(crate) fn with_table(
        keys: Vec<Key>,
        exprs: Vec<Expr>,
        table: Option<IndexSet<Identity>>,
    ) -> Pairs
        requires { IsTableOf table keys.items }
        ensures { result ≡ record { keys = keys.items; exprs = exprs.items } }
    {
        Pairs { keys, exprs, table }
    }

    /// The place of the key of two expressions, if it is known.
    ///
    /// Up to 16 keys are looked at one by one, more are found by a table.
    pub(crate) fn place_of(&self, e: Expr, f: Expr) -> Option<usize>
        ensures { result ≡ position (same_key (use_of e f)) self.now.keys }
    {
        match &self.table {
            None => place_among(self.keys.as_slice(), e, f),
            Some(table) => place_in(self.keys.as_slice(), table, e, f),
        }
    }

    /// The same pairs again.
    pub fn copy(&self, alloc: Global) -> Result<Pairs, NoMemory>
        ensures { IfOk result (λ again. again ≡ self.now) }
    {
        let keys = Vec::from_slice(alloc, self.keys.as_slice())?;
        let exprs = Vec::from_slice(alloc, self.exprs.as_slice())?;
        let table = table_of(alloc, keys.as_slice())?;
        Ok(Pairs { keys, exprs, table })
    }
}
