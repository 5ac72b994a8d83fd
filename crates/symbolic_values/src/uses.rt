//! Keys in the order of their first uses.

ghost use Rattle.std.specs.Prelude.{◌≡◌, ◌+◌, ◌<◌, ◌-ℤ◌, pos, [], ◌∷◌, get_or, length, map, IfSome, IfOk, OnOk, OnErr};
ghost use Rattle.std.specs.List.{position, position_or_len};
ghost use Rattle.symbolic_values.specs.FirstUses.{noted};
ghost use Rattle.symbolic_values.specs.Pairing.{IsNear, named, number_in, origin, same_key, use_of};
ghost use Rattle.symbolic_values.specs.NearUses.{IsNearUse};
ghost use Rattle.symbolic_values.specs.Identities.{identity_of};

use crate::identity::{FEW, Identity};
use crate::pairs::{Key, Pairs};
use domain_api::{Expr, NoMemory};
use indexmap::IndexSet;
use std::alloc::{AllocError, Global};
use std::marker::Model;

/// The keys that were used so far, but for that of two equal constants, in the order of their first uses. Contracts see
/// the list.
#[derive(Drop)]
pub(crate) struct Uses {
    keys: Vec<Key>,
    /// The same keys, where there may be many.
    table: Option<IndexSet<Identity>>,
}

impl Model for Uses {
    ghost use Rattle.std.specs.Prelude.{List};
    ghost use Rattle.std.specs.List.{AllByRecursion};
    ghost use Rattle.symbolic_values.specs.declared.pairs.Key.{Key};

    ghost Value = { List Key };

    ghost use Rattle.symbolic_values.specs.Table.{IsIndexed};

    ghost view = { λ uses. uses.keys.items };

    ghost invariant = { λ uses. IsIndexed uses.keys.items uses.table };
}

impl Key {
    /// The key of two expressions, as if this were its first use.
    pub(crate) fn of(e: Expr, f: Expr) -> Key
        requires first { IsNear e }
        requires second { IsNear f }
        ensures { result ≡ use_of e f }
    {
        Key {
            s: e.sym,
            t: f.sym,
            shift: f.k - e.k,
            first: e.k,
        }
    }

    /// The key of a symbol paired with itself.
    pub(crate) fn of_symbol(symbol: u32) -> Key
        ensures { result ≡ record { s = symbol; t = symbol; shift = pos 0; first = pos 0 } }
    {
        Key {
            s: symbol,
            t: symbol,
            shift: 0,
            first: 0,
        }
    }

    /// Returns whether both are uses of one key.
    pub(crate) fn is_same(&self, other: &Key) -> bool
        ensures { result ≡ same_key self.now other.now }
    {
        self.s == other.s && self.t == other.t && self.shift == other.shift
    }

    /// Returns whether this is the key of two equal constants.
    pub(crate) fn is_origin(&self) -> bool
        ensures { result ≡ same_key self.now origin }
    {
        self.s == 0 && self.t == 0 && self.shift == 0
    }
}

/// The place of a key among some, if it is one of them.
fn place_among(keys: &[Key], used: &Key) -> Option<usize>
    ensures { result ≡ position (same_key used.now) keys.now }
{
    keys.iter().position(|key| used.is_same(key))
}

/// The place of a key, which goes behind the others where it is new. The keys are looked at one by one.
fn place_in_few(keys: &mut Vec<Key>, used: &Key) -> Result<usize, NoMemory>
    ensures keys { OnOk result (keys.new.items ≡ noted same_key keys.old.items used.now) }
    ensures place { IfOk result (λ place. place ≡ position_or_len (same_key used.now) keys.old.items) }
    ensures err { OnErr result (keys.new.items ≡ keys.old.items) }
{
    match place_among(keys.as_slice(), used) {
        Some(place) => Ok(place),
        None => {
            let place = keys.len();
            keys.push(*used)?;
            Ok(place)
        }
    }
}

/// The place of a key, which goes behind the others where it is new. The keys are found by a table of them.
fn place_in_many(
    keys: &mut Vec<Key>,
    table: &mut IndexSet<Identity>,
    used: &Key,
) -> Result<usize, NoMemory>
    requires table { table.old.keys ≡ map identity_of keys.old.items }
    ensures keys { OnOk result (keys.new.items ≡ noted same_key keys.old.items used.now) }
    ensures place { IfOk result (λ place. place ≡ position_or_len (same_key used.now) keys.old.items) }
    ensures err { OnErr result (keys.new.items ≡ keys.old.items) }
    ensures table { table.new.keys ≡ map identity_of keys.new.items }
{
    keys.reserve(1)?;
    let (place, is_new) = table.insert_full(Identity::of(used))?;
    if is_new {
        keys.push(*used)?;
    }
    Ok(place)
}

/// The number of the key at a place: one more.
fn number_of(place: usize) -> Option<u32>
    ensures { IfSome result (λ number. number ≡ place + 1) }
{
    u32::try_from(place).ok()?.checked_add(1)
}

impl Uses {
    ghost use Rattle.symbolic_values.specs.Table.{IsIndexed};

    /// No key, with room for so many.
    pub(crate) fn with_capacity(alloc: Global, count: usize) -> Result<Uses, NoMemory>
        ensures { IfOk result (λ uses. uses ≡ []) }
    {
        let keys = Vec::with_capacity(alloc, count)?;
        if count <= FEW {
            return Ok(Uses { keys, table: None });
        }
        let table = IndexSet::with_capacity(alloc, count)?;
        Ok(Uses {
            keys,
            table: Some(table),
        })
    }

    /// The place of a key, which is noted where it is new.
    fn place_of(&mut self, used: &Key) -> Result<usize, NoMemory>
        requires near { IsNearUse used.now }
        ensures keys { OnOk result (self.new ≡ noted same_key self.old used.now) }
        ensures place { IfOk result (λ place. place ≡ position_or_len (same_key used.now) self.old) }
    {
        let Some(table) = &mut self.table else {
            return place_in_few(&mut self.keys, used);
        };
        place_in_many(&mut self.keys, table, used)
    }

    /// The expression of this symbol, which is that of the key at a place, for a use of the key.
    fn name_at(&self, place: usize, sym: u32, used: &Key) -> Expr
        requires near { IsNearUse used.now }
        requires there { place < length self.now }
        ensures { result ≡ record { sym = sym; k = used.now.first -ℤ (get_or self.now place origin).first } }
    {
        Expr {
            sym,
            k: used.first - self.keys[place].first,
        }
    }

    /// The new expression of two that have this key. The key is noted where it is new.
    pub(crate) fn named(&mut self, used: &Key) -> Result<Expr, NoMemory>
        requires near { IsNearUse used.now }
        ensures known { OnOk result (origin ∷ self.new ≡ noted same_key (origin ∷ self.old) used.now) }
        ensures name { IfOk result (λ e. e ≡ named (origin ∷ self.new) used.now) }
    {
        if used.is_origin() {
            return Ok(Expr {
                sym: 0,
                k: used.first,
            });
        }
        let place = self.place_of(used)?;
        let Some(sym) = number_of(place) else {
            return Err(AllocError);
        };
        Ok(self.name_at(place, sym, used))
    }

    /// Notes a key where it is new.
    pub(crate) fn note(&mut self, used: &Key) -> Result<(), NoMemory>
        requires { IsNearUse used.now }
        ensures { OnOk result (origin ∷ self.new ≡ noted same_key (origin ∷ self.old) used.now) }
    {
        if used.is_origin() {
            return Ok(());
        }
        self.place_of(used)?;
        Ok(())
    }

    /// The keys, with the new expressions.
    pub(crate) fn into_pairs(self, exprs: Vec<Expr>) -> Pairs
        ensures { result ≡ record { keys = self; exprs = exprs.items } }
    {
        let Uses { keys, table } = self;
        Pairs::with_table(keys, exprs, table)
    }

    /// The keys.
    pub(crate) fn into_keys(self) -> Vec<Key>
        ensures { result.items ≡ self }
    {
        let Uses { keys, table: _ } = self;
        keys
    }
}
