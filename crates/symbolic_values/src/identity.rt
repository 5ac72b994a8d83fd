//! What tells keys apart, and a table of it.

ghost use Rattle.std.specs.Prelude.{◌≡◌, ◌-ℤ◌, true, [], ◌∷◌, ◌++◌, IfOk};
ghost use Rattle.symbolic_values.specs.Identities.{identity_of};
ghost use Rattle.symbolic_values.specs.Pairing.{use_of};
ghost use Rattle.symbolic_values.specs.Table.{IsTableOf};

use crate::pairs::Key;
use domain_api::{Expr, NoMemory};
use indexmap::IndexSet;
use std::alloc::Global;

/// Up to so many keys are found one by one.
pub(crate) const FEW: usize = 16;

/// The parts of a key that tell it apart from others. The shift is that of any two constants of 64 bits.
#[derive(Clone, Copy, Debug, PartialEq, Eq, Hash)]
pub(crate) struct Identity {
    s: u32,
    t: u32,
    shift: i128,
}

/// Returns how far a constant lies above another.
pub(crate) fn distance(k: i64, l: i64) -> i128
    ensures { result ≡ l -ℤ k }
{
    i128::from(l) - i128::from(k)
}

impl Identity {
    /// Returns what tells a key apart.
    pub(crate) fn of(key: &Key) -> Identity
        ensures { result ≡ identity_of key.now }
    {
        Identity {
            s: key.s,
            t: key.t,
            shift: i128::from(key.shift),
        }
    }

    /// Returns what tells the key of two expressions apart.
    pub(crate) fn of_both(e: Expr, f: Expr) -> Identity
        ensures { result ≡ identity_of (use_of e f) }
    {
        Identity {
            s: e.sym,
            t: f.sym,
            shift: distance(e.k, f.k),
        }
    }
}

/// Puts what tells a key apart behind what a table has, and answers whether it was not there.
fn put(table: &mut IndexSet<Identity>, key: &Key) -> Result<bool, NoMemory>
    ensures { IfOk result (λ is_new. is_new ≡ true →
        table.new.keys ≡ table.old.keys ++ identity_of key.now ∷ []) }
{
    let (_, is_new) = table.insert_full(Identity::of(key))?;
    Ok(is_new)
}

/// A table of keys. None where two of them are the same.
#[tactic(auto, using(crate::proofs::Tables::all_known, crate::proofs::Tables::one_known))]
fn filled(alloc: Global, keys: &[Key]) -> Result<Option<IndexSet<Identity>>, NoMemory>
    ensures { IfOk result (λ table. IsTableOf table keys.now) }
{
    let mut table = IndexSet::with_capacity(alloc, keys.len())?;
    for key in keys {
        if !put(&mut table, key)? {
            return Ok(None);
        }
    }
    Ok(Some(table))
}

/// A table of keys, where there are many and no two are the same.
pub(crate) fn table_of(alloc: Global, keys: &[Key]) -> Result<Option<IndexSet<Identity>>, NoMemory>
    ensures { IfOk result (λ table. IsTableOf table keys.now) }
{
    if keys.len() <= FEW {
        return Ok(None);
    }
    filled(alloc, keys)
}
