//! Pairing the expressions of two states.

ghost use Rattle.std.specs.Prelude.{◌≡◌, ◌≤◌, [], ◌∷◌, length, map, IfOk};
ghost use Rattle.std.specs.List.{AllByRecursion};
ghost use Rattle.symbolic_values.specs.FirstUses.{first_uses};
ghost use Rattle.symbolic_values.specs.Pairing.{AreNear, behind_first, origin, paired, same_key, symbol_use, symbols_by_first_use};
ghost use Rattle.symbolic_values.specs.Worth.{AreWorthBoth};

use crate::env::Env;
use crate::pairs::{Key, Pairs};
use crate::uses::Uses;
use domain_api::{Expr, NoMemory};
use std::alloc::Global;

/// Two lists of expressions named together.
pub(crate) fn pair(alloc: Global, a: &[Expr], b: &[Expr]) -> Result<Pairs, NoMemory>
    requires same_length { length a.now ≡ length b.now }
    requires first { AreNear a.now }
    requires second { AreNear b.now }
    ensures { IfOk result (λ pairs. pairs ≡ paired a.now b.now) }
{
    let mut uses = Uses::with_capacity(alloc, a.len())?;
    let mut exprs = Vec::with_capacity(alloc, a.len())?;
    for index in 0..a.len() {
        let used = Key::of(a[index], b[index]);
        exprs.push(uses.named(&used)?)?;
    }
    Ok(uses.into_pairs(exprs))
}

/// The expressions of two states named together, place by place.
///
/// A pair of s + k and t + l has the key of s, t and l - k. Keys are numbered from 1 on by their first uses, in the
/// order of the lists: the variables before the lengths. A pair's new expression is the symbol of its key and k less
/// the k of the key's first use. Two equal constants stay that constant.
///
/// Cost: up to 16 expressions look their keys up one by one, more by a table, each once. `NoMemory` where memory runs
/// out, and where a symbol would need more than 32 bits.
pub fn pair_up(alloc: Global, a: &Env, b: &Env) -> Result<Pairs, NoMemory>
    requires same_length { length a.now ≡ length b.now }
    requires first { AreNear a.now }
    requires second { AreNear b.now }
    ensures value { IfOk result (λ pairs. pairs ≡ paired a.now b.now) }
    ensures worth { IfOk result (AreWorthBoth a.now b.now) }
    ensures named { IfOk result (λ pairs. AllByRecursion (λ e. e.sym ≤ length pairs.keys) pairs.exprs) }
{
    pair_envs(alloc, a, b)
}

/// The expressions of two states named together.
fn pair_envs(alloc: Global, a: &Env, b: &Env) -> Result<Pairs, NoMemory>
    requires same_length { length a.now ≡ length b.now }
    requires first { AreNear a.now }
    requires second { AreNear b.now }
    ensures { IfOk result (λ pairs. pairs ≡ paired a.now b.now) }
{
    pair(alloc, a.exprs.as_slice(), b.exprs.as_slice())
}

/// The symbols of a state, without symbol 0, in the order of their first uses: those of the keys of the state paired
/// with itself. The variables count before the lengths, as they stand in the list.
///
/// Cost: as of `pair_up`. `NoMemory` where memory runs out.
pub fn first_use_order(alloc: Global, env: &Env) -> Result<Vec<u32>, NoMemory>
    ensures value { IfOk result (λ symbols. symbols.items ≡ symbols_by_first_use env.now) }
    ensures own { IfOk result (λ symbols. symbols.items ≡ map (λ key. key.s) (paired env.now env.now).keys) }
{
    symbols_of(alloc, env)
}

/// The symbols of a state, without symbol 0, in the order of their first uses.
fn symbols_of(alloc: Global, env: &Env) -> Result<Vec<u32>, NoMemory>
    ensures { IfOk result (λ symbols. symbols.items ≡ symbols_by_first_use env.now) }
{
    let keys = symbol_keys(alloc, env.exprs.as_slice())?;
    keys.iter().map(|key| key.s).collect(alloc)
}

/// The keys of symbols paired with themselves, but for that of symbol 0, in the order of their first uses.
fn symbol_keys(alloc: Global, exprs: &[Expr]) -> Result<Vec<Key>, NoMemory>
    ensures { IfOk result (λ keys. keys.items ≡
        behind_first (first_uses same_key (origin ∷ []) (map symbol_use exprs.now))) }
{
    let mut uses = Uses::with_capacity(alloc, exprs.len())?;
    for index in 0..exprs.len() {
        uses.note(&Key::of_symbol(exprs[index].sym))?;
    }
    Ok(uses.into_keys())
}
