//! Pairs put in order.

ghost use Rattle.std.specs.Prelude.{◌≡◌, ◌||◌, IfOk, OnOk};
ghost use Rattle.std.specs.List.{flat_map};
ghost use Rattle.alias_facts.specs.KeptPairs.{AreKept, IsOrdered, lower_first};
ghost use Rattle.alias_facts.specs.PairsOf.{AreInOrder, AreProper, Pair, contains, kept_pairs, pairs_before};

use crate::pair_list::{insert, turned};
use domain_api::NoMemory;
use std::alloc::Global;

/// These pairs by their references, the first before the second.
fn sorted(pairs: Vec<(u32, u32)>) -> Result<Vec<(u32, u32)>, NoMemory>
    ensures { IfOk result (λ all. (q : Pair) → contains all.items q ≡ contains pairs.items q) }
{
    let mut all = pairs;
    all.sort()?;
    Ok(all)
}

/// These pairs in order, each once. Where they come in order, each goes behind the others.
fn each_once(alloc: Global, pairs: &[(u32, u32)]) -> Result<Vec<(u32, u32)>, NoMemory>
    ensures { IfOk result (λ all. IsOrdered pairs.now all.items) }
{
    let mut all = Vec::with_capacity(alloc, pairs.len())?;
    for pair in pairs {
        insert(&mut all, *pair)?;
    }
    Ok(all)
}

/// These pairs in order, each once.
fn in_order(alloc: Global, pairs: Vec<(u32, u32)>) -> Result<Vec<(u32, u32)>, NoMemory>
    ensures { IfOk result (λ all. IsOrdered pairs.items all.items) }
{
    let pairs = sorted(pairs)?;
    each_once(alloc, pairs.as_slice())
}

/// Pairs with their references exchanged.
fn all_turned(alloc: Global, pairs: &[(u32, u32)]) -> Result<Vec<(u32, u32)>, NoMemory>
    ensures { IfOk result (λ all. all.items ≡ lower_first pairs.now) }
{
    pairs.iter().map(|pair| turned(*pair)).collect(alloc)
}

/// Puts a reference with each one before it behind the pairs.
fn push_row(pairs: &mut Vec<(u32, u32)>, reference: u32) -> Result<(), NoMemory>
    ensures { OnOk result ((q : Pair) → contains pairs.new.items q ≡
        (contains (pairs_before reference) q || contains pairs.old.items q)) }
{
    for lower in 1..reference {
        pairs.push((lower, reference))?;
    }
    Ok(())
}

/// Pairs that are kept higher first, and behind them those of marked references.
fn collected(alloc: Global, rows: &[(u32, u32)], marks: &[u32]) -> Result<Vec<(u32, u32)>, NoMemory>
    ensures { IfOk result (λ all. (q : Pair) → contains all.items q ≡
        (contains (flat_map pairs_before marks.now) q || contains (lower_first rows.now) q)) }
{
    let mut all = all_turned(alloc, rows)?;
    for reference in marks {
        push_row(&mut all, *reference)?;
    }
    Ok(all)
}

/// All pairs that are kept, in order.
pub(crate) fn all_pairs(
    alloc: Global,
    rows: &[(u32, u32)],
    marks: &[u32],
) -> Result<Vec<(u32, u32)>, NoMemory>
    requires { AreKept rows.now marks.now }
    ensures value { IfOk result (λ all. all.items ≡ kept_pairs (lower_first rows.now) marks.now) }
    ensures in_order { IfOk result (λ all. AreInOrder all.items) }
    ensures proper { IfOk result (λ all. AreProper all.items) }
{
    if rows.is_empty() && marks.is_empty() {
        return Ok(Vec::new(alloc));
    }
    let all = collected(alloc, rows, marks)?;
    in_order(alloc, all)
}

/// The pairs, kept higher first.
pub(crate) fn rows_of(alloc: Global, pairs: &[(u32, u32)]) -> Result<Vec<(u32, u32)>, NoMemory>
    ensures { IfOk result (λ rows. IsOrdered (lower_first pairs.now) rows.items) }
{
    let rows = all_turned(alloc, pairs)?;
    in_order(alloc, rows)
}
