//! The differences among definitions, by the symbol that is subtracted.

ghost use Rattle.std.specs.Prelude.{◌≡◌, ◌+◌, ◌≤◌, ◌<◌, IfOk, IsOk, OnOk, OnErr, filter, nat_le};
ghost use Rattle.std.specs.Vec.{vec_len, vec_capacity};
ghost use Rattle.number_facts.specs.Differences as rule;
ghost use Rattle.number_facts.specs.Differences.{AreDifferences, Rise};

use domain_api::{Expr, NoMemory};
use std::alloc::Global;
use symbolic_values::Def;

/// A symbol that is defined as a difference.
#[derive(Clone, Copy)]
pub(crate) struct Difference {
    /// The symbol.
    pub symbol: u32,
    /// What is subtracted from.
    pub minuend: Expr,
    /// What is subtracted.
    pub subtrahend: Expr,
}

/// The difference as which a symbol is defined.
pub(crate) fn difference_of(symbol: u32, def: Def) -> Option<Difference>
    ensures { result ≡ rule.difference_of symbol def }
{
    match def {
        Def::Sub(minuend, subtrahend) => Some(Difference {
            symbol,
            minuend,
            subtrahend,
        }),
        _ => None,
    }
}

/// The differences among definitions, rising by the symbol that is subtracted; those of one symbol keep their order.
pub(crate) fn sorted_differences(
    alloc: Global,
    definitions: &[(u32, Def)],
) -> Result<Vec<Difference>, NoMemory>
    ensures { IfOk result (λ ds. AreDifferences ds.items definitions.now) }
{
    let mut differences = all_differences(alloc, definitions)?;
    differences.sort_by_key(|d| d.subtrahend.sym)?;
    Ok(differences)
}

/// The differences among definitions, in the same order.
fn all_differences(alloc: Global, definitions: &[(u32, Def)]) -> Result<Vec<Difference>, NoMemory>
    ensures { IfOk result (λ ds. ds.items ≡ rule.differences definitions.now) }
{
    definitions
        .iter()
        .filter_map(|d| difference_of(d.0, d.1))
        .collect(alloc)
}

/// The differences that subtract a symbol or a later one.
fn subtracting_from(differences: &[Difference], y: u32) -> &[Difference]
    requires { Rise differences.now }
    ensures { result.now ≡ filter (λ d. nat_le y d.subtrahend.sym) differences.now }
{
    let start = differences.partition_point(|d| d.subtrahend.sym < y);
    &differences[start..]
}

/// The differences that subtract a symbol or an earlier one.
fn subtracting_up_to(differences: &[Difference], y: u32) -> &[Difference]
    requires { Rise differences.now }
    ensures { result.now ≡ filter (λ d. nat_le d.subtrahend.sym y) differences.now }
{
    let end = differences.partition_point(|d| d.subtrahend.sym <= y);
    &differences[..end]
}

/// The differences that subtract a symbol.
pub(crate) fn subtracting(differences: &[Difference], y: u32) -> &[Difference]
    requires { Rise differences.now }
    ensures { result.now ≡ rule.subtracting y differences.now }
{
    subtracting_up_to(subtracting_from(differences, y), y)
}

/// Puts a difference behind all that subtract its symbol or an earlier one.
fn put(differences: &mut Vec<Difference>, new: Difference) -> Result<(), NoMemory>
    requires { Rise differences.old.items }
    ensures value { OnOk result (differences.new.items ≡ rule.put differences.old.items new) }
    ensures unchanged { OnErr result (differences.new.items ≡ differences.old.items) }
    ensures room { vec_len differences.old < vec_capacity differences.old → IsOk result }
    ensures count { vec_len differences.new ≤ vec_len differences.old + 1 }
    ensures capacity { vec_capacity differences.old ≤ vec_capacity differences.new }
{
    let place = differences.partition_point(|d| d.subtrahend.sym <= new.subtrahend.sym);
    differences.insert(place, new)?;
    Ok(())
}

/// Puts a difference, if there is one, behind all that subtract its symbol or an earlier one.
pub(crate) fn put_some(
    differences: &mut Vec<Difference>,
    new: Option<Difference>,
) -> Result<(), NoMemory>
    requires { Rise differences.old.items }
    ensures value { OnOk result (differences.new.items ≡ rule.put_some differences.old.items new) }
    ensures unchanged { OnErr result (differences.new.items ≡ differences.old.items) }
    ensures room { vec_len differences.old < vec_capacity differences.old → IsOk result }
    ensures count { vec_len differences.new ≤ vec_len differences.old + 1 }
    ensures capacity { vec_capacity differences.old ≤ vec_capacity differences.new }
{
    match new {
        None => Ok(()),
        Some(new) => put(differences, new),
    }
}
