//! Whether one state says at least as much as another.

ghost use Rattle.std.specs.Prelude.{◌≡◌, get_or, IfOk, None};
ghost use Rattle.std.specs.List.{list_all};
ghost use Rattle.frame_names.specs.Frames.{AreAlike};
ghost use Rattle.state_facts.specs.Forms.{HasForm};
ghost use Rattle.merged_states.specs.Following.{TellsFollowing};
ghost use Rattle.merged_states.specs.Inclusion as rule;

use crate::sides::{frame_of, side_of};
use domain_api::{Expr, NoMemory};
use frame_names::{Binding, Bound, apart_follows, bind_frames, nullness_follows};
use merged_numbers::includes as includes_numbers;
use state_facts::{Known, definition_at};
use std::alloc::Global;
use symbolic_values::Def;

/// What a symbol is bound to, as an expression. None where its constant leaves 64 bits.
fn bound_expr(bound: &Bound) -> Option<Expr>
    ensures { result ≡ rule.bound_expr bound.now }
{
    let k = i128::from(bound.value.k) - i128::from(bound.offset);
    if k < -9_223_372_036_854_775_808 || 9_223_372_036_854_775_807 < k {
        None
    } else {
        Some(Expr {
            sym: bound.value.sym,
            k: k as i64,
        })
    }
}

/// What each symbol is bound to, as an expression.
fn symbol_names(alloc: Global, binding: &Binding) -> Result<Vec<Option<Expr>>, NoMemory>
    ensures { IfOk result (λ names. names.items ≡ rule.symbol_names binding.now) }
{
    let bound = binding.symbols.as_slice();
    bound.iter().map(|bound| bound_expr(bound)).collect(alloc)
}

/// What each reference is bound to.
fn reference_names(alloc: Global, binding: &Binding) -> Result<Vec<Option<u32>>, NoMemory>
    ensures { IfOk result (λ names. names.items ≡ rule.bound_references binding.now) }
{
    let bound = binding.references.as_slice();
    bound.iter().map(|r| Some(*r)).collect(alloc)
}

/// The definition of what a symbol is bound to, where it is bound to a symbol alone.
fn def_bound(definitions: &[(u32, Def)], name: Option<Expr>) -> Option<Def>
    ensures { result ≡ rule.def_bound definitions.now name }
{
    match name {
        Some(e) if e.k == 0 => definition_at(definitions, e.sym),
        _ => None,
    }
}

/// The name at a symbol's place.
fn name_at(names: &[Option<Expr>], symbol: u32) -> Option<Expr>
    ensures { result ≡ get_or names.now symbol None }
{
    match names.get(symbol as usize) {
        Some(name) => *name,
        None => None,
    }
}

/// Returns whether both are there and the same.
fn are_same(a: Option<Def>, b: Option<Def>) -> bool
    ensures { result ≡ rule.same_defs a b }
{
    match (a, b) {
        (Some(a), Some(b)) => a == b,
        _ => false,
    }
}

/// Returns whether the symbol of a definition is bound to one that has the same definition.
fn def_follows(
    definitions: &[(u32, Def)],
    symbols: &[Option<Expr>],
    references: &[Option<u32>],
    definition: &(u32, Def),
) -> bool
    ensures { result ≡ rule.def_follows definitions.now symbols.now references.now definition.now }
{
    let (symbol, def) = *definition;
    let known = def_bound(definitions, name_at(symbols, symbol));
    are_same(known, def.renamed(symbols, references))
}

/// Returns whether each definition is one of the others.
fn all_follow(
    definitions: &[(u32, Def)],
    symbols: &[Option<Expr>],
    references: &[Option<u32>],
    others: &[(u32, Def)],
) -> bool
    ensures { result ≡ list_all (rule.def_follows definitions.now symbols.now references.now) others.now }
{
    others.iter().all(|definition| def_follows(definitions, symbols, references, definition))
}

/// Returns whether each definition of the second state is one of the first.
fn definitions_follow(
    alloc: Global,
    a: &Known,
    b: &Known,
    binding: &Binding,
    symbols: &[Option<Expr>],
) -> Result<bool, NoMemory>
    requires { symbols.now ≡ rule.symbol_names binding.now }
    ensures { IfOk result (λ follow. follow ≡ rule.definitions_follow a.now b.now binding.now) }
{
    let references = reference_names(alloc, binding)?;
    Ok(all_follow(
        a.numbers.definitions.rows(),
        symbols,
        references.as_slice(),
        b.numbers.definitions.rows(),
    ))
}

/// Returns whether what the second state knows of numbers by ranges and bounds is known of what they are bound to.
#[tactic(auto, using(crate::proofs::Handed::measured))]
fn numbers_follow(alloc: Global, a: &Known, b: &Known, binding: &Binding) -> Result<bool, NoMemory>
    ensures { IfOk result (λ follow. follow ≡ rule.numbers_follow a.now b.now binding.now) }
{
    let spans = a.numbers.spans(alloc)?;
    let bound = binding.symbols.get(1..).unwrap_or(&[]);
    Ok(includes_numbers(
        &side_of(a, spans.as_slice()),
        bound,
        b.numbers.ranges.as_slice(),
        &b.numbers.bounds,
    ))
}

/// Returns whether what the second state knows of items is known of what their references are bound to.
fn items_follow(
    alloc: Global,
    a: &Known,
    b: &Known,
    binding: &Binding,
    symbols: &[Option<Expr>],
) -> Result<bool, NoMemory>
    requires first { HasForm a.now }
    requires second { HasForm b.now }
    requires symbols { symbols.now ≡ rule.symbol_names binding.now }
    ensures { IfOk result (λ follow. follow ≡ rule.items_follow a.now b.now binding.now) }
{
    let bound = binding.references.get(1..).unwrap_or(&[]);
    a.contents
        .includes(alloc, &a.numbers, symbols, bound, &b.contents)
}

/// Returns whether the first state knows all that the second knows of what is bound.
fn all_follows(alloc: Global, a: &Known, b: &Known, binding: &Binding) -> Result<bool, NoMemory>
    requires first { HasForm a.now }
    requires second { HasForm b.now }
    ensures { IfOk result (λ follows. follows ≡ rule.all_follows a.now b.now binding.now) }
{
    let (first, second) = (a.references.as_slice(), b.references.as_slice());
    if !nullness_follows(first, second, binding) {
        return Ok(false);
    }
    if !numbers_follow(alloc, a, b, binding)? {
        return Ok(false);
    }
    if second.is_empty() && b.numbers.definitions.rows().is_empty() {
        return apart_follows(alloc, first, &a.apart, &b.apart, binding);
    }
    let symbols = symbol_names(alloc, binding)?;
    if !definitions_follow(alloc, a, b, binding, symbols.as_slice())? {
        return Ok(false);
    }
    if !apart_follows(alloc, first, &a.apart, &b.apart, binding)? {
        return Ok(false);
    }
    items_follow(alloc, a, b, binding, symbols.as_slice())
}

/// Returns whether the frame of the second state can be bound to that of the first, and all follows then.
fn is_included(alloc: Global, a: &Known, b: &Known) -> Result<bool, NoMemory>
    requires first { HasForm a.now }
    requires second { HasForm b.now }
    requires alike { AreAlike a.now.variables b.now.variables }
    ensures { IfOk result (λ is. is ≡ rule.is_included_known a.now b.now) }
{
    let symbols = b.numbers.ranges.len();
    let Some(binding) = bind_frames(alloc, &a.numbers, &frame_of(a), &frame_of(b), symbols)? else {
        return Ok(false);
    };
    all_follows(alloc, a, b, &binding)
}

/// Returns whether the first state says at least as much as the second, where both are reached: each variable and
/// length of the second is bound to what the first has there, and all that the second knows is known of what is bound.
///
/// Cost: two gaps for each variable and length, a search for each bound and definition, a look at each pair, and for
/// each reference that of comparing what is known of its items.
pub fn includes(alloc: Global, a: &Known, b: &Known) -> Result<bool, NoMemory>
    requires first { HasForm a.now }
    requires second { HasForm b.now }
    requires alike { AreAlike a.now.variables b.now.variables }
    ensures value { IfOk result (λ is. is ≡ rule.is_included_known a.now b.now) }
    ensures holds { IfOk result (TellsFollowing a.now b.now) }
{
    is_included(alloc, a, b)
}
