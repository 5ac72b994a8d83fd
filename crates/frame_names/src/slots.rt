//! What symbols and references are bound to.

ghost use Rattle.std.specs.Prelude.{◌≡◌, ◌∷◌, ◌&&◌, ◌+ℤ◌, ◌-ℤ◌, ◌≤ℤ◌, ◌^◌, Some, None, negsuc, pos, drop, length, replicate, IfOk, if◌then◌else◌};
ghost use Rattle.std.specs.Option.{option_map};
ghost use Rattle.domain_api.specs.declared.expr.Expr.{Expr};
ghost use Rattle.frame_names.specs.Binding.{all_filled, bound_by, expr_of, fits, free_slots, is_equal, with_number, with_reference};

use crate::reference::{Reference, are_one_place, nullness_of, place_of};
use alias_facts::Nullness;
use domain_api::{Expr, NoMemory, Order, gap_is_at_least};
use std::alloc::{AllocError, Global};
use std::marker::Model;

/// What a symbol is bound to: the value of another state's expression, less an offset.
#[derive(Clone, Copy, Debug, PartialEq, Eq)]
pub struct Bound {
    /// The expression by which the symbol was first bound.
    pub value: Expr,
    /// What the symbol's own expression added there.
    pub offset: i64,
}

/// What each symbol is bound to so far, from symbol 0 on, and what each reference is.
#[derive(Drop)]
pub(crate) struct Slots {
    pub symbols: Vec<Option<Bound>>,
    pub references: Vec<Option<u32>>,
}

impl Model for Slots {
    ghost use Rattle.frame_names.specs.Binding.{SlotLists};

    ghost Value = { SlotLists };

    ghost view = { λ slots. record { symbols = slots.symbols.items; references = slots.references.items } };
}

// ---- expressions

/// The difference of two constants.
fn difference(k: i64, l: i64) -> i128
    ensures value { result ≡ k -ℤ l }
    ensures low { negsuc (2 ^ 64) ≤ℤ result }
    ensures high { result ≤ℤ pos (2 ^ 64) }
{
    i128::from(k) - i128::from(l)
}

/// A number, and a constant more.
fn more_by(n: i128, k: i64) -> i128
    requires low { negsuc (2 ^ 64) ≤ℤ n }
    requires high { n ≤ℤ pos (2 ^ 64) }
    ensures value { result ≡ n +ℤ k }
    ensures low { negsuc (2 ^ 65) ≤ℤ result }
    ensures high { result ≤ℤ pos (2 ^ 65) }
{
    n + i128::from(k)
}

/// How far the second number lies above the first, and how far the first lies above the second.
fn distances(k: i64, n: i128) -> (i128, i128)
    requires low { negsuc (2 ^ 65) ≤ℤ n }
    requires high { n ≤ℤ pos (2 ^ 65) }
    ensures above { result.0 ≡ k -ℤ n }
    ensures below { result.1 ≡ n -ℤ k }
{
    (i128::from(k) - n, n - i128::from(k))
}

/// The constant of an expression of a bound symbol, by what the symbol is bound to.
fn constant_of(bound: &Bound, f: Expr) -> i128
    ensures value { result ≡ (expr_of bound.now f).k }
    ensures low { negsuc (2 ^ 65) ≤ℤ result }
    ensures high { result ≤ℤ pos (2 ^ 65) }
{
    more_by(difference(bound.value.k, bound.offset), f.k)
}

/// Returns whether an expression is shown to be equal to one of a bound symbol.
fn is_equal<O: Order>(order: &O, e: Expr, bound: &Bound, f: Expr) -> bool
    ensures { result ≡ is_equal (O.gap order.now) e (expr_of bound.now f) }
{
    let (above, below) = distances(e.k, constant_of(bound, f));
    gap_is_at_least(order.gap(e.sym, bound.value.sym), above)
        && gap_is_at_least(order.gap(bound.value.sym, e.sym), below)
}

/// What is bound by an expression.
fn bound_by(e: Expr, f: Expr) -> Bound
    ensures { result ≡ bound_by e f }
{
    Bound {
        value: e,
        offset: f.k,
    }
}

// ---- slots

/// Binds an expression of another state to what an expression of this one is worth: it is the first for the symbol, or
/// equal to what the symbol is bound to. Returns false where it is neither, or the symbol is not there.
pub(crate) fn bind_number<O: Order>(
    order: &O,
    symbols: &mut [Option<Bound>],
    e: Expr,
    f: Expr,
) -> bool
    ensures { (if result then Some symbols.new else None) ≡ with_number (O.gap order.now) e f symbols.old }
{
    match symbols.get(f.sym as usize) {
        None => false,
        Some(Some(bound)) => is_equal(order, e, bound, f),
        Some(None) => {
            symbols[f.sym as usize] = Some(bound_by(e, f));
            true
        }
    }
}

/// Returns whether a reference of another state is null, or of the type of one of this state.
fn fits(a: &[Reference], b: &[Reference], r: u32, q: u32) -> bool
    ensures { result ≡ fits a.now b.now r q }
{
    nullness_of(a, r) == Nullness::Null || are_one_place(place_of(a, r), place_of(b, q))
}

/// Binds a reference of another state to one of this state: it is the first and fits, or is what is bound. Reference 0
/// asks for one that is null. Returns false where this is not so, or the reference is not there.
pub(crate) fn bind_reference(
    a: &[Reference],
    b: &[Reference],
    slots: &mut [Option<u32>],
    r: u32,
    q: u32,
) -> bool
    ensures { (if result then Some slots.new else None) ≡ with_reference a.now b.now r q slots.old }
{
    if q == 0 {
        return nullness_of(a, r) == Nullness::Null;
    }
    match slots.get(q as usize) {
        None => false,
        Some(Some(bound)) => r == *bound,
        Some(None) => {
            let first = fits(a, b, r, q);
            if first {
                slots[q as usize] = Some(r);
            }
            first
        }
    }
}

/// Free slots, behind one that is filled.
fn free_behind<T: Copy>(alloc: Global, first: T, count: usize) -> Result<Vec<Option<T>>, NoMemory>
    ensures { IfOk result (λ slots. slots.items ≡ Some first ∷ replicate count None) }
{
    let all = count.checked_add(1).ok_or(AllocError)?;
    let mut slots = vec![in alloc; None; all]?;
    slots[0] = Some(first);
    Ok(slots)
}

/// What all slots have. None where one is free.
pub(crate) fn all_filled<T: Copy>(
    alloc: Global,
    slots: &[Option<T>],
) -> Result<Option<Vec<T>>, NoMemory>
    ensures { IfOk result (λ filled. option_map (λ all. all.items) filled ≡ all_filled slots.now) }
{
    let mut all = Vec::with_capacity(alloc, slots.len())?;
    for slot in slots {
        let Some(x) = slot else {
            return Ok(None);
        };
        all.push(*x)?;
    }
    Ok(Some(all))
}

impl Slots {
    /// Free slots for so many symbols and references. Symbol 0 is the number 0, and reference 0 is null.
    pub(crate) fn free(alloc: Global, symbols: usize, references: usize) -> Result<Slots, NoMemory>
        ensures { IfOk result (λ slots. slots ≡ free_slots symbols references) }
    {
        let zero = Bound {
            value: Expr { sym: 0, k: 0 },
            offset: 0,
        };
        Ok(Slots {
            symbols: free_behind(alloc, zero, symbols)?,
            references: free_behind(alloc, 0, references)?,
        })
    }
}
