//! What follows of a state whose frame is bound to that of another.

ghost use Rattle.std.specs.Prelude.{◌≡◌, ℕ, Option, drop, get_or, IfOk, IsTrue};
ghost use Rattle.frame_names.specs.Following.{all_apart, all_entailed};
ghost use Rattle.frame_names.specs.Tables.{AgreeBound, AreNulls, DifferBound};

use crate::apart_pairs::cannot_be_same;
use crate::binding::Binding;
use crate::reference::{Reference, nullness_of};
use alias_facts::Apart;
use domain_api::NoMemory;
use std::alloc::Global;

/// What stands at an index. Where nothing does, reference 0.
fn reference_at(bound: &[u32], index: usize) -> u32
    ensures { result ≡ get_or bound.now index 0 }
{
    match bound.get(index) {
        None => 0,
        Some(r) => *r,
    }
}

/// Returns whether what is known of each reference is known of what it is bound to, from reference 1 on.
#[tactic(auto, using(crate::proofs::ListSteps::head_drop, crate::proofs::ListSteps::next_drop))]
fn are_entailed(a: &[Reference], b: &[Reference], bound: &[u32]) -> bool
    ensures { result ≡ all_entailed a.now b.now bound.now }
{
    for index in 0..b.len() {
        if !nullness_of(a, reference_at(bound, index)).entails(b[index].nullness) {
            return false;
        }
    }
    true
}

/// Returns whether what is known of each reference is known of what it is bound to.
fn all_entailed(a: &[Reference], b: &[Reference], binding: &Binding) -> bool
    ensures { result ≡ all_entailed a.now b.now (drop 1 binding.now.references) }
{
    let bound = binding.references.get(1..).unwrap_or(&[]);
    are_entailed(a, b, bound)
}

/// Returns whether the first state knows, of what each reference of the second is bound to, what the second knows of it
/// being null.
pub fn nullness_follows(a: &[Reference], b: &[Reference], binding: &Binding) -> bool
    ensures value { result ≡ all_entailed a.now b.now (drop 1 binding.now.references) }
    ensures agree { IsTrue result → (array : ℕ → Option ℕ) → AreNulls a.now array →
        AgreeBound array b.now (drop 1 binding.now.references) }
{
    all_entailed(a, b, binding)
}

/// Returns whether what the references of each pair are bound to cannot be the same array.
fn are_apart(a: &[Reference], apart: &Apart, bound: &[u32], pairs: &[(u32, u32)]) -> bool
    ensures { result ≡ all_apart a.now apart.now bound.now pairs.now }
{
    pairs.iter().all(|pair| cannot_be_same(
        a,
        apart,
        reference_at(bound, pair.0 as usize),
        reference_at(bound, pair.1 as usize),
    ))
}

/// Returns whether what the references of each pair that the second state keeps apart are bound to cannot be the same
/// array in the first.
fn all_apart(
    alloc: Global,
    a: &[Reference],
    a_apart: &Apart,
    b_apart: &Apart,
    binding: &Binding,
) -> Result<bool, NoMemory>
    ensures { IfOk result (λ follows. follows ≡ all_apart a.now a_apart.now binding.now.references b_apart.now) }
{
    let pairs = b_apart.pairs(alloc)?;
    Ok(are_apart(a, a_apart, binding.references.as_slice(), pairs.as_slice()))
}

/// Returns whether what the references of each pair that the second state keeps apart are bound to cannot be the same
/// array in the first.
///
/// Cost: each pair of the second state is looked at.
pub fn apart_follows(
    alloc: Global,
    a: &[Reference],
    a_apart: &Apart,
    b_apart: &Apart,
    binding: &Binding,
) -> Result<bool, NoMemory>
    ensures value { IfOk result (λ follows. follows ≡ all_apart a.now a_apart.now binding.now.references b_apart.now) }
    ensures differ { IfOk result (λ follows. IsTrue follows →
        DifferBound a.now a_apart.now binding.now.references b_apart.now) }
{
    all_apart(alloc, a, a_apart, b_apart, binding)
}
