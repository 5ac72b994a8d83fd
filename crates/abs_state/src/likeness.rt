//! Whether two states may be joined, widened and compared.

ghost use Rattle.std.specs.Prelude.{◌≡◌, ◌↔◌, IsTrue, true};
ghost use Rattle.merged_states.specs.Alike.{AreLike, AreLikeStates, IsLike};
ghost use Rattle.state_facts.specs.StateFacts.{both_of_same_place, reference_at};

use crate::state::AbsState;
use frame_names::Var;
use state_facts::Known;

/// Returns whether two references may be of one array: one is reference 0, or both have one type.
fn may_be_one(a: &Known, b: &Known, r: u32, q: u32) -> bool
    ensures { IsTrue result
        ↔ (both_of_same_place (reference_at a.now.references r) (reference_at b.now.references q) ≡ true) }
{
    match (a.reference_at(r), b.reference_at(q)) {
        (Some(first), Some(second)) => first.place == second.place,
        _ => true,
    }
}

/// Returns whether both variables have a number, or a text, or references that may be of one array, or addresses of
/// items that may be.
fn is_like(a: &Known, b: &Known, v: Var, w: Var) -> bool
    ensures { IsTrue result ↔ IsLike a.now b.now v w }
{
    match (v, w) {
        (Var::Number(_), Var::Number(_)) | (Var::Text, Var::Text) => true,
        (Var::Reference(r), Var::Reference(q)) | (Var::Address(r, _), Var::Address(q, _)) => {
            may_be_one(a, b, r, q)
        }
        (Var::Number(_) | Var::Reference(_) | Var::Text | Var::Address(..), _) => false,
    }
}

/// Returns whether there are as many variables, and each two are like each other.
#[tactic(auto, using(crate::proofs::AlikeVariables::likeness))]
fn are_like(a: &Known, b: &Known) -> bool
    ensures { IsTrue result ↔ AreLike a.now b.now a.now.variables b.now.variables }
{
    if a.variables.len() != b.variables.len() {
        return false;
    }
    for index in 0..a.variables.len() {
        if !is_like(a, b, a.variables[index], b.variables[index]) {
            return false;
        }
    }
    true
}

impl AbsState {
    /// Returns whether two states may be joined, widened and compared: one is not reached, or both have as many
    /// variables, and each two have numbers, or texts, or references, or addresses. Of two references, also of those
    /// of addresses, one is reference 0, or both have one type. Takes no memory.
    pub fn is_like(&self, other: &AbsState) -> bool
        ensures { IsTrue result ↔ AreLikeStates self.now other.now }
    {
        match (&self.known, &other.known) {
            (Some(a), Some(b)) => are_like(a, b),
            _ => true,
        }
    }
}
