//! Pairing the references of two states.

ghost use Rattle.std.specs.Prelude.{◌≡◌, length, map, IfOk};
ghost use Rattle.symbolic_values.specs.Names.{as_expr, paired_reference, paired_references};

use crate::pairing::pair;
use crate::pairs::Pairs;
use domain_api::{Expr, NoMemory};
use std::alloc::Global;

/// The references of two states, named together. A type of their own, so that they are not taken for numbers.
#[derive(Drop)]
pub struct ReferencePairs {
    /// The pairs: each reference is the symbol of its number, with the constant 0.
    pub pairs: Pairs,
}

/// References as symbols.
fn as_exprs(alloc: Global, references: &[u32]) -> Result<Vec<Expr>, NoMemory>
    ensures { IfOk result (λ exprs. exprs.items ≡ map as_expr references.now) }
{
    references
        .iter()
        .map(|r| Expr { sym: *r, k: 0 })
        .collect(alloc)
}

/// The references of two states named together, place by place: as `pair_up` does it with their numbers, so that two
/// nulls are null.
///
/// Cost and `NoMemory`: as of `pair_up`.
#[tactic(auto, using(crate::proofs::ReferenceLaws::are_near, crate::proofs::ReferenceLaws::same_length))]
pub fn pair_references(alloc: Global, a: &[u32], b: &[u32]) -> Result<ReferencePairs, NoMemory>
    requires { length a.now ≡ length b.now }
    ensures { IfOk result (λ references. references.pairs ≡ paired_references a.now b.now) }
{
    if a.is_empty() {
        let pairs = Pairs::none(alloc);
        return Ok(ReferencePairs { pairs });
    }
    let first = as_exprs(alloc, a)?;
    let second = as_exprs(alloc, b)?;
    let pairs = pair(alloc, first.as_slice(), second.as_slice())?;
    Ok(ReferencePairs { pairs })
}

impl ReferencePairs {
    /// The reference that stands for one of the first state and one of the second, if they are paired.
    ///
    /// Cost: as of `Pairs::named`.
    pub fn named(&self, r: u32, q: u32) -> Option<u32>
        ensures { result ≡ paired_reference self.now.pairs r q }
    {
        let name = self
            .pairs
            .named(Expr { sym: r, k: 0 }, Expr { sym: q, k: 0 })?;
        Some(name.sym)
    }

    /// The same pairs again.
    pub fn copy(&self, alloc: Global) -> Result<ReferencePairs, NoMemory>
        ensures { IfOk result (λ again. again ≡ self.now) }
    {
        let pairs = self.pairs.copy(alloc)?;
        Ok(ReferencePairs { pairs })
    }
}
