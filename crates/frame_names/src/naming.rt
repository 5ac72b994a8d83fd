//! Variables in their new names.

ghost use Rattle.std.specs.Prelude.{◌≡◌, ◌∷◌, List, drop, IfOk};
ghost use Rattle.frame_names.specs.PairedFrames.{behind, first_expr, new_vars};
ghost use Rattle.frame_names.specs.declared.var.Var.{Var};

use crate::var::Var;
use domain_api::{Expr, NoMemory};
use std::alloc::Global;

/// Takes the next of some expressions, from an index on. Where none is left, the constant 0.
fn take_next(exprs: &[Expr], index: &mut usize) -> Expr
    ensures value { result ≡ first_expr (drop index.old exprs.now) }
    ensures left { drop index.new exprs.now ≡ behind (drop index.old exprs.now) }
{
    match exprs.get(*index) {
        None => Expr { sym: 0, k: 0 },
        Some(next) => {
            *index += 1;
            *next
        }
    }
}

/// How many new numbers and references were taken.
#[derive(Drop)]
struct Taken {
    numbers: usize,
    references: usize,
}

impl Taken {
    /// The new name of a variable.
    fn name(&mut self, var: Var, numbers: &[Expr], references: &[Expr]) -> Var
        ensures { (vs : List Var) →
            new_vars (drop self.old.numbers numbers.now) (drop self.old.references references.now) (var ∷ vs)
            ≡ result ∷ new_vars (drop self.new.numbers numbers.now) (drop self.new.references references.now) vs }
    {
        match var {
            Var::Number(_) => Var::Number(take_next(numbers, &mut self.numbers)),
            Var::Reference(_) => Var::Reference(take_next(references, &mut self.references).sym),
            Var::Text => Var::Text,
            Var::Address(..) => {
                let reference = take_next(references, &mut self.references).sym;
                Var::Address(reference, take_next(numbers, &mut self.numbers))
            }
        }
    }
}

/// The variables, where each number and each reference has the next of these names.
pub(crate) fn new_vars(
    alloc: Global,
    vars: &[Var],
    numbers: &[Expr],
    references: &[Expr],
) -> Result<Vec<Var>, NoMemory>
    ensures { IfOk result (λ new. new.items ≡ new_vars numbers.now references.now vars.now) }
{
    let mut new = Vec::with_capacity(alloc, vars.len())?;
    let mut taken = Taken {
        numbers: 0,
        references: 0,
    };
    for var in vars {
        new.push(taken.name(*var, numbers, references))?;
    }
    Ok(new)
}
