//! The expressions that are named.

ghost use Rattle.std.specs.Prelude.{◌≡◌, IfOk};

use domain_api::{Expr, NoMemory};
use std::alloc::Global;
use std::marker::Model;

/// The expressions of a state's numbers, in the order in which they count as used: those of the variables in order, and
/// behind all of these the lengths of references. Contracts see the list.
#[derive(Drop)]
pub struct Env {
    /// The expressions.
    pub exprs: Vec<Expr>,
}

impl Model for Env {
    ghost use Rattle.std.specs.Prelude.{List};
    ghost use Rattle.domain_api.specs.declared.expr.Expr.{Expr};

    ghost Value = { List Expr };

    ghost view = { λ env. env.exprs.items };
}

impl Env {
    /// The same expressions again.
    pub fn copy(&self, alloc: Global) -> Result<Env, NoMemory>
        ensures { IfOk result (λ again. again ≡ self.now) }
    {
        let exprs = Vec::from_slice(alloc, self.exprs.as_slice())?;
        Ok(Env { exprs })
    }
}
