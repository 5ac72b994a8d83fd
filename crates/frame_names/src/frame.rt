//! The variables of a state and its table of references.

ghost use Rattle.std.specs.Prelude.{◌≡◌, ◌++◌, length, map, IfOk, OnOk};
ghost use Rattle.frame_names.specs.Frames.{length_at, numbers_of, references_of};
ghost use Rattle.frame_names.specs.PairedFrames.{exprs_of, old_of};

use crate::reference::{Reference, length_of};
use crate::var::Var;
use domain_api::{Expr, NoMemory};
use std::alloc::Global;
use symbolic_values::Key;

/// What a state knows of its variables and references.
#[derive(Drop)]
pub struct Frame<'a> {
    /// The variables, in order.
    pub vars: &'a [Var],
    /// The references from 1 on, in order.
    pub references: &'a [Reference],
}

/// The references of variables, in order.
pub(crate) fn references_of(alloc: Global, vars: &[Var]) -> Result<Vec<u32>, NoMemory>
    ensures { IfOk result (λ references. references.items ≡ references_of vars.now) }
{
    vars.iter().filter_map(|var| var.reference()).collect(alloc)
}

/// Appends the numbers of variables, in order.
fn push_numbers(exprs: &mut Vec<Expr>, vars: &[Var]) -> Result<(), NoMemory>
    ensures { OnOk result (exprs.new.items ≡ exprs.old.items ++ numbers_of vars.now) }
{
    for var in vars {
        if let Some(number) = var.number() {
            exprs.push(number)?;
        }
    }
    Ok(())
}

/// How many variables have a number.
pub(crate) fn count_numbers(vars: &[Var]) -> usize
    ensures { result ≡ length (numbers_of vars.now) }
{
    vars.iter().filter_map(|var| var.number()).count()
}

/// What a paired reference was in the first state, or in the second.
fn old_of(is_first: bool, key: &Key) -> u32
    ensures { result ≡ old_of is_first key.now }
{
    if is_first { key.s } else { key.t }
}

/// Appends the lengths of paired references in one of the states.
fn push_lengths(
    exprs: &mut Vec<Expr>,
    table: &[Reference],
    is_first: bool,
    keys: &[Key],
) -> Result<(), NoMemory>
    ensures { OnOk result (exprs.new.items ≡
        exprs.old.items ++ map (λ key. length_at table.now (old_of is_first key)) keys.now) }
{
    for key in keys {
        exprs.push(length_of(table, old_of(is_first, key)))?;
    }
    Ok(())
}

impl<'a> Frame<'a> {
    /// The numbers of the variables, and behind them the lengths of paired references. This is the first of the paired
    /// states, or the second.
    pub(crate) fn exprs(
        &self,
        alloc: Global,
        is_first: bool,
        keys: &[Key],
    ) -> Result<Vec<Expr>, NoMemory>
        ensures { IfOk result (λ exprs. exprs.items ≡
            exprs_of self.now.vars.now self.now.references.now is_first keys.now) }
    {
        // A variable that is no address has at most one of a number and a reference: this is room for the lengths too.
        let mut exprs = Vec::with_capacity(alloc, self.vars.len())?;
        push_numbers(&mut exprs, self.vars)?;
        push_lengths(&mut exprs, self.references, is_first, keys)?;
        Ok(exprs)
    }
}
