//! What comparisons push.

ghost use Rattle.std.specs.Prelude.{◌≡◌, ◌≤◌, ◌+◌, pos, true, length, IfOk, OnOk, OnErr, Some, is_some};
ghost use Rattle.interval_domain.specs.Interval.{between};
ghost use Rattle.number_facts.specs.Facts.{IsNamed};
ghost use Rattle.state_facts.specs.Comparing as rule;
ghost use Rattle.state_facts.specs.Moves.{IsNamedNumber};

use crate::known::Known;
use alias_facts::Nullness;
use cil_model::BinOp;
use domain_api::{Expr, NoMemory, Values};
use frame_names::Var;
use interval_domain::Range;
use number_facts::Numbers;
use std::alloc::AllocError;
use symbolic_values::Def;

/// The reference that is compared with null. None where both are other references.
pub(crate) fn null_tested(r: u32, q: u32) -> Option<u32>
    ensures { result ≡ rule.null_tested r q }
{
    if r == 0 {
        Some(q)
    } else if q == 0 {
        Some(r)
    } else {
        None
    }
}

/// Returns whether a reference is known to be null, or known not to be.
fn null_known(nullness: Nullness) -> Option<bool>
    ensures { result ≡ rule.null_known nullness }
{
    match nullness {
        Nullness::May => None,
        Nullness::NotNull => Some(false),
        Nullness::Null => Some(true),
    }
}

/// The number of a truth, or of its contrary.
fn truth(holds: bool, is: bool) -> Expr
    ensures { result ≡ rule.truth_expr holds is }
{
    Expr {
        sym: 0,
        k: i64::from(holds == is),
    }
}

/// The numbers of a truth.
#[tactic(auto, using(number_spans::proofs::NoNumbers::hull_of_bits))]
fn bit() -> Range
    ensures { result ≡ between (pos 0) (pos 1) }
{
    Range::constant(0).hull(&Range::constant(1))
}

/// The number that the next symbol gets.
fn next_symbol(numbers: &Numbers) -> Result<u32, NoMemory>
    ensures { IfOk result (λ sym. sym ≡ length numbers.now.ranges + 1) }
{
    u32::try_from(numbers.ranges.len() + 1).map_err(|_| AllocError)
}

impl Known {
    /// Pushes the truth of a comparison of numbers.
    #[tactic(auto, unfolding(crate::specs::Comparing::with_truth))]
    fn push_truth(&mut self, op: BinOp, a: Expr, b: Expr) -> Result<(), NoMemory>
        requires first { IsNamed self.old.facts a }
        requires second { IsNamed self.old.facts b }
        ensures ok { OnOk result (self.new ≡ rule.with_truth op a b self.old) }
        ensures err { OnErr result (self.new ≡ self.old) }
    {
        self.variables.reserve(1)?;
        let e = self.numbers.compare(op, a, b)?;
        self.variables.push(Var::Number(e))?;
        Ok(())
    }

    /// Returns whether a reference is known to be an array.
    fn is_array(&self, r: u32) -> bool
        ensures { result ≡ rule.is_array self.now r }
    {
        self.nullness(r) == Nullness::NotNull
    }

    /// Returns whether two references are known to be the same, or known not to be.
    #[tactic(auto, unfolding(crate::specs::Comparing::same_known))]
    fn same_known(&self, r: u32, q: u32) -> Option<bool>
        ensures { result ≡ rule.same_known self.now r q }
    {
        if r == q {
            Some(true)
        } else if self.is_apart(r, q) && (self.is_array(r) || self.is_array(q)) {
            Some(false)
        } else {
            None
        }
    }

    /// Pushes a truth that is not known, with what it is the truth of.
    #[tactic(auto, unfolding(crate::specs::Comparing::with_defined, number_facts::specs::Fresh::noted, number_facts::specs::Fresh::defined))]
    fn push_defined(&mut self, def: Def) -> Result<(), NoMemory>
        ensures ok { OnOk result (self.new ≡ rule.with_defined def self.old) }
        ensures err { OnErr result (self.new ≡ self.old) }
    {
        let sym = next_symbol(&self.numbers)?;
        self.variables.reserve(1)?;
        self.numbers.ranges.reserve(1)?;
        self.numbers.definitions.push(sym, def)?;
        self.numbers.ranges.push(bit())?;
        self.variables.push(Var::Number(Expr { sym, k: 0 }))?;
        Ok(())
    }

    /// Pushes whether a reference is null, or is not.
    #[tactic(auto, unfolding(crate::specs::Comparing::with_null_test))]
    fn push_null_test(&mut self, r: u32, is: bool) -> Result<(), NoMemory>
        ensures ok { OnOk result (self.new ≡ rule.with_null_test r is self.old) }
        ensures err { OnErr result (self.new ≡ self.old) }
    {
        match null_known(self.nullness(r)) {
            Some(holds) => self.push(Var::Number(truth(holds, is))),
            None => self.push_defined(Def::NullTest(r, is)),
        }
    }

    /// Pushes whether two references other than 0 are the same, or are not.
    #[tactic(auto, unfolding(crate::specs::Comparing::with_same))]
    fn push_same(&mut self, r: u32, q: u32, is: bool) -> Result<bool, NoMemory>
        ensures reached { IfOk result (λ reached. reached ≡ is_some (rule.with_same r q is self.old)) }
        ensures ok { IfOk result (λ reached. reached ≡ true → rule.with_same r q is self.old ≡ Some self.new) }
        ensures err { OnErr result (self.new ≡ self.old) }
    {
        if let Some(holds) = self.same_known(r, q) {
            self.push(Var::Number(truth(holds, is)))?;
            return Ok(true);
        }
        self.push_number(0, 1)
    }

    /// Pushes the truth of a comparison, 1 or 0, or a number of both. Of two references it is whether they are the same
    /// array, or are not. False: nothing is reached.
    ///
    /// # Errors
    ///
    /// Want of memory leaves what was known.
    #[tactic(auto, unfolding(crate::specs::Comparing::with_comparison))]
    pub fn compare(&mut self, op: BinOp, a: Var, b: Var) -> Result<bool, NoMemory>
        requires first { IsNamedNumber self.old a }
        requires second { IsNamedNumber self.old b }
        ensures reached { IfOk result (λ reached. reached ≡ is_some (rule.with_comparison op a b self.old)) }
        ensures ok { IfOk result (λ reached. reached ≡ true → rule.with_comparison op a b self.old ≡ Some self.new) }
        ensures err { OnErr result (self.new ≡ self.old) }
    {
        match (a, b) {
            (Var::Number(x), Var::Number(y)) => {
                self.push_truth(op, x, y)?;
                Ok(true)
            }
            (Var::Reference(r), Var::Reference(q)) => match null_tested(r, q) {
                Some(tested) => {
                    self.push_null_test(tested, op == BinOp::Ceq)?;
                    Ok(true)
                }
                None => self.push_same(r, q, op == BinOp::Ceq),
            },
            (Var::Number(_) | Var::Reference(_) | Var::Text | Var::Address(..), _) => Ok(true),
        }
    }
}
