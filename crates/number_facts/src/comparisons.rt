//! What is known of comparisons of numbers, where they are pushed.

ghost use Rattle.std.specs.Prelude.{◌≡◌, pos, IfOk, OnOk, OnErr, Some, None};
ghost use Rattle.interval_domain.specs.Interval.{between};
ghost use Rattle.number_facts.specs.Comparisons.{apart, equal_known, less_known, less_unsigned_known};
ghost use Rattle.number_facts.specs.Comparisons.{compared, defined_by, known, pushed, truth_of};
ghost use Rattle.number_facts.specs.Fresh.{noted};
ghost use Rattle.number_facts.specs.Facts.{IsNamed};
ghost use Rattle.number_facts.specs.Holds.{KeepsForm, KeepsTruth};

use crate::numbers::Numbers;
use crate::relation::Relation;
use cil_model::BinOp;
use domain_api::{Expr, NoMemory, Values};
use interval_domain::Range;
use number_spans::{constant, is_one_excluded, of_constants};
use symbolic_values::Def;

/// The numbers of a truth value.
#[tactic(auto, using(number_spans::proofs::NoNumbers::hull_of_bits))]
fn bit() -> Range
    ensures { result ≡ between (pos 0) (pos 1) }
{
    Range::constant(0).hull(&Range::constant(1))
}

/// What a comparison says that its truth is. None for an operator that is no comparison.
fn truth_of(op: BinOp, a: Expr, b: Expr) -> Option<Def>
    ensures { result ≡ truth_of op a b }
{
    match op {
        BinOp::Ceq => Some(Def::Eq(a, b)),
        BinOp::Cgt => Some(Def::Lt(b, a)),
        BinOp::CgtUn => Some(Def::LtUn(b, a)),
        BinOp::Clt => Some(Def::Lt(a, b)),
        BinOp::CltUn => Some(Def::LtUn(a, b)),
        _ => None,
    }
}

impl Numbers {
    /// Returns whether the first is known to be less than the second, or known not to be.
    #[tactic(auto, unfolding(crate::specs::Comparisons::less_known))]
    fn less_known(&self, a: Expr, b: Expr) -> Option<bool>
        ensures { result ≡ less_known self.now a b }
    {
        if self.is_at_most(a, 1, b) {
            Some(true)
        } else if self.is_at_most(b, 0, a) {
            Some(false)
        } else {
            None
        }
    }

    /// Returns whether they are known to differ.
    #[tactic(auto, unfolding(crate::specs::Comparisons::apart))]
    fn is_apart(&self, a: Expr, b: Expr) -> bool
        ensures { result ≡ apart self.now a b }
    {
        let r = self.range_of(a);
        let q = self.range_of(b);
        self.is_at_most(a, 1, b)
            || self.is_at_most(b, 1, a)
            || is_one_excluded(r, q)
            || is_one_excluded(q, r)
    }

    /// Returns whether they are known to be equal, or known not to be.
    #[tactic(auto, unfolding(crate::specs::Comparisons::equal_known))]
    fn equal_known(&self, a: Expr, b: Expr) -> Option<bool>
        ensures { result ≡ equal_known self.now a b }
    {
        if self.is_equal(a, b) {
            Some(true)
        } else if self.is_apart(a, b) {
            Some(false)
        } else {
            None
        }
    }

    /// The same of the first being less than the second, where both are taken as unsigned.
    #[tactic(auto, unfolding(crate::specs::Comparisons::less_unsigned_known))]
    fn less_unsigned_known(&self, a: Expr, b: Expr) -> Option<bool>
        ensures { result ≡ less_unsigned_known self.now a b }
    {
        if self.range_of(a).is_not_negative() && self.range_of(b).is_not_negative() {
            self.less_known(a, b)
        } else {
            None
        }
    }

    /// Returns whether a comparison is known to be true, or known to be false.
    #[tactic(auto, unfolding(crate::specs::Comparisons::known))]
    fn known(&self, op: BinOp, a: Expr, b: Expr) -> Option<bool>
        ensures { result ≡ known op self.now a b }
    {
        match op {
            BinOp::Ceq => self.equal_known(a, b),
            BinOp::Cgt => self.less_known(b, a),
            BinOp::CgtUn => self.less_unsigned_known(b, a),
            BinOp::Clt => self.less_known(a, b),
            BinOp::CltUn => self.less_unsigned_known(a, b),
            _ => None,
        }
    }

    /// What a comparison of numbers that are not both constants pushes.
    fn pushed(&mut self, op: BinOp, a: Expr, b: Expr) -> Result<Expr, NoMemory>
        ensures value { IfOk result (λ e. e ≡ (pushed op self.old a b (known op self.old a b)).expr) }
        ensures facts { OnOk result (self.new ≡ (pushed op self.old a b (known op self.old a b)).facts) }
        ensures err { OnErr result (self.new ≡ self.old) }
    {
        match self.known(op, a, b) {
            Some(holds) => Ok(constant(i64::from(holds))),
            None => match truth_of(op, a, b) {
                None => self.noted_with(bit(), &[]),
                Some(def) => self.noted_with(bit(), &[Relation::Is(def)]),
            },
        }
    }

    /// What a comparison pushes, as its rule says.
    #[tactic(auto, unfolding(crate::specs::Comparisons::compared))]
    fn compared(&mut self, op: BinOp, a: Expr, b: Expr) -> Result<Expr, NoMemory>
        ensures value { IfOk result (λ e. e ≡ (compared op self.old a b).expr) }
        ensures facts { OnOk result (self.new ≡ (compared op self.old a b).facts) }
        ensures err { OnErr result (self.new ≡ self.old) }
    {
        match of_constants(op, a, b) {
            Some(only) => Ok(constant(i64::from(only))),
            None => self.pushed(op, a, b),
        }
    }

    /// Returns what a comparison pushes: 1 where it is known to be true and 0 where it is known to be false, else a
    /// new symbol that is one of the two and has the comparison as its definition. An operator that is no comparison
    /// gives its result of two constants, and else a new symbol without a definition.
    ///
    /// # Errors
    ///
    /// Want of memory leaves what was known.
    pub fn compare(&mut self, op: BinOp, a: Expr, b: Expr) -> Result<Expr, NoMemory>
        requires first { IsNamed self.old a }
        requires second { IsNamed self.old b }
        ensures value { IfOk result (λ e. e ≡ (compared op self.old a b).expr) }
        ensures facts { OnOk result (self.new ≡ (compared op self.old a b).facts) }
        ensures keeps { IfOk result (λ e. KeepsTruth op a b self.old e self.new) }
        ensures form { KeepsForm self.old self.new }
        ensures err { OnErr result (self.new ≡ self.old) }
    {
        self.compared(op, a, b)
    }
}
