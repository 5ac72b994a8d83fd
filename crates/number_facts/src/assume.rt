//! What is known where a comparison is assumed to hold, or not to hold.

ghost use Rattle.std.specs.Prelude.{◌≡◌, ◌≤◌, ◌≤ℤ◌, ◌+ℤ◌, ◌-ℤ◌, pos, true, length, IfOk, OnErr, Some, if◌then◌else◌};
ghost use Rattle.std.specs.Option.{is_some};
ghost use Rattle.number_spans.specs.Sizes.{IsBounded, IsWide};
ghost use Rattle.number_facts.specs.Sizes.{IsFar};
ghost use Rattle.number_facts.specs.Ends.{range_of};
ghost use Rattle.number_facts.specs.Facts.{IsNamed};
ghost use Rattle.number_facts.specs.Gaps.{at_most};
ghost use Rattle.number_facts.specs.Holds.{KeepsCompared, KeepsForm};
ghost use Rattle.number_facts.specs.Assume as rule;

use crate::numbers::Numbers;
use cil_model::CmpOp;
use domain_api::{Expr, NoMemory};
use interval_domain::Range;
use number_spans::{below, constant, less_by, range_but_for, range_from, range_upto, sum_of};

/// The comparison that is assumed where one holds, or the contrary one where it does not hold.
fn assumed(op: CmpOp, holds: bool) -> CmpOp
    ensures { result ≡ (if holds then op else rule.contrary op) }
{
    if holds {
        return op;
    }
    match op {
        CmpOp::Eq => CmpOp::NeUn,
        CmpOp::Ge => CmpOp::Lt,
        CmpOp::Gt => CmpOp::Le,
        CmpOp::Le => CmpOp::Gt,
        CmpOp::Lt => CmpOp::Ge,
        CmpOp::NeUn => CmpOp::Eq,
        CmpOp::GeUn => CmpOp::LtUn,
        CmpOp::GtUn => CmpOp::LeUn,
        CmpOp::LeUn => CmpOp::GtUn,
        CmpOp::LtUn => CmpOp::GeUn,
    }
}

/// Returns what is left of 1.
fn rest(more: i64) -> i64
    requires { (pos 0 ≤ℤ more) × (more ≤ℤ pos 1) }
    ensures { result ≡ pos 1 -ℤ more }
{
    1 - more
}

/// An end with a constant added.
fn with_constant(n: i128, k: i64) -> i128
    requires { IsWide n }
    ensures value { result ≡ n +ℤ k }
    ensures bound { IsFar result }
{
    n + i128::from(k)
}

/// A number less another one.
fn less_more(n: i128, more: i64) -> i128
    requires { IsFar n }
    ensures value { result ≡ n -ℤ more }
    ensures bound { IsBounded result }
{
    n - i128::from(more)
}

/// A number and another one more.
pub(crate) fn and_more(n: i128, more: i64) -> i128
    requires { IsFar n }
    ensures value { result ≡ n +ℤ more }
    ensures bound { IsBounded result }
{
    n + i128::from(more)
}

impl Numbers {
    /// Gives a symbol another range. That of symbol 0 is never changed.
    #[tactic(auto, using(crate::proofs::Symbols::changes), unfolding(crate::specs::Assume::changed))]
    fn change(&mut self, sym: u32, range: Option<Range>) -> bool
        requires there { sym ≤ length self.old.ranges }
        ensures reached { result ≡ is_some (rule.changed self.old sym range) }
        ensures facts { result ≡ true → rule.changed self.old sym range ≡ Some self.new }
        ensures count { length self.new.ranges ≡ length self.old.ranges }
    {
        if sym == 0 {
            return true;
        }
        let Some(range) = range else {
            return false;
        };
        self.ranges[sym as usize - 1] = range;
        true
    }

    /// The expression is at most a number.
    #[tactic(auto, unfolding(crate::specs::Assume::lowered))]
    fn lower(&mut self, e: Expr, n: i128) -> bool
        requires there { e.sym ≤ length self.old.ranges }
        requires number { IsBounded n }
        ensures reached { result ≡ is_some (rule.lowered self.old e n) }
        ensures facts { result ≡ true → rule.lowered self.old e n ≡ Some self.new }
        ensures count { length self.new.ranges ≡ length self.old.ranges }
    {
        self.change(e.sym, range_upto(self.range_at(e.sym), below(n, e.k)))
    }

    /// The expression is at least a number.
    #[tactic(auto, unfolding(crate::specs::Assume::raised))]
    fn raise(&mut self, e: Expr, n: i128) -> bool
        requires there { e.sym ≤ length self.old.ranges }
        requires number { IsBounded n }
        ensures reached { result ≡ is_some (rule.raised self.old e n) }
        ensures facts { result ≡ true → rule.raised self.old e n ≡ Some self.new }
        ensures count { length self.new.ranges ≡ length self.old.ranges }
    {
        self.change(e.sym, range_from(self.range_at(e.sym), below(n, e.k)))
    }

    /// The greatest number of an expression, less a number.
    #[tactic(auto, unfolding(crate::specs::Ends::range_of, number_spans::specs::Spans::shifted))]
    fn end_below(&self, e: Expr, more: i64) -> i128
        ensures value { result ≡ (range_of self.now e).hi -ℤ more }
        ensures bound { IsBounded result }
    {
        less_more(with_constant(self.left_to(e.sym).hi, e.k), more)
    }

    /// The least number of an expression, and a number more.
    #[tactic(auto, unfolding(crate::specs::Ends::range_of, number_spans::specs::Spans::shifted))]
    fn end_above(&self, e: Expr, more: i64) -> i128
        ensures value { result ≡ (range_of self.now e).lo +ℤ more }
        ensures bound { IsBounded result }
    {
        and_more(with_constant(self.left_to(e.sym).lo, e.k), more)
    }

    /// The first expression is cut by the second, and then the second by the first.
    #[tactic(auto, unfolding(crate::specs::Assume::cut_both))]
    fn cut_both(&mut self, a: Expr, more: i64, b: Expr) -> bool
        requires first { a.sym ≤ length self.old.ranges }
        requires second { b.sym ≤ length self.old.ranges }
        ensures reached { result ≡ is_some (rule.cut_both self.old a more b) }
        ensures facts { result ≡ true → rule.cut_both self.old a more b ≡ Some self.new }
        ensures count { length self.new.ranges ≡ length self.old.ranges }
    {
        let hi = self.end_below(b, more);
        if !self.lower(a, hi) {
            return false;
        }
        let lo = self.end_above(a, more);
        self.raise(b, lo)
    }

    /// The first expression and a number more, 0 or 1, are at most the second.
    #[tactic(auto, unfolding(crate::specs::Assume::assumed_at_most))]
    fn assume_at_most(&mut self, a: Expr, more: i64, b: Expr) -> Result<bool, NoMemory>
        requires first { a.sym ≤ length self.old.ranges }
        requires second { b.sym ≤ length self.old.ranges }
        requires one { (pos 0 ≤ℤ more) × (more ≤ℤ pos 1) }
        ensures reached { IfOk result (λ r. r ≡ is_some (rule.assumed_at_most self.old a more b)) }
        ensures facts { IfOk result (λ r. r ≡ true → rule.assumed_at_most self.old a more b ≡ Some self.new) }
        ensures err { OnErr result (self.new ≡ self.old) }
        ensures count { length self.new.ranges ≡ length self.old.ranges }
    {
        if self.is_at_most(b, rest(more), a) {
            return Ok(false);
        }
        self.bound(a.sym, b.sym, less_by(sum_of(a.k, more), b.k))?;
        Ok(self.cut_both(a, more, b))
    }

    /// The two are equal.
    #[tactic(auto, unfolding(crate::specs::Assume::assumed_equal))]
    fn assume_equal(&mut self, a: Expr, b: Expr) -> Result<bool, NoMemory>
        requires first { a.sym ≤ length self.old.ranges }
        requires second { b.sym ≤ length self.old.ranges }
        ensures reached { IfOk result (λ r. r ≡ is_some (rule.assumed_equal self.old a b)) }
        ensures facts { IfOk result (λ r. r ≡ true → rule.assumed_equal self.old a b ≡ Some self.new) }
        ensures count { length self.new.ranges ≡ length self.old.ranges }
    {
        if !self.assume_at_most(a, 0, b)? {
            return Ok(false);
        }
        self.assume_at_most(b, 0, a)
    }

    /// The first expression is not the number of the second, where that has one alone.
    #[tactic(auto, unfolding(crate::specs::Assume::lost))]
    fn lose(&mut self, a: Expr, b: Expr) -> bool
        requires first { a.sym ≤ length self.old.ranges }
        ensures reached { result ≡ is_some (rule.lost self.old a b) }
        ensures facts { result ≡ true → rule.lost self.old a b ≡ Some self.new }
        ensures count { length self.new.ranges ≡ length self.old.ranges }
    {
        let r = self.range_of(b);
        if !r.is_one() {
            return true;
        }
        self.change(a.sym, range_but_for(self.range_at(a.sym), below(r.lo, a.k)))
    }

    /// Of two that differ one is less, where the other order is ruled out.
    #[tactic(auto, unfolding(crate::specs::Assume::ordered))]
    fn assume_ordered(&mut self, a: Expr, b: Expr) -> Result<bool, NoMemory>
        requires first { a.sym ≤ length self.old.ranges }
        requires second { b.sym ≤ length self.old.ranges }
        ensures reached { IfOk result (λ r. r ≡ is_some (rule.ordered self.old a b)) }
        ensures facts { IfOk result (λ r. r ≡ true → rule.ordered self.old a b ≡ Some self.new) }
        ensures count { length self.new.ranges ≡ length self.old.ranges }
    {
        if self.is_at_most(a, 0, b) {
            self.assume_at_most(a, 1, b)
        } else if self.is_at_most(b, 0, a) {
            self.assume_at_most(b, 1, a)
        } else {
            Ok(true)
        }
    }

    /// The two differ.
    #[tactic(auto, unfolding(crate::specs::Assume::assumed_apart))]
    fn assume_apart(&mut self, a: Expr, b: Expr) -> Result<bool, NoMemory>
        requires first { a.sym ≤ length self.old.ranges }
        requires second { b.sym ≤ length self.old.ranges }
        ensures reached { IfOk result (λ r. r ≡ is_some (rule.assumed_apart self.old a b)) }
        ensures facts { IfOk result (λ r. r ≡ true → rule.assumed_apart self.old a b ≡ Some self.new) }
        ensures count { length self.new.ranges ≡ length self.old.ranges }
    {
        if self.is_equal(a, b) || !self.lose(a, b) || !self.lose(b, a) {
            return Ok(false);
        }
        self.assume_ordered(a, b)
    }

    /// The first is less than the second, where both are taken as unsigned.
    #[tactic(auto, unfolding(crate::specs::Assume::assumed_less_unsigned))]
    fn assume_less_unsigned(&mut self, a: Expr, b: Expr) -> Result<bool, NoMemory>
        requires first { a.sym ≤ length self.old.ranges }
        requires second { b.sym ≤ length self.old.ranges }
        ensures reached { IfOk result (λ r. r ≡ is_some (rule.assumed_less_unsigned self.old a b)) }
        ensures facts { IfOk result (λ r. r ≡ true → rule.assumed_less_unsigned self.old a b ≡ Some self.new) }
        ensures count { length self.new.ranges ≡ length self.old.ranges }
    {
        if self.range_of(b).is_not_negative() {
            if !self.assume_at_most(constant(0), 0, a)? {
                return Ok(false);
            }
            self.assume_at_most(a, 1, b)
        } else if a.sym == 0 && a.k == 0 {
            self.assume_apart(b, constant(0))
        } else {
            Ok(true)
        }
    }

    /// The first is at most the second, where both are taken as unsigned.
    #[tactic(auto, unfolding(crate::specs::Assume::assumed_at_most_unsigned))]
    fn assume_at_most_unsigned(&mut self, a: Expr, b: Expr) -> Result<bool, NoMemory>
        requires first { a.sym ≤ length self.old.ranges }
        requires second { b.sym ≤ length self.old.ranges }
        ensures reached { IfOk result (λ r. r ≡ is_some (rule.assumed_at_most_unsigned self.old a b)) }
        ensures facts { IfOk result (λ r. r ≡ true → rule.assumed_at_most_unsigned self.old a b ≡ Some self.new) }
        ensures count { length self.new.ranges ≡ length self.old.ranges }
    {
        if !self.range_of(b).is_not_negative() {
            return Ok(true);
        }
        if !self.assume_at_most(constant(0), 0, a)? {
            return Ok(false);
        }
        self.assume_at_most(a, 0, b)
    }

    /// The comparison holds. Where memory runs out, one that takes several steps may be left among them.
    #[tactic(auto, unfolding(crate::specs::Assume::holding))]
    fn assume_steps(&mut self, op: CmpOp, a: Expr, b: Expr) -> Result<bool, NoMemory>
        requires first { a.sym ≤ length self.old.ranges }
        requires second { b.sym ≤ length self.old.ranges }
        ensures reached { IfOk result (λ r. r ≡ is_some (rule.holding op self.old a b)) }
        ensures facts { IfOk result (λ r. r ≡ true → rule.holding op self.old a b ≡ Some self.new) }
        ensures err { OnErr result (rule.is_one_step op ≡ true → self.new ≡ self.old) }
        ensures count { length self.new.ranges ≡ length self.old.ranges }
    {
        match op {
            CmpOp::Eq => self.assume_equal(a, b),
            CmpOp::Ge => self.assume_at_most(b, 0, a),
            CmpOp::Gt => self.assume_at_most(b, 1, a),
            CmpOp::Le => self.assume_at_most(a, 0, b),
            CmpOp::Lt => self.assume_at_most(a, 1, b),
            CmpOp::NeUn => self.assume_apart(a, b),
            CmpOp::GeUn => self.assume_at_most_unsigned(b, a),
            CmpOp::GtUn => self.assume_less_unsigned(b, a),
            CmpOp::LeUn => self.assume_at_most_unsigned(a, b),
            CmpOp::LtUn => self.assume_less_unsigned(a, b),
        }
    }

    /// The comparison holds. What was known is kept where several steps are taken, and put back where memory runs out.
    fn assume_holding(&mut self, op: CmpOp, a: Expr, b: Expr) -> Result<bool, NoMemory>
        requires first { a.sym ≤ length self.old.ranges }
        requires second { b.sym ≤ length self.old.ranges }
        ensures reached { IfOk result (λ r. r ≡ is_some (rule.holding op self.old a b)) }
        ensures facts { IfOk result (λ r. r ≡ true → rule.holding op self.old a b ≡ Some self.new) }
        ensures err { OnErr result (self.new ≡ self.old) }
        ensures count { length self.new.ranges ≡ length self.old.ranges }
    {
        if let CmpOp::Ge | CmpOp::Gt | CmpOp::Le | CmpOp::Lt = op {
            return self.assume_steps(op, a, b);
        }
        let before = self.copy(*self.ranges.allocator())?;
        match self.assume_steps(op, a, b) {
            Ok(reached) => Ok(reached),
            Err(refused) => {
                *self = before;
                Err(refused)
            }
        }
    }

    /// Assumes that a comparison holds, or that it does not. False exactly where nothing is reached then, and what is
    /// known is to be given up. Where the two are to be equal, to differ or to be compared as unsigned, it costs a copy
    /// of what is known.
    ///
    /// # Errors
    ///
    /// Want of memory leaves what was known.
    #[tactic(auto, unfolding(crate::specs::Assume::assumed))]
    pub fn assume_cmp(&mut self, op: CmpOp, a: Expr, b: Expr, holds: bool) -> Result<bool, NoMemory>
        requires first { IsNamed self.old a }
        requires second { IsNamed self.old b }
        ensures reached { IfOk result (λ r. r ≡ is_some (rule.assumed op self.old a b holds)) }
        ensures facts { IfOk result (λ r. r ≡ true → rule.assumed op self.old a b holds ≡ Some self.new) }
        ensures keeps { IfOk result (λ r. KeepsCompared op a b holds self.old r self.new) }
        ensures form { IfOk result (λ r. r ≡ true → KeepsForm self.old self.new) }
        ensures err { OnErr result (self.new ≡ self.old) }
        ensures count { length self.new.ranges ≡ length self.old.ranges }
    {
        self.assume_holding(assumed(op, holds), a, b)
    }
}
