//! What operators give, and what is known of it.

ghost use Rattle.std.specs.Prelude.{◌≡◌, ◌-ℤ◌, ◌++◌, pos, true, false, IfOk, IfSome, OnOk, OnErr, if◌then◌else◌};
ghost use Rattle.cil_model.specs.Arithmetic as arithmetic;
ghost use Rattle.interval_domain.specs.Arithmetic.{near};
ghost use Rattle.number_spans.specs.Owed.{Divides, IsPlaces, NotZero, Shifts};
ghost use Rattle.number_spans.specs.Spans.{full};
ghost use Rattle.number_facts.specs.Arith as rule;
ghost use Rattle.number_facts.specs.Facts.{AreNarrow, IsThere};
ghost use Rattle.number_facts.specs.Fresh.{expr_made, facts_made};
ghost use Rattle.number_facts.specs.Holds.{KeepsForm};
ghost use Rattle.number_facts.specs.Results.{AreExactEnds, KeepsResult};

use crate::additions::constants_apart;
use crate::numbers::Numbers;
use crate::outcome::Outcome;
use crate::relation::Relation;
use cil_model::BinOp;
use domain_api::{Expr, NoMemory};
use number_spans::{
    Span, bits_of_either, common_bits, constant, corners, differences, is_the_constant, nearest,
    of_constants, power, quotients, range_within, remainders, shifted_right, sums,
};
use std::alloc::Global;

/// Notes that a result is at most an expression less a number, where that is so.
fn note_upper(known: &mut Vec<Relation>, is_so: bool, e: Expr, less: i64) -> Result<(), NoMemory>
    ensures { OnOk result (known.new.items ≡ known.old.items ++ rule.where_so is_so (rule.no_more e less)) }
{
    if !is_so {
        return Ok(());
    }
    let k = i128::from(e.k) - i128::from(less);
    known.push(Relation::AtMost(e.sym, k))?;
    Ok(())
}

/// Where the first is so, a result is at most `a`, and where the second is so, at most `b` less a number.
fn uppers(
    alloc: Global,
    first: bool,
    a: Expr,
    second: bool,
    b: Expr,
    less: i64,
) -> Result<Vec<Relation>, NoMemory>
    ensures { IfOk result (λ known. known.items ≡
        rule.where_so first (rule.no_more a (pos 0)) ++ rule.where_so second (rule.no_more b less)) }
{
    let mut known = Vec::with_capacity(alloc, 2)?;
    note_upper(&mut known, first, a, 0)?;
    note_upper(&mut known, second, b, less)?;
    Ok(known)
}

impl Numbers {
    /// The product.
    #[tactic(auto, unfolding(crate::specs::Arith::product))]
    fn product(&self, a: Expr, b: Expr) -> Outcome
        requires first { IsThere self.now a }
        requires second { IsThere self.now b }
        requires narrow { AreNarrow self.now }
        ensures { result ≡ rule.product self.now a b }
    {
        if is_the_constant(b, 1) {
            Outcome::Is(a)
        } else if is_the_constant(a, 1) {
            Outcome::Is(b)
        } else {
            Outcome::Within(corners(self.small_range_of(a), self.small_range_of(b)).wrapped())
        }
    }

    /// The quotients, also where they are taken as unsigned.
    #[tactic(auto, using(crate::proofs::Small::divides), unfolding(crate::specs::Arith::quotient))]
    fn quotient(&self, a: Expr, b: Expr, unsigned: bool) -> Span
        requires first { IsThere self.now a }
        requires second { IsThere self.now b }
        requires narrow { AreNarrow self.now }
        requires divisor { NotZero b }
        ensures signed { unsigned ≡ false → result ≡ rule.quotient self.now a b }
        ensures unsigned { unsigned ≡ true → result ≡
            (if rule.are_plain self.now a b then rule.quotient self.now a b else full) }
    {
        let r = self.small_range_of(a);
        let q = self.small_range_of(b);
        if unsigned && !(r.is_not_negative() && q.is_not_negative()) {
            return Span::full();
        }
        quotients(r, q, b.sym == 0)
    }

    /// The remainders, also where both are taken as unsigned.
    #[tactic(auto, unfolding(crate::specs::Arith::remainder))]
    fn remainder(&self, a: Expr, b: Expr, unsigned: bool) -> Span
        requires first { IsThere self.now a }
        requires second { IsThere self.now b }
        requires narrow { AreNarrow self.now }
        ensures signed { unsigned ≡ false → result ≡ rule.remainder self.now a b }
        ensures unsigned { unsigned ≡ true → result ≡
            (if rule.are_plain self.now a b then rule.remainder self.now a b else full) }
    {
        let r = self.small_range_of(a);
        let q = self.small_range_of(b);
        if unsigned && !(r.is_not_negative() && q.is_not_negative()) {
            return Span::full();
        }
        remainders(r, q)
    }

    /// An unsigned number shifted to the right.
    #[tactic(auto, unfolding(crate::specs::Arith::shifted_right_unsigned))]
    fn shifted_right_unsigned(&self, a: Expr, b: Expr) -> Outcome
        requires amount { IsPlaces b }
        ensures { result ≡ rule.shifted_right_unsigned self.now a b }
    {
        let r = self.range_of(a);
        if r.is_not_negative() {
            return Outcome::Within(shifted_right(r, b));
        }
        if b.sym != 0 {
            return Outcome::Within(Span::full());
        }
        if b.k == 0 {
            return Outcome::Is(a);
        }
        Outcome::Within(Span::between(0, i128::from(u32::MAX >> b.k as u32)))
    }

    /// Where the result of an operator that may overflow lies before it is judged.
    #[tactic(auto, unfolding(crate::specs::Arith::exact, crate::specs::Additions::exact_sum, crate::specs::Additions::exact_difference))]
    fn exact(&self, op: BinOp, a: Expr, b: Expr) -> Span
        requires first { IsThere self.now a }
        requires second { IsThere self.now b }
        requires narrow { AreNarrow self.now }
        ensures { result ≡ rule.exact op self.now a b }
    {
        match op {
            BinOp::AddOvf if a.sym == 0 => sums(self.small_range_of(a), self.small_range_of(b)),
            BinOp::AddOvf if b.sym == 0 => sums(self.small_range_of(a), self.small_range_of(b)),
            BinOp::AddOvf => self.sum_span(a, b),
            BinOp::SubOvf if b.sym == 0 => differences(
                self.small_range_of(a),
                self.small_range_of(b),
            ),
            BinOp::SubOvf if a.sym == b.sym => Span::between(
                constants_apart(a, b),
                constants_apart(a, b),
            ),
            BinOp::SubOvf => self.difference_span(a, b),
            BinOp::MulOvf => corners(self.small_range_of(a), self.small_range_of(b)),
            _ => Span::full(),
        }
    }

    /// The ends of the range that is judged for overflow, for an operator that may overflow. One beyond 64 bits is the
    /// nearest number of 64 bits. Takes no memory.
    pub fn exact_ends(&self, op: BinOp, a: Expr, b: Expr) -> (i64, i64)
        requires first { IsThere self.now a }
        requires second { IsThere self.now b }
        requires narrow { AreNarrow self.now }
        ensures least { result.0 ≡ near (rule.exact op self.now a b).lo }
        ensures greatest { result.1 ≡ near (rule.exact op self.now a b).hi }
        ensures sound { AreExactEnds op a b self.now result.0 result.1 }
    {
        let Span { lo, hi, .. } = self.exact(op, a, b);
        (nearest(lo), nearest(hi))
    }

    /// The result of an operator: of two constants the constant, else by what is known.
    #[tactic(auto, unfolding(crate::specs::Arith::outcome, crate::specs::Arith::by_facts, crate::specs::Arith::shifted_left))]
    fn outcome(&self, op: BinOp, a: Expr, b: Expr) -> Outcome
        requires first { IsThere self.now a }
        requires second { IsThere self.now b }
        requires narrow { AreNarrow self.now }
        requires divisor { Divides op b }
        requires amount { Shifts op b }
        ensures { result ≡ rule.outcome op self.now a b }
    {
        if let Some(only) = of_constants(op, a, b) {
            return Outcome::Is(constant(i64::from(only)));
        }
        match op {
            BinOp::Add => self.sum(a, b),
            BinOp::Sub => self.difference(a, b),
            BinOp::Mul => self.product(a, b),
            BinOp::Div => Outcome::Within(self.quotient(a, b, false)),
            BinOp::DivUn => Outcome::Within(self.quotient(a, b, true)),
            BinOp::Rem => Outcome::Within(self.remainder(a, b, false)),
            BinOp::RemUn => Outcome::Within(self.remainder(a, b, true)),
            BinOp::And => Outcome::Within(common_bits(
                self.small_range_of(a),
                self.small_range_of(b),
            )),
            BinOp::Or => Outcome::Within(bits_of_either(
                self.small_range_of(a),
                self.small_range_of(b),
            )),
            BinOp::Xor => Outcome::Within(bits_of_either(
                self.small_range_of(a),
                self.small_range_of(b),
            )),
            BinOp::Shl if b.sym == 0 => self.product(a, constant(power(b.k))),
            BinOp::Shl => Outcome::Within(Span::full()),
            BinOp::Shr => Outcome::Within(shifted_right(self.small_range_of(a), b)),
            BinOp::ShrUn => self.shifted_right_unsigned(a, b),
            _ => Outcome::Within(self.exact(op, a, b)),
        }
    }

    /// What else is known of a quotient.
    #[tactic(auto, using(crate::proofs::Orders::within), unfolding(crate::specs::Arith::quotient_relations))]
    fn quotient_relations(&self, a: Expr, b: Expr) -> Result<Vec<Relation>, NoMemory>
        ensures { IfOk result (λ known. known.items ≡ rule.quotient_relations self.now a b) }
    {
        let r = self.range_of(a);
        let q = self.range_of(b);
        let plain = r.is_not_negative() && 1 <= q.lo;
        let less = plain && (1 <= r.lo && 2 <= q.lo);
        uppers(*self.ranges.allocator(), plain, a, less, a, 1)
    }

    /// What else is known of a remainder, also of numbers that are taken as unsigned.
    #[tactic(auto, using(crate::proofs::Orders::both_within), unfolding(crate::specs::Arith::remainder_relations))]
    fn remainder_relations(
        &self,
        a: Expr,
        b: Expr,
        unsigned: bool,
    ) -> Result<Vec<Relation>, NoMemory>
        ensures signed { IfOk result (λ known. unsigned ≡ false → known.items ≡ rule.remainder_relations self.now a b) }
        ensures unsigned { IfOk result (λ known. unsigned ≡ true → known.items ≡
            rule.where_so (rule.are_plain self.now a b) (rule.remainder_relations self.now a b)) }
    {
        let r = self.range_of(a);
        let q = self.range_of(b);
        let plain = !unsigned || (r.is_not_negative() && q.is_not_negative());
        let first = plain && r.is_not_negative();
        let second = plain && 1 <= q.lo;
        uppers(*self.ranges.allocator(), first, a, second, b, 1)
    }

    /// What else is known of the result of an operator.
    #[tactic(auto, using(crate::proofs::Orders::orders), unfolding(crate::specs::Arith::relations, crate::specs::Arith::common_relations, crate::specs::Arith::shift_relations))]
    fn relations(&self, op: BinOp, a: Expr, b: Expr) -> Result<Vec<Relation>, NoMemory>
        requires first { IsThere self.now a }
        requires second { IsThere self.now b }
        requires narrow { AreNarrow self.now }
        ensures { IfOk result (λ known. known.items ≡ rule.relations op self.now a b) }
    {
        let alloc = *self.ranges.allocator();
        match op {
            BinOp::Add => self.sum_relations(a, b),
            BinOp::Sub => self.difference_relations(a, b),
            BinOp::Div => self.quotient_relations(a, b),
            BinOp::DivUn => self.quotient_relations(a, b),
            BinOp::Rem => self.remainder_relations(a, b, false),
            BinOp::RemUn => self.remainder_relations(a, b, true),
            BinOp::And => uppers(
                alloc,
                self.range_of(a).is_not_negative(),
                a,
                self.range_of(b).is_not_negative(),
                b,
                0,
            ),
            BinOp::Shr => uppers(alloc, self.range_of(a).is_not_negative(), a, false, a, 0),
            BinOp::ShrUn => uppers(alloc, self.range_of(a).is_not_negative(), a, false, a, 0),
            _ => Ok(Vec::new(alloc)),
        }
    }

    /// The result of an operator, with what is known of it.
    #[tactic(auto, unfolding(crate::specs::Arith::settled, crate::specs::Fresh::fresh))]
    fn settled(&mut self, op: BinOp, a: Expr, b: Expr) -> Result<Option<Expr>, NoMemory>
        requires first { IsThere self.old a }
        requires second { IsThere self.old b }
        requires narrow { AreNarrow self.old }
        requires divisor { Divides op b }
        requires amount { Shifts op b }
        ensures value { IfOk result (λ e. e ≡
            expr_made (rule.settled self.old (rule.outcome op self.old a b) (rule.relations op self.old a b))) }
        ensures facts { OnOk result (self.new ≡
            facts_made self.old (rule.settled self.old (rule.outcome op self.old a b) (rule.relations op self.old a b))) }
        ensures err { OnErr result (self.new ≡ self.old) }
    {
        let span = match self.outcome(op, a, b) {
            Outcome::Is(e) if -4_294_967_296 <= e.k && e.k <= 4_294_967_296 => return Ok(Some(e)),
            Outcome::Is(_) => return Ok(None),
            Outcome::Within(span) => span,
        };
        let known = self.relations(op, a, b)?;
        self.noted_some(range_within(span), &known)
    }

    /// The result of an operator. None exactly where what is known leaves no number for it, so that nothing is reached.
    /// The comparisons are asked of `compare`.
    ///
    /// # Errors
    ///
    /// Want of memory leaves what was known.
    pub fn arith(&mut self, op: BinOp, a: Expr, b: Expr) -> Result<Option<Expr>, NoMemory>
        requires first { IsThere self.old a }
        requires second { IsThere self.old b }
        requires narrow { AreNarrow self.old }
        requires divisor { Divides op b }
        requires amount { Shifts op b }
        ensures value { IfOk result (λ e. e ≡
            expr_made (rule.settled self.old (rule.outcome op self.old a b) (rule.relations op self.old a b))) }
        ensures facts { OnOk result (self.new ≡
            facts_made self.old (rule.settled self.old (rule.outcome op self.old a b) (rule.relations op self.old a b))) }
        ensures keeps { IfOk result (λ e. KeepsResult op a b self.old e self.new) }
        ensures there { IfOk result (λ e. IfSome e (IsThere self.new)) }
        ensures form { KeepsForm self.old self.new }
        ensures err { OnErr result (self.new ≡ self.old) }
    {
        self.settled(op, a, b)
    }
}
