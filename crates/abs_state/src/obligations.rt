//! The conditions of operations in a state.

ghost use Rattle.std.specs.Prelude.{◌≡◌, ◌&&◌, true, IfOk, OnOk};
ghost use Rattle.std.specs.Option.{ForSome};
ghost use Rattle.state_facts.specs.Forms.{HasForm};
ghost use Rattle.state_obligations.specs.Assumed as rule;
ghost use Rattle.state_obligations.specs.Conditions.{AreThere, IsThere, conditions_of, operator_conditions};
ghost use Rattle.state_obligations.specs.Entailed.{is_entailed};
ghost use Rattle.state_obligations.specs.Judged.{judged};
ghost use Rattle.state_obligations.specs.Meaning.{AssumesIt, AssumesThem, EntailsIt, EntailsThem};

use crate::state::AbsState;
use cil_model::BinOp;
use domain_api::{Expr, NoMemory};
use state_obligations::{Condition, Operation, assume, entails};

/// What the conditions of an operation find in a state.
#[derive(Drop)]
pub struct Judged {
    /// The state that assumes all of them.
    pub state: AbsState,
    /// Whether each is entailed in the state that assumes those before it.
    pub entailed: bool,
}

impl AbsState {
    /// Returns whether a condition of operands is entailed: then it is met wherever the state holds. Where nothing is
    /// reached, each is.
    pub fn entails(&self, condition: Condition) -> bool
        requires there { ForSome self.now (λ known. IsThere known condition) }
        ensures value { result ≡ is_entailed condition self.now }
        ensures sound { result ≡ true → EntailsIt condition self.now }
    {
        self.is_entailed(condition)
    }

    /// What `entails` returns, without its law. `entails` proves that.
    fn is_entailed(&self, condition: Condition) -> bool
        requires there { ForSome self.now (λ known. IsThere known condition) }
        ensures value { result ≡ is_entailed condition self.now }
        ensures form { ForSome self.now HasForm }
    {
        match &self.known {
            None => true,
            Some(known) => entails(known, condition),
        }
    }

    /// The state that assumes that a condition of operands is met. Where it cannot be, nothing is reached.
    ///
    /// Cost: that of one comparison or two. Nothing is copied.
    ///
    /// # Errors
    ///
    /// Want of memory. The state is let go then.
    pub fn assume_met(self, condition: Condition) -> Result<AbsState, NoMemory>
        requires there { ForSome self (λ known. IsThere known condition) }
        ensures ok { IfOk result (λ after. after ≡ rule.assume condition self) }
        ensures keeps { IfOk result (λ after. AssumesIt condition self after) }
    {
        self.met_by_rule(condition)
    }

    /// What `assume_met` answers, without its law. `assume_met` proves that.
    fn met_by_rule(mut self, condition: Condition) -> Result<AbsState, NoMemory>
        requires there { ForSome self (λ known. IsThere known condition) }
        ensures ok { IfOk result (λ after. after ≡ rule.assume condition self) }
        ensures form { ForSome self HasForm }
    {
        self.assume_condition(condition)?;
        Ok(self)
    }

    /// Assumes that a condition of operands is met, in place. Here as below want of memory leaves some of it assumed.
    fn assume_condition(&mut self, condition: Condition) -> Result<(), NoMemory>
        requires there { ForSome self.old (λ known. IsThere known condition) }
        ensures ok { OnOk result (self.new ≡ rule.assume condition self.old) }
        ensures form { ForSome self.old HasForm }
    {
        let Some(known) = &mut self.known else {
            return Ok(());
        };
        if !assume(known, condition)? {
            self.known = None;
        }
        Ok(())
    }

    /// Returns whether all was entailed and a condition is too. The state then assumes it.
    fn judge_next(&mut self, all: bool, condition: Condition) -> Result<bool, NoMemory>
        requires there { ForSome self.old (λ known. IsThere known condition) }
        ensures value { IfOk result (λ now. now ≡ (all && is_entailed condition self.old)) }
        ensures state { OnOk result (self.new ≡ rule.assume condition self.old) }
        ensures form { ForSome self.old HasForm }
    {
        let entailed = self.is_entailed(condition);
        self.assume_condition(condition)?;
        Ok(all && entailed)
    }

    /// Returns whether each condition is entailed in the state that assumes those before it. The state then assumes
    /// all.
    fn judge_each(&mut self, conditions: &[Condition]) -> Result<bool, NoMemory>
        requires there { ForSome self.old (λ known. AreThere known conditions.now) }
        ensures value { IfOk result (λ all. all ≡ (judged conditions.now self.old).entailed) }
        ensures state { OnOk result (self.new ≡ (judged conditions.now self.old).state) }
    {
        let mut all = true;
        for condition in conditions {
            all = self.judge_next(all, *condition)?;
        }
        Ok(all)
    }

    /// Judges the conditions of an operator, as `judge_each` does.
    fn judge_operator(&mut self, op: BinOp, a: Expr, b: Expr) -> Result<bool, NoMemory>
        requires there { ForSome self.old (λ known. AreThere known (operator_conditions op a b)) }
        ensures value { IfOk result (λ all. all ≡ (judged (operator_conditions op a b) self.old).entailed) }
        ensures state { OnOk result (self.new ≡ (judged (operator_conditions op a b) self.old).state) }
    {
        match op {
            BinOp::Div | BinOp::Rem => self.judge_each(&[
                Condition::DivZero(b),
                Condition::DivOverflow(a, b),
            ]),
            BinOp::DivUn | BinOp::RemUn => self.judge_each(&[Condition::DivZero(b)]),
            BinOp::Shl | BinOp::Shr | BinOp::ShrUn => self.judge_each(&[Condition::Shift(b)]),
            BinOp::AddOvf | BinOp::MulOvf | BinOp::SubOvf => {
                self.judge_each(&[Condition::Overflow(op, a, b)])
            }
            _ => Ok(true),
        }
    }

    /// Judges the conditions of an operation, as `judge_each` does.
    fn judge_operation(&mut self, operation: Operation) -> Result<bool, NoMemory>
        requires there { ForSome self.old (λ known. AreThere known (conditions_of operation)) }
        ensures value { IfOk result (λ all. all ≡ (judged (conditions_of operation) self.old).entailed) }
        ensures state { OnOk result (self.new ≡ (judged (conditions_of operation) self.old).state) }
    {
        match operation {
            Operation::Length(r) => self.judge_each(&[Condition::NullUse(r)]),
            Operation::Element(r, i) => self.judge_each(&[
                Condition::NullUse(r),
                Condition::Lower(i),
                Condition::Upper(r, i),
            ]),
            Operation::NewArray(n) => self.judge_each(&[Condition::ArraySize(n)]),
            Operation::Binary(op, a, b) => self.judge_operator(op, a, b),
            Operation::Assert(e) => self.judge_each(&[Condition::Assert(e)]),
        }
    }

    /// What `judge` answers, without its laws. `judge` proves these.
    fn judged_by_rule(mut self, operation: Operation) -> Result<Judged, NoMemory>
        requires there { ForSome self (λ known. AreThere known (conditions_of operation)) }
        ensures entailed { IfOk result (λ found. found.entailed ≡ (judged (conditions_of operation) self).entailed) }
        ensures state { IfOk result (λ found. found.state ≡ (judged (conditions_of operation) self).state) }
        ensures form { ForSome self HasForm }
    {
        if !self.reached() {
            return Ok(Judged {
                state: self,
                entailed: true,
            });
        }
        let entailed = self.judge_operation(operation)?;
        Ok(Judged {
            state: self,
            entailed,
        })
    }

    /// Judges each condition of an operation in the state that assumes those before it, in the order in which the
    /// machine tests them. Where each is entailed, the operation does not fault wherever the state held.
    ///
    /// Cost: that of each condition. Nothing is copied.
    ///
    /// # Errors
    ///
    /// Want of memory. The state is let go then.
    pub fn judge(self, operation: Operation) -> Result<Judged, NoMemory>
        requires there { ForSome self (λ known. AreThere known (conditions_of operation)) }
        ensures entailed { IfOk result (λ found. found.entailed ≡ (judged (conditions_of operation) self).entailed) }
        ensures state { IfOk result (λ found. found.state ≡ (judged (conditions_of operation) self).state) }
        ensures sound { IfOk result (λ found. found.entailed ≡ true → EntailsThem (conditions_of operation) self) }
        ensures keeps { IfOk result (λ found. AssumesThem (conditions_of operation) self found.state) }
    {
        self.judged_by_rule(operation)
    }
}
