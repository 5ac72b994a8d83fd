//! The bodies of the calls in state.rt. Each proves which state it leaves; the public call adds the law that what holds
//! of the state before holds of that one after the step.

ghost use Rattle.std.specs.Prelude.{◌≡◌, ◌+◌, ◌<◌, ◌≤◌, Some, OnOk, OnErr, IsSome, length};
ghost use Rattle.std.specs.Option.{ForSome};
ghost use Rattle.cil_model.specs.Comparisons.{comparison_of};
ghost use Rattle.number_spans.specs.Owed.{Divides, Shifts};
ghost use Rattle.state_facts.specs.Forms.{HasForm, HasNumber, HasReference, HasVar, IsArrayPlace};
ghost use Rattle.state_facts.specs.States as rule;

use crate::state::AbsState;
use cil_model::{BinOp, CmpOp, Place};
use domain_api::{Expr, NoMemory};
use frame_names::Var;

impl AbsState {
    /// Pushes what is known of a value.
    pub(crate) fn push_var(&mut self, v: Var) -> Result<(), NoMemory>
        requires { ForSome self.old (λ known. HasVar known v) }
        ensures ok { OnOk result (self.new ≡ rule.push v self.old) }
        ensures err { OnErr result (self.new ≡ self.old) }
        ensures form { ForSome self.old HasForm }
    {
        let Some(known) = &mut self.known else {
            return Ok(());
        };
        known.push(v)?;
        Ok(())
    }

    /// Takes the top of the stack, the last variable.
    pub(crate) fn pop_var(&mut self) -> Result<(), NoMemory>
        ensures ok { OnOk result (self.new ≡ rule.pop self.old) }
        ensures err { OnErr result (self.new ≡ self.old) }
        ensures form { ForSome self.old HasForm }
    {
        let Some(known) = &mut self.known else {
            return Ok(());
        };
        known.pop();
        Ok(())
    }

    /// Puts a value into variable i, which is of this type.
    #[tactic(auto, using(state_facts::proofs::AssumptionForms::named_var))]
    pub(crate) fn put_var(&mut self, i: u32, v: Var, place: Place) -> Result<(), NoMemory>
        requires there { ForSome self.old (λ known. i < length known.variables) }
        requires value { ForSome self.old (λ known. HasVar known v) }
        ensures ok { OnOk result (self.new ≡ rule.put i v place self.old) }
        ensures err { OnErr result (self.new ≡ self.old) }
        ensures form { ForSome self.old HasForm }
    {
        let Some(known) = &mut self.known else {
            return Ok(());
        };
        if !known.put(i as usize, v, place)? {
            self.known = None;
        }
        Ok(())
    }

    /// Pushes the result of an operator.
    #[tactic(auto, using(state_facts::proofs::ResultForms::is_there, state_facts::proofs::ResultForms::are_narrow))]
    pub(crate) fn push_arith(&mut self, op: BinOp, a: Expr, b: Expr) -> Result<(), NoMemory>
        requires first { ForSome self.old (λ known. HasNumber known a) }
        requires second { ForSome self.old (λ known. HasNumber known b) }
        requires divisor { Divides op b }
        requires amount { Shifts op b }
        ensures ok { OnOk result (self.new ≡ rule.arith op a b self.old) }
        ensures err { OnErr result (self.new ≡ self.old) }
        ensures form { ForSome self.old HasForm }
    {
        let Some(known) = &mut self.known else {
            return Ok(());
        };
        if !known.arith(op, a, b)? {
            self.known = None;
        }
        Ok(())
    }

    /// Pushes 1 where a comparison is true and 0 where it is false, or a number of both.
    #[tactic(auto, using(state_facts::proofs::AssumptionForms::named_var))]
    pub(crate) fn push_comparison(&mut self, op: BinOp, a: Var, b: Var) -> Result<(), NoMemory>
        requires comparison { IsSome (comparison_of op) }
        requires first { ForSome self.old (λ known. HasVar known a) }
        requires second { ForSome self.old (λ known. HasVar known b) }
        ensures ok { OnOk result (self.new ≡ rule.compare op a b self.old) }
        ensures err { OnErr result (self.new ≡ self.old) }
        ensures form { ForSome self.old HasForm }
    {
        let Some(known) = &mut self.known else {
            return Ok(());
        };
        if !known.compare(op, a, b)? {
            self.known = None;
        }
        Ok(())
    }

    /// Assumes that a comparison holds, or that it does not. Where it cannot, nothing is reached.
    #[tactic(auto, using(state_facts::proofs::AssumptionForms::named_var))]
    pub(crate) fn assume_comparison(
        &mut self,
        op: CmpOp,
        a: Var,
        b: Var,
        holds: bool,
    ) -> Result<(), NoMemory>
        requires first { ForSome self.old (λ known. HasVar known a) }
        requires second { ForSome self.old (λ known. HasVar known b) }
        ensures ok { OnOk result (self.new ≡ rule.assume op a b holds self.old) }
        ensures err { OnErr result (self.new ≡ self.old) }
        ensures form { ForSome self.old HasForm }
    {
        let Some(known) = &mut self.known else {
            return Ok(());
        };
        if !known.assume(op, a, b, holds)? {
            self.known = None;
        }
        Ok(())
    }

    /// Pushes the item of an array at an index.
    pub(crate) fn push_item(&mut self, r: u32, at: Expr) -> Result<(), NoMemory>
        requires { ForSome self.old (λ known. HasReference known r) }
        ensures ok { OnOk result (self.new ≡ rule.load r at self.old) }
        ensures err { OnErr result (self.new ≡ self.old) }
        ensures form { ForSome self.old HasForm }
    {
        let Some(known) = &mut self.known else {
            return Ok(());
        };
        if !known.load(r, at)? {
            self.known = None;
        }
        Ok(())
    }

    /// Stores a number into an array at an index.
    pub(crate) fn store_item(&mut self, r: u32, at: Expr, value: Expr) -> Result<(), NoMemory>
        requires there { ForSome self.old (λ known. HasReference known r) }
        requires index { ForSome self.old (λ known. HasNumber known at) }
        requires value { ForSome self.old (λ known. HasNumber known value) }
        ensures ok { OnOk result (self.new ≡ rule.store r at value self.old) }
        ensures err { OnErr result (self.new ≡ self.old) }
        ensures form { ForSome self.old HasForm }
    {
        let Some(known) = &mut self.known else {
            return Ok(());
        };
        if !known.store(r, at, value)? {
            self.known = None;
        }
        Ok(())
    }

    /// Pushes a new array of this type and length.
    pub(crate) fn push_array(&mut self, place: Place, length: Expr) -> Result<(), NoMemory>
        requires place { IsArrayPlace place }
        requires length { ForSome self.old (λ known. HasNumber known length) }
        ensures ok { OnOk result (self.new ≡ rule.new_array place length self.old) }
        ensures err { OnErr result (self.new ≡ self.old) }
        ensures form { ForSome self.old HasForm }
    {
        let Some(known) = &mut self.known else {
            return Ok(());
        };
        known.new_array(place, length)?;
        Ok(())
    }

    /// Pushes what a call gives to which so many variables were passed, from the first one on.
    pub(crate) fn push_result(
        &mut self,
        first: u32,
        args: u32,
        place: Place,
    ) -> Result<(), NoMemory>
        requires { ForSome self.old (λ known. first + args ≤ length known.variables) }
        ensures ok { OnOk result (self.new ≡ rule.forget first args place self.old) }
        ensures err { OnErr result (self.new ≡ self.old) }
        ensures form { ForSome self.old HasForm }
    {
        let Some(known) = &mut self.known else {
            return Ok(());
        };
        if !known.forget(first as usize, args as usize, place)? {
            self.known = None;
        }
        Ok(())
    }
}
