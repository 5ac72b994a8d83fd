//! The state of the analysis.

ghost use Rattle.std.specs.Prelude.{◌≡◌, ◌+◌, ◌<◌, ◌≤◌, ◌↔◌, None, Some, IfOk, OnOk, OnErr, IsSome, IsTrue};
ghost use Rattle.std.specs.Prelude.{is_some, length, slice_get};
ghost use Rattle.std.specs.Option.{ForSome};
ghost use Rattle.cil_model.specs.Comparisons.{comparison_of};
ghost use Rattle.number_facts.specs.Facts.{IsNamed};
ghost use Rattle.number_facts.specs.Ends.{range_of};
ghost use Rattle.number_facts.specs.Gaps as numbers;
ghost use Rattle.number_facts.specs.Arith as operators;
ghost use Rattle.interval_domain.specs.Arithmetic.{near};
ghost use Rattle.number_spans.specs.Owed.{Divides, Shifts};
ghost use Rattle.state_facts.specs.Arithmetic.{HasExactEnds, KeepsArith};
ghost use Rattle.state_facts.specs.Forms.{HasForm, HasNumber, HasReference, HasVar, IsArrayPlace};
ghost use Rattle.state_facts.specs.Keeps.{KeepsAssumed, KeepsCall, KeepsComparison, KeepsLoad, KeepsNewArray};
ghost use Rattle.state_facts.specs.Keeps.{KeepsPop, KeepsPush, KeepsPut, KeepsStore};
ghost use Rattle.state_facts.specs.StateFacts.{length_at, nullness_at, variables_in};
ghost use Rattle.state_facts.specs.States as rule;

use alias_facts::Nullness;
use cil_model::{BinOp, CmpOp, Place};
use domain_api::{Expr, NoMemory, Order};
use frame_names::Var;
use state_facts::Known;
use std::alloc::Global;
use std::marker::Model;

/// What is known of a point before an instruction, or that nothing is reached there.
///
/// Its variables are the arguments at the frame's entry, the arguments, the locals, and the stack from the bottom.
/// Symbols and references that no variable has any more stay until the normal form is taken.
#[derive(Drop)]
pub struct AbsState {
    // In a box, since calls take a state by value and give it back.
    pub(crate) known: Option<Box<Known>>,
}

impl Model for AbsState {
    ghost use Rattle.std.specs.Option.{ForSome, option_map};
    ghost use Rattle.state_facts.specs.Forms.{HasForm};
    ghost use Rattle.state_facts.specs.StateFacts.{State};

    ghost Value = { State };

    ghost view = { λ s. option_map (λ known. known.value) s.known };

    ghost invariant = { λ s. ForSome (option_map (λ known. known.value) s.known) HasForm };
}

impl AbsState {
    /// The state of what is never reached.
    pub fn nothing() -> AbsState
        ensures { result ≡ None }
    {
        AbsState { known: None }
    }

    /// Returns whether something is reached.
    pub fn reached(&self) -> bool
        ensures reached { IsTrue result ↔ IsSome self.now }
        ensures form { ForSome self.now HasForm }
    {
        self.known.is_some()
    }

    /// The state in which this is known. None: nothing is reached.
    pub(crate) fn of_known(alloc: Global, known: Option<Known>) -> Result<AbsState, NoMemory>
        requires { ForSome known HasForm }
        ensures { IfOk result (λ state. state ≡ known) }
    {
        match known {
            None => Ok(AbsState::nothing()),
            Some(known) => Ok(AbsState {
                known: Some(Box::new(alloc, known)?),
            }),
        }
    }

    /// A copy.
    pub fn copy(&self, alloc: Global) -> Result<AbsState, NoMemory>
        ensures { IfOk result (λ again. again ≡ self.now) }
    {
        match &self.known {
            None => Ok(AbsState::nothing()),
            Some(known) => {
                let again = known.copy(alloc)?;
                AbsState::of_known(alloc, Some(again))
            }
        }
    }

    /// What each variable has, in order. None where nothing is reached.
    pub(crate) fn variables(&self) -> &[Var]
        ensures value { result.now ≡ variables_in self.now }
        ensures form { ForSome self.now HasForm }
    {
        match &self.known {
            None => &[],
            Some(known) => known.variables.as_slice(),
        }
    }

    /// Returns how many variables there are. 0 where nothing is reached.
    pub fn var_count(&self) -> u64
        ensures { result ≡ length (variables_in self.now) }
    {
        self.variables().len() as u64
    }

    /// What a variable has.
    pub fn var(&self, i: u32) -> Var
        requires there { i < length (variables_in self.now) }
        ensures value { slice_get (variables_in self.now) i ≡ Some result }
        ensures form { ForSome self.now (λ known. HasVar known result) }
    {
        self.listed_var(i)
    }

    /// What `var` returns, with the clause of which it proves the form of the answer.
    fn listed_var(&self, i: u32) -> Var
        requires there { i < length (variables_in self.now) }
        ensures value { slice_get (variables_in self.now) i ≡ Some result }
        ensures form { ForSome self.now HasForm }
    {
        self.variables()[i as usize]
    }

    /// Returns what is known, where something is reached.
    fn known(&self) -> &Known
        requires reached { IsSome self.now }
        ensures value { self.now ≡ Some result.now }
        ensures form { HasForm result.now }
    {
        match &self.known {
            Some(known) => known,
            None => unreachable!(),
        }
    }

    /// What is known of whether a reference is null. Reference 0 is.
    pub fn nullness(&self, r: u32) -> Nullness
        requires reached { IsSome self.now }
        ensures { ForSome self.now (λ known. result ≡ nullness_at known r) }
    {
        self.known().nullness(r)
    }

    /// The length of a reference. That of reference 0 is 0.
    #[tactic(auto, using(state_facts::proofs::AssumptionForms::length_number))]
    pub fn length(&self, r: u32) -> Expr
        requires reached { IsSome self.now }
        requires there { ForSome self.now (λ known. HasReference known r) }
        ensures value { ForSome self.now (λ known. result ≡ length_at known r) }
        ensures form { ForSome self.now (λ known. HasNumber known result) }
    {
        self.known().length(r)
    }

    /// The least and the greatest number that an expression may have, and the number between them that it does not
    /// have.
    pub fn ends(&self, e: Expr) -> (i128, i128, Option<i128>)
        requires reached { IsSome self.now }
        requires there { ForSome self.now (λ known. IsNamed known.facts e) }
        ensures least { ForSome self.now (λ known. result.0 ≡ (range_of known.facts e).lo) }
        ensures greatest { ForSome self.now (λ known. result.1 ≡ (range_of known.facts e).hi) }
        ensures hole { ForSome self.now (λ known. result.2 ≡ (range_of known.facts e).hole) }
    {
        self.known().numbers.ends(e)
    }

    /// A number that may be added to the symbol s without passing the symbol t. None means that nothing is known.
    pub fn gap(&self, s: u32, t: u32) -> Option<i64>
        requires reached { IsSome self.now }
        ensures { ForSome self.now (λ known. result ≡ numbers.gap known.facts s t) }
    {
        self.known().numbers.gap(s, t)
    }

    /// The ends of the range that is judged for overflow, for an operator that may overflow. One beyond 64 bits is the
    /// nearest number of 64 bits.
    #[tactic(auto, using(state_facts::proofs::ResultForms::is_there, state_facts::proofs::ResultForms::are_narrow))]
    pub fn exact_ends(&self, op: BinOp, a: Expr, b: Expr) -> (i64, i64)
        requires reached { IsSome self.now }
        requires first { ForSome self.now (λ known. HasNumber known a) }
        requires second { ForSome self.now (λ known. HasNumber known b) }
        ensures least { ForSome self.now (λ known. result.0 ≡ near (operators.exact op known.facts a b).lo) }
        ensures greatest { ForSome self.now (λ known. result.1 ≡ near (operators.exact op known.facts a b).hi) }
        ensures sound { HasExactEnds op a b self.now result.0 result.1 }
    {
        self.known().numbers.exact_ends(op, a, b)
    }

    /// Pushes what is known of a value.
    ///
    /// Here as below a state in which nothing is reached stays, and want of memory leaves the state as it was.
    pub fn push(&mut self, v: Var) -> Result<(), NoMemory>
        requires { ForSome self.old (λ known. HasVar known v) }
        ensures ok { OnOk result (self.new ≡ rule.push v self.old) }
        ensures keeps { OnOk result (KeepsPush v self.old self.new) }
        ensures err { OnErr result (self.new ≡ self.old) }
    {
        self.push_var(v)
    }

    /// Takes the top of the stack, the last variable.
    ///
    /// # Errors
    ///
    /// `NoMemory`. This version never answers it.
    pub fn pop(&mut self) -> Result<(), NoMemory>
        ensures ok { OnOk result (self.new ≡ rule.pop self.old) }
        ensures keeps { OnOk result (KeepsPop self.old self.new) }
        ensures err { OnErr result (self.new ≡ self.old) }
    {
        self.pop_var()
    }

    /// Puts a value into variable i, which is of this type.
    pub fn put(&mut self, i: u32, v: Var, place: Place) -> Result<(), NoMemory>
        requires there { ForSome self.old (λ known. i < length known.variables) }
        requires value { ForSome self.old (λ known. HasVar known v) }
        ensures ok { OnOk result (self.new ≡ rule.put i v place self.old) }
        ensures keeps { OnOk result (KeepsPut i v place self.old self.new) }
        ensures err { OnErr result (self.new ≡ self.old) }
    {
        self.put_var(i, v, place)
    }

    /// Pushes the result of an operator other than a comparison. Where there is none, nothing is reached.
    ///
    /// The caller owes a constant that divides other than 0, and one to shift by from 0 to 31.
    pub fn arith(&mut self, op: BinOp, a: Expr, b: Expr) -> Result<(), NoMemory>
        requires first { ForSome self.old (λ known. HasNumber known a) }
        requires second { ForSome self.old (λ known. HasNumber known b) }
        requires divisor { Divides op b }
        requires amount { Shifts op b }
        ensures ok { OnOk result (self.new ≡ rule.arith op a b self.old) }
        ensures keeps { OnOk result (KeepsArith op a b self.old self.new) }
        ensures err { OnErr result (self.new ≡ self.old) }
    {
        self.push_arith(op, a, b)
    }

    /// Pushes 1 where the comparison is known to be true, 0 where it is known to be false, else a new symbol that is 0 or
    /// 1.
    pub fn compare(&mut self, op: BinOp, a: Var, b: Var) -> Result<(), NoMemory>
        requires comparison { IsSome (comparison_of op) }
        requires first { ForSome self.old (λ known. HasVar known a) }
        requires second { ForSome self.old (λ known. HasVar known b) }
        ensures ok { OnOk result (self.new ≡ rule.compare op a b self.old) }
        ensures keeps { OnOk result (KeepsComparison op a b self.old self.new) }
        ensures err { OnErr result (self.new ≡ self.old) }
    {
        self.push_comparison(op, a, b)
    }

    /// Assumes that a comparison holds, or that it does not. Where it cannot, nothing is reached.
    pub fn assume(&mut self, op: CmpOp, a: Var, b: Var, holds: bool) -> Result<(), NoMemory>
        requires first { ForSome self.old (λ known. HasVar known a) }
        requires second { ForSome self.old (λ known. HasVar known b) }
        ensures ok { OnOk result (self.new ≡ rule.assume op a b holds self.old) }
        ensures keeps { OnOk result (KeepsAssumed op a b holds self.old self.new) }
        ensures err { OnErr result (self.new ≡ self.old) }
    {
        self.assume_comparison(op, a, b, holds)
    }

    /// Pushes the item of an array at an index: a number of the hull of the ranges of the segments that may have the
    /// index.
    ///
    /// Cost: a look at each bound of the reference.
    pub fn load(&mut self, r: u32, at: Expr) -> Result<(), NoMemory>
        requires { ForSome self.old (λ known. HasReference known r) }
        ensures ok { OnOk result (self.new ≡ rule.load r at self.old) }
        ensures keeps { OnOk result (KeepsLoad r at self.old self.new) }
        ensures err { OnErr result (self.new ≡ self.old) }
    {
        self.push_item(r, at)
    }

    /// Stores a number into an array at an index. The segments of the reference have it there, and those of each
    /// reference that may be the same array may have it.
    ///
    /// Cost: a test of each reference, and a look at each bound of those that may be the same array.
    pub fn store(&mut self, r: u32, at: Expr, value: Expr) -> Result<(), NoMemory>
        requires there { ForSome self.old (λ known. HasReference known r) }
        requires index { ForSome self.old (λ known. HasNumber known at) }
        requires value { ForSome self.old (λ known. HasNumber known value) }
        ensures ok { OnOk result (self.new ≡ rule.store r at value self.old) }
        ensures keeps { OnOk result (KeepsStore r at value self.old self.new) }
        ensures err { OnErr result (self.new ≡ self.old) }
    {
        self.store_item(r, at, value)
    }

    /// Pushes a new array of this type and length, whose items are 0.
    pub fn new_array(&mut self, place: Place, length: Expr) -> Result<(), NoMemory>
        requires place { IsArrayPlace place }
        requires length { ForSome self.old (λ known. HasNumber known length) }
        ensures ok { OnOk result (self.new ≡ rule.new_array place length self.old) }
        ensures keeps { OnOk result (KeepsNewArray place length self.old self.new) }
        ensures err { OnErr result (self.new ≡ self.old) }
    {
        self.push_array(place, length)
    }

    /// A call to which so many variables were passed, from the first one on, came back: of each array that may be one
    /// of those that were passed the items are forgotten, and what it gives is pushed, a value of this type, or
    /// nothing.
    pub fn forget(&mut self, first: u32, args: u32, place: Place) -> Result<(), NoMemory>
        requires { ForSome self.old (λ known. first + args ≤ length known.variables) }
        ensures ok { OnOk result (self.new ≡ rule.forget first args place self.old) }
        ensures keeps { OnOk result (KeepsCall first args place self.old self.new) }
        ensures err { OnErr result (self.new ≡ self.old) }
    {
        self.push_result(first, args, place)
    }
}
