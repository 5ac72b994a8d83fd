//! Values of which little is known, the types of references, and the stack from its top.

ghost use Rattle.std.specs.Prelude.{◌≡◌, OnOk, OnErr, IfSome, IsSome, reverse, slice_get};
ghost use Rattle.std.specs.Option.{ForSome};
ghost use Rattle.state_facts.specs.Forms.{HasForm, HasVar, IsArrayPlace};
ghost use Rattle.state_facts.specs.Moves.{place_at};
ghost use Rattle.state_facts.specs.StateFacts.{variables_in};
ghost use Rattle.state_facts.specs.UnknownValues as rule;

use crate::state::AbsState;
use cil_model::Place;
use domain_api::NoMemory;
use frame_names::Var;
use number_spans::Span;

impl AbsState {
    /// What the variable has on which so many others lie. None where there is no such variable, and where nothing is
    /// reached.
    pub fn from_top(&self, above: usize) -> Option<Var>
        ensures value { result ≡ slice_get (reverse (variables_in self.now)) above }
        ensures form { IfSome result (λ v. ForSome self.now (λ known. HasVar known v)) }
    {
        self.listed_from_top(above)
    }

    /// What `from_top` returns. That the state has its form is a clause here, of which `from_top` proves the form of the
    /// answer.
    fn listed_from_top(&self, above: usize) -> Option<Var>
        ensures value { result ≡ slice_get (reverse (variables_in self.now)) above }
        ensures form { ForSome self.now HasForm }
    {
        let variables = self.variables();
        let below = variables.len().checked_sub(above)?;
        variables.get(below.checked_sub(1)?).copied()
    }

    /// What the variable of a list index has. None where there is no such variable, and where nothing is reached.
    pub fn var_at(&self, i: u64) -> Option<Var>
        ensures value { result ≡ slice_get (variables_in self.now) i }
        ensures form { IfSome result (λ v. ForSome self.now (λ known. HasVar known v)) }
    {
        self.listed_at(i)
    }

    /// What `var_at` returns, with the clause of which it proves the form of the answer.
    fn listed_at(&self, i: u64) -> Option<Var>
        ensures value { result ≡ slice_get (variables_in self.now) i }
        ensures form { ForSome self.now HasForm }
    {
        self.variables().get(i as usize).copied()
    }

    /// The type of the arrays that a reference may be. That of reference 0 does not matter.
    pub fn place(&self, r: u32) -> Place
        requires reached { IsSome self.now }
        ensures { ForSome self.now (λ known. result ≡ place_at known r) }
    {
        match &self.known {
            Some(known) => known.place(r),
            None => unreachable!(),
        }
    }

    /// Pushes a number of a span, of which no more is known.
    fn push_number_within(&mut self, span: Span) -> Result<(), NoMemory>
        ensures ok { OnOk result (self.new ≡ rule.push_within span self.old) }
        ensures err { OnErr result (self.new ≡ self.old) }
        ensures form { ForSome self.old HasForm }
    {
        let Some(known) = &mut self.known else {
            return Ok(());
        };
        if !known.push_within(span)? {
            self.known = None;
        }
        Ok(())
    }

    /// Pushes a value of a type, of which no more is known.
    fn push_unknown_value(&mut self, place: Place) -> Result<(), NoMemory>
        ensures ok { OnOk result (self.new ≡ rule.push_unknown place self.old) }
        ensures err { OnErr result (self.new ≡ self.old) }
        ensures form { ForSome self.old HasForm }
    {
        let Some(known) = &mut self.known else {
            return Ok(());
        };
        if !known.push_unknown(place)? {
            self.known = None;
        }
        Ok(())
    }

    /// Pushes the address of an item of an array of a type, of which no more is known.
    fn push_item_address(&mut self, place: Place) -> Result<(), NoMemory>
        requires { IsArrayPlace place }
        ensures ok { OnOk result (self.new ≡ rule.push_unknown_address place self.old) }
        ensures err { OnErr result (self.new ≡ self.old) }
        ensures form { ForSome self.old HasForm }
    {
        let Some(known) = &mut self.known else {
            return Ok(());
        };
        if !known.push_unknown_address(place)? {
            self.known = None;
        }
        Ok(())
    }

    /// Pushes a number of a span, of which no more is known: the constant, where one int32 alone is of the span. Where
    /// none is, nothing is reached.
    pub fn push_within(&mut self, span: Span) -> Result<(), NoMemory>
        ensures ok { OnOk result (self.new ≡ rule.push_within span self.old) }
        ensures keeps { OnOk result (rule.KeepsWithin span self.old self.new) }
        ensures err { OnErr result (self.new ≡ self.old) }
    {
        self.push_number_within(span)
    }

    /// Pushes a value of a type, of which no more is known, unless it is the type of no value. An array may be null,
    /// and may be each one that there is.
    pub fn push_unknown(&mut self, place: Place) -> Result<(), NoMemory>
        ensures ok { OnOk result (self.new ≡ rule.push_unknown place self.old) }
        ensures keeps { OnOk result (rule.KeepsUnknown place self.old self.new) }
        ensures err { OnErr result (self.new ≡ self.old) }
    {
        self.push_unknown_value(place)
    }

    /// Pushes the address of an item of an array of a type, of which no more is known: the array may be each one of the
    /// type that there is.
    pub fn push_unknown_address(&mut self, place: Place) -> Result<(), NoMemory>
        requires { IsArrayPlace place }
        ensures ok { OnOk result (self.new ≡ rule.push_unknown_address place self.old) }
        ensures keeps { OnOk result (rule.KeepsUnknownAddress place self.old self.new) }
        ensures err { OnErr result (self.new ≡ self.old) }
    {
        self.push_item_address(place)
    }
}
