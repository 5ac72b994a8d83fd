//! Values of which little is known.

ghost use Rattle.std.specs.Prelude.{◌≡◌, ◌+◌, true, [], length, IfOk, OnErr, OnOk, Some, is_some};
ghost use Rattle.number_facts.specs.Fresh.{expr_made, facts_made, fresh};
ghost use Rattle.state_facts.specs.UnknownValues as rule;

use crate::known::Known;
use alias_facts::Apart;
use cil_model::Place;
use domain_api::{Expr, NoMemory};
use frame_names::Var;
use number_facts::Numbers;
use number_spans::{Span, nearest};

/// A hole, where it has 64 bits.
fn long_hole(hole: Option<i128>) -> Option<i64>
    ensures { result ≡ rule.long_hole hole }
{
    match hole {
        None => None,
        Some(hole) => i64::try_from(hole).ok(),
    }
}

/// A number of a span, of which no more is known. None exactly where none of it is an int32.
fn number_within(numbers: &mut Numbers, span: Span) -> Result<Option<Expr>, NoMemory>
    ensures value { IfOk result (λ e. e ≡ expr_made (fresh numbers.old span.lo span.hi span.hole [])) }
    ensures facts { OnOk result (numbers.new ≡ facts_made numbers.old (fresh numbers.old span.lo span.hi span.hole [])) }
    ensures err { OnErr result (numbers.new ≡ numbers.old) }
{
    numbers.fresh(nearest(span.lo), nearest(span.hi), long_hole(span.hole))
}

impl Known {
    /// Pushes a number of a span, of which no more is known. False: none of it is an int32, and nothing is reached.
    ///
    /// # Errors
    ///
    /// Want of memory leaves what was known.
    #[tactic(auto, unfolding(crate::specs::UnknownValues::with_within))]
    pub fn push_within(&mut self, span: Span) -> Result<bool, NoMemory>
        ensures reached { IfOk result (λ reached. reached ≡ is_some (rule.with_within span self.old)) }
        ensures ok { IfOk result (λ reached. reached ≡ true → rule.with_within span self.old ≡ Some self.new) }
        ensures err { OnErr result (self.new ≡ self.old) }
    {
        self.variables.reserve(1)?;
        let Some(e) = number_within(&mut self.numbers, span)? else {
            return Ok(false);
        };
        self.variables.push(Var::Number(e))?;
        Ok(true)
    }

    /// Pushes a value of a type, of which no more is known, unless it is the type of no value. False: nothing is
    /// reached.
    ///
    /// # Errors
    ///
    /// Want of memory leaves what was known.
    #[tactic(auto, unfolding(crate::specs::UnknownValues::with_unknown))]
    pub fn push_unknown(&mut self, place: Place) -> Result<bool, NoMemory>
        ensures reached { IfOk result (λ reached. reached ≡ is_some (rule.with_unknown place self.old)) }
        ensures ok { IfOk result (λ reached. reached ≡ true → rule.with_unknown place self.old ≡ Some self.new) }
        ensures err { OnErr result (self.new ≡ self.old) }
    {
        match place {
            Place::Void => Ok(true),
            Place::Bool => self.push_number(0, 255),
            Place::Int => self.push_number(i64::from(i32::MIN), i64::from(i32::MAX)),
            Place::Bools | Place::Ints => {
                let apart = self.apart.copy(*self.variables.allocator())?;
                self.push_returned(apart, place)
            }
        }
    }

    /// Pushes the address of an item of an array of a type, of which no more is known, where these pairs are apart and
    /// the array's reference is this one. After an error numbers alone may have changed.
    #[tactic(auto, unfolding(crate::specs::Calls::with_returned, crate::specs::UnknownValues::with_unknown_address))]
    fn push_address(&mut self, apart: Apart, r: u32, place: Place) -> Result<bool, NoMemory>
        requires apart { apart ≡ self.old.apart }
        requires reference { r ≡ length self.old.references + 1 }
        ensures reached { IfOk result (λ reached. reached ≡ is_some (rule.with_unknown_address place self.old)) }
        ensures ok { IfOk result (λ reached. reached ≡ true →
            rule.with_unknown_address place self.old ≡ Some self.new) }
        ensures err { OnErr result (record self.new { facts = self.old.facts } ≡ self.old) }
    {
        let Some(length) = self.numbers.fresh(0, 2_147_483_647, None)? else {
            return Ok(false);
        };
        let Some(index) = self.numbers.fresh(0, 2_147_483_647, None)? else {
            return Ok(false);
        };
        self.push_naming(apart, place, length, Var::Address(r, index))?;
        Ok(true)
    }

    /// Pushes the address of an item of an array of a type, of which no more is known. False: nothing is reached.
    ///
    /// Cost: what is known of numbers is copied, and put back where memory runs out.
    ///
    /// # Errors
    ///
    /// Want of memory leaves what was known.
    pub fn push_unknown_address(&mut self, place: Place) -> Result<bool, NoMemory>
        ensures reached { IfOk result (λ reached. reached ≡ is_some (rule.with_unknown_address place self.old)) }
        ensures ok { IfOk result (λ reached. reached ≡ true →
            rule.with_unknown_address place self.old ≡ Some self.new) }
        ensures err { OnErr result (self.new ≡ self.old) }
    {
        let r = self.next_reference()?;
        let apart = self.apart.copy(*self.variables.allocator())?;
        let before = self.numbers.copy(*self.variables.allocator())?;
        match self.push_address(apart, r, place) {
            Ok(reached) => Ok(reached),
            Err(refused) => {
                self.numbers = before;
                Err(refused)
            }
        }
    }
}
