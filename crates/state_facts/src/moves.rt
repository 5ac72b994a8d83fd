//! Moves: pushes, pops and puts.

ghost use Rattle.std.specs.Prelude.{◌≡◌, ◌<◌, ◌≤◌, true, length, IfOk, OnOk, OnErr, Some, is_some};
ghost use Rattle.number_facts.specs.Facts.{IsNamed};
ghost use Rattle.number_facts.specs.Ends.{range_of};
ghost use Rattle.number_facts.specs.Fresh.{expr_made, facts_made};
ghost use Rattle.state_facts.specs.Moves as rule;

use crate::known::Known;
use cil_model::Place;
use domain_api::{Expr, NoMemory};
use frame_names::Var;
use number_facts::Numbers;

/// Returns whether the numbers of an expression are all numbers of bool.
pub(crate) fn is_byte(numbers: &Numbers, e: Expr) -> bool
    requires { IsNamed numbers.now e }
    ensures { result ≡ rule.is_byte (range_of numbers.now e) }
{
    let (lo, hi, _) = numbers.ends(e);
    0 <= lo && hi <= 255
}

/// A number as it is put into a place.
#[tactic(auto, unfolding(crate::specs::Moves::placed))]
fn placed(numbers: &mut Numbers, e: Expr, place: Place) -> Result<Option<Expr>, NoMemory>
    requires { IsNamed numbers.old e }
    ensures value { IfOk result (λ made. made ≡ expr_made (rule.placed numbers.old e place)) }
    ensures facts { OnOk result (numbers.new ≡ facts_made numbers.old (rule.placed numbers.old e place)) }
    ensures err { OnErr result (numbers.new ≡ numbers.old) }
{
    match place {
        Place::Bool if !is_byte(numbers, e) => numbers.fresh(0, 255, None),
        _ => Ok(Some(e)),
    }
}

impl Known {
    /// Pushes what is known of a value: one variable more, on top of the stack.
    ///
    /// # Errors
    ///
    /// Want of memory leaves what was known.
    pub fn push(&mut self, v: Var) -> Result<(), NoMemory>
        ensures ok { OnOk result (self.new ≡ rule.pushed self.old v) }
        ensures err { OnErr result (self.new ≡ self.old) }
    {
        self.variables.push(v)?;
        Ok(())
    }

    /// Takes the top of the stack, the last variable, if there is one.
    #[tactic(auto, unfolding(crate::specs::Moves::popped))]
    pub fn pop(&mut self)
        ensures { self.new ≡ rule.popped self.old }
    {
        let _top = self.variables.pop();
    }

    /// Pushes a number from one to another, of which no more is known. False: there is none.
    #[tactic(auto, unfolding(crate::specs::Moves::with_number))]
    pub(crate) fn push_number(&mut self, lo: i64, hi: i64) -> Result<bool, NoMemory>
        ensures reached { IfOk result (λ reached. reached ≡ is_some (rule.with_number lo hi self.old)) }
        ensures ok { IfOk result (λ reached. reached ≡ true → rule.with_number lo hi self.old ≡ Some self.new) }
        ensures err { OnErr result (self.new ≡ self.old) }
    {
        self.variables.reserve(1)?;
        let Some(e) = self.numbers.fresh(lo, hi, None)? else {
            return Ok(false);
        };
        self.variables.push(Var::Number(e))?;
        Ok(true)
    }

    /// Puts a number into a variable. False: nothing is reached.
    #[tactic(auto, unfolding(crate::specs::Moves::with_placed))]
    fn put_number(&mut self, i: usize, e: Expr, place: Place) -> Result<bool, NoMemory>
        requires there { i < length self.old.variables }
        requires named { IsNamed self.old.facts e }
        ensures reached { IfOk result (λ reached. reached ≡ is_some (rule.with_placed i e place self.old)) }
        ensures ok { IfOk result (λ reached. reached ≡ true → rule.with_placed i e place self.old ≡ Some self.new) }
        ensures err { OnErr result (self.new ≡ self.old) }
    {
        let Some(e) = placed(&mut self.numbers, e, place)? else {
            return Ok(false);
        };
        self.variables[i] = Var::Number(e);
        Ok(true)
    }

    /// Puts a value into variable i, counted from 0, as the machine puts it into a place of this type: into a bool goes
    /// a number from 0 to 255, and of another number nothing more is known. False: nothing is reached.
    ///
    /// # Errors
    ///
    /// Want of memory leaves what was known.
    #[tactic(auto, unfolding(crate::specs::Moves::with_put))]
    pub fn put(&mut self, i: usize, v: Var, place: Place) -> Result<bool, NoMemory>
        requires there { i < length self.old.variables }
        requires named { rule.IsNamedNumber self.old v }
        ensures reached { IfOk result (λ reached. reached ≡ is_some (rule.with_put i v place self.old)) }
        ensures ok { IfOk result (λ reached. reached ≡ true → rule.with_put i v place self.old ≡ Some self.new) }
        ensures err { OnErr result (self.new ≡ self.old) }
    {
        match v {
            Var::Number(e) => self.put_number(i, e, place),
            Var::Reference(_) | Var::Text | Var::Address(..) => {
                self.variables[i] = v;
                Ok(true)
            }
        }
    }
}
