//! Results of operators.

ghost use Rattle.std.specs.Prelude.{◌≡◌, true, IfOk, OnErr, Some, is_some};
ghost use Rattle.number_facts.specs.Facts.{AreNarrow, IsThere};
ghost use Rattle.number_spans.specs.Owed.{Divides, Shifts};
ghost use Rattle.state_facts.specs.Arithmetic as rule;

use crate::known::Known;
use cil_model::BinOp;
use domain_api::{Expr, NoMemory};
use frame_names::Var;

impl Known {
    /// Pushes the result of an operator other than a comparison, on int32. False: there is none, and nothing is
    /// reached.
    ///
    /// The caller owes a constant that divides other than 0, and one to shift by from 0 to 31.
    ///
    /// # Errors
    ///
    /// Want of memory leaves what was known.
    #[tactic(auto, unfolding(crate::specs::Arithmetic::with_result))]
    pub fn arith(&mut self, op: BinOp, a: Expr, b: Expr) -> Result<bool, NoMemory>
        requires first { IsThere self.old.facts a }
        requires second { IsThere self.old.facts b }
        requires narrow { AreNarrow self.old.facts }
        requires divisor { Divides op b }
        requires amount { Shifts op b }
        ensures reached { IfOk result (λ reached. reached ≡ is_some (rule.with_result op a b self.old)) }
        ensures ok { IfOk result (λ reached. reached ≡ true → rule.with_result op a b self.old ≡ Some self.new) }
        ensures err { OnErr result (self.new ≡ self.old) }
    {
        self.variables.reserve(1)?;
        let Some(e) = self.numbers.arith(op, a, b)? else {
            return Ok(false);
        };
        self.variables.push(Var::Number(e))?;
        Ok(true)
    }
}
