//! What is known where a comparison is assumed to hold, or not to hold.

ghost use Rattle.std.specs.Prelude.{◌≡◌, ◌≤◌, ◌-◌, true, length, IfOk, OnOk, OnErr, Some, is_some, if◌then◌else◌};
ghost use Rattle.number_facts.specs.Assume.{contrary};
ghost use Rattle.number_facts.specs.Facts.{IsNamed};
ghost use Rattle.state_facts.specs.Assuming as rule;
ghost use Rattle.state_facts.specs.Forms.{HasForm};
ghost use Rattle.state_facts.specs.Moves.{IsNamedNumber};
ghost use Rattle.state_facts.specs.StateFacts.{nullness_at};

use crate::comparing::null_tested;
use crate::known::Known;
use crate::test::Test;
use alias_facts::Nullness;
use cil_model::CmpOp;
use domain_api::{Expr, NoMemory};
use frame_names::{Reference, Var};
use number_facts::Numbers;
use symbolic_values::Def;

/// How many steps are taken at most: what is assumed, and eight definitions one after another.
const STEPS: u32 = 9;

/// What a definition says where its symbol is 1, or is 0. None of a difference.
fn told(def: Def, so: bool) -> Option<Test>
    ensures { result ≡ rule.told_by so def }
{
    match def {
        Def::Eq(a, b) => Some(Test::Compares(CmpOp::Eq, a, b, so)),
        Def::Lt(a, b) => Some(Test::Compares(CmpOp::Lt, a, b, so)),
        Def::LtUn(a, b) => Some(Test::Compares(CmpOp::LtUn, a, b, so)),
        Def::NullTest(r, is) => Some(Test::IsNull(r, is == so)),
        Def::Sub(_, _) => None,
    }
}

/// Returns whether an expression is the constant 0.
fn is_zero(e: Expr) -> bool
    ensures { result ≡ rule.is_zero e }
{
    e.sym == 0 && e.k == 0
}

/// The symbol of an expression without a constant.
fn symbol_alone(e: Expr) -> Option<u32>
    ensures { result ≡ rule.symbol_alone e }
{
    if e.k == 0 { Some(e.sym) } else { None }
}

/// The symbol that is compared with 0.
fn symbol_with_zero(a: Expr, b: Expr) -> Option<u32>
    ensures { result ≡ rule.symbol_with_zero a b }
{
    if is_zero(b) {
        symbol_alone(a)
    } else if is_zero(a) {
        symbol_alone(b)
    } else {
        None
    }
}

/// The symbol that is not 0, where 0 is less than it as unsigned and nothing else is known of that.
#[tactic(auto, unfolding(crate::specs::Assuming::symbol_above_zero))]
fn symbol_above_zero(numbers: &Numbers, a: Expr, b: Expr) -> Option<u32>
    requires { IsNamed numbers.now b }
    ensures { result ≡ rule.symbol_above_zero numbers.now a b }
{
    let (lo, _, _) = numbers.ends(b);
    if 0 <= lo || !is_zero(a) {
        None
    } else {
        symbol_alone(b)
    }
}

/// What is told of a symbol: whether it is not 0.
fn with_flag(symbol: Option<u32>, so: bool) -> Option<(u32, bool)>
    ensures { result ≡ rule.with_flag so symbol }
{
    Some((symbol?, so))
}

/// The symbol that a comparison tells not to be 0, or to be 0, where it holds or does not.
#[tactic(auto, unfolding(crate::specs::Assuming::symbol_told))]
fn symbol_told(numbers: &Numbers, op: CmpOp, a: Expr, b: Expr, holds: bool) -> Option<(u32, bool)>
    requires first { IsNamed numbers.now a }
    requires second { IsNamed numbers.now b }
    ensures { result ≡ rule.symbol_told numbers.now (if holds then op else contrary op) a b }
{
    match (op, holds) {
        (CmpOp::Eq, true) | (CmpOp::NeUn, false) => with_flag(symbol_with_zero(a, b), false),
        (CmpOp::NeUn, true) | (CmpOp::Eq, false) => with_flag(symbol_with_zero(a, b), true),
        (CmpOp::LtUn, true) | (CmpOp::GeUn, false) => {
            with_flag(symbol_above_zero(numbers, a, b), true)
        }
        (CmpOp::GtUn, true) | (CmpOp::LeUn, false) => {
            with_flag(symbol_above_zero(numbers, b, a), true)
        }
        _ => None,
    }
}

/// The definition of a symbol, if it has one.
#[tactic(auto, using(crate::proofs::Searching::definitions_found))]
pub fn definition_at(definitions: &[(u32, Def)], symbol: u32) -> Option<Def>
    ensures { result ≡ rule.definition_at definitions.now symbol }
{
    for definition in definitions {
        if definition.0 == symbol {
            return Some(definition.1);
        }
    }
    None
}

impl Known {
    /// What follows from a test, by the definition of a symbol that it tells to be 0 or not to be.
    #[tactic(auto, unfolding(crate::specs::Assuming::following))]
    fn following(&self, test: &Test) -> Option<Test>
        requires { rule.IsNamedTest self.now test.now }
        ensures { result ≡ rule.following self.now test.now }
    {
        let Test::Compares(op, a, b, holds) = *test else {
            return None;
        };
        let (symbol, so) = symbol_told(&self.numbers, op, a, b, holds)?;
        let def = definition_at(self.numbers.definitions.rows(), symbol)?;
        told(def, so)
    }

    /// Something is known of whether a reference is null. That of reference 0 is never changed.
    #[tactic(auto, using(crate::proofs::Searching::reference_there), unfolding(crate::specs::Assuming::with_nullness))]
    fn set_nullness(&mut self, r: u32, told: Nullness)
        ensures { self.new ≡ rule.with_nullness self.old r told }
    {
        let Some(reference) = self.reference_at(r) else {
            return;
        };
        self.references[r as usize - 1] = Reference {
            place: reference.place,
            nullness: told,
            length: reference.length,
        };
    }

    /// Returns whether a reference is known not to be as a test says.
    fn contradicts(&self, r: u32, is: bool) -> bool
        ensures { result ≡ rule.contradicts (nullness_at self.now r) is }
    {
        match self.nullness(r) {
            Nullness::May => false,
            Nullness::NotNull => is,
            Nullness::Null => !is,
        }
    }

    /// A reference is null, or is not. False: nothing is reached.
    #[tactic(auto, unfolding(crate::specs::Assuming::with_null))]
    fn assume_null(&mut self, r: u32, is: bool) -> bool
        ensures reached { result ≡ is_some (rule.with_null r is self.old) }
        ensures ok { result ≡ true → rule.with_null r is self.old ≡ Some self.new }
    {
        if self.contradicts(r, is) {
            return false;
        }
        self.set_nullness(
            r,
            if is {
                Nullness::Null
            } else {
                Nullness::NotNull
            },
        );
        true
    }

    /// A test is so. False: nothing is reached.
    #[tactic(auto, unfolding(crate::specs::Assuming::with_test))]
    fn assume_test(&mut self, test: &Test) -> Result<bool, NoMemory>
        requires { rule.IsNamedTest self.old test.now }
        ensures reached { IfOk result (λ reached. reached ≡ is_some (rule.with_test test.now self.old)) }
        ensures ok { IfOk result (λ reached. reached ≡ true → rule.with_test test.now self.old ≡ Some self.new) }
        ensures err { OnErr result (self.new ≡ self.old) }
    {
        match *test {
            Test::Compares(op, a, b, holds) => self.numbers.assume_cmp(op, a, b, holds),
            Test::IsNull(r, is) => Ok(self.assume_null(r, is)),
        }
    }

    /// A test is so, and what follows from it by definitions, in so many steps. False: nothing is reached. After an
    /// error numbers alone may have changed.
    #[tactic(auto, unfolding(crate::specs::Assuming::with_steps))]
    fn assume_steps(&mut self, steps: u32, test: Option<Test>) -> Result<bool, NoMemory>
        requires form { HasForm self.old }
        requires named { rule.AreNamedTests self.old test }
        ensures reached { IfOk result (λ reached. reached ≡ is_some (rule.with_steps steps test self.old)) }
        ensures ok { IfOk result (λ reached. reached ≡ true → rule.with_steps steps test self.old ≡ Some self.new) }
        ensures err { OnErr result (record self.new { facts = self.old.facts } ≡ self.old) }
        ensures tested { OnErr result (is_some test ≡ true) }
    {
        let Some(test) = test else {
            return Ok(true);
        };
        if steps == 0 {
            return Ok(true);
        }
        let next = self.following(&test);
        if !self.assume_test(&test)? {
            return Ok(false);
        }
        self.assume_steps(steps - 1, next)
    }

    /// A comparison of numbers holds, with what follows from it by definitions. False: nothing is reached.
    ///
    /// Cost: what is known of numbers is copied, and put back where memory runs out.
    fn assume_all(&mut self, test: Test) -> Result<bool, NoMemory>
        requires form { HasForm self.old }
        requires named { rule.IsNamedTest self.old test }
        ensures reached { IfOk result (λ reached. reached ≡ is_some (rule.with_steps 9 (Some test) self.old)) }
        ensures ok { IfOk result (λ reached. reached ≡ true → rule.with_steps 9 (Some test) self.old ≡ Some self.new) }
        ensures err { OnErr result (self.new ≡ self.old) }
    {
        let before = self.numbers.copy(*self.variables.allocator())?;
        match self.assume_steps(STEPS, Some(test)) {
            Ok(reached) => Ok(reached),
            Err(refused) => {
                self.numbers = before;
                Err(refused)
            }
        }
    }

    /// The same. Nothing is copied where no definition follows.
    #[tactic(auto, using(crate::proofs::Stepping::steps_alone))]
    fn assume_numbers(&mut self, test: Test) -> Result<bool, NoMemory>
        requires form { HasForm self.old }
        requires named { rule.IsNamedTest self.old test }
        ensures reached { IfOk result (λ reached. reached ≡ is_some (rule.with_steps 9 (Some test) self.old)) }
        ensures ok { IfOk result (λ reached. reached ≡ true → rule.with_steps 9 (Some test) self.old ≡ Some self.new) }
        ensures err { OnErr result (self.new ≡ self.old) }
    {
        match self.following(&test) {
            None => self.assume_test(&test),
            Some(_) => self.assume_all(test),
        }
    }

    /// Two references are the same, or are not. False: nothing is reached.
    fn assume_same(&mut self, r: u32, q: u32, is: bool) -> bool
        ensures reached { result ≡ is_some (rule.with_same r q is self.old) }
        ensures ok { result ≡ true → rule.with_same r q is self.old ≡ Some self.new }
    {
        match null_tested(r, q) {
            Some(tested) => self.assume_null(tested, is),
            None => true,
        }
    }

    /// Assumes that a comparison holds, or where the flag is false, that it does not, and what follows from that by
    /// eight definitions at most, one after another. False: it cannot be so, and nothing is reached.
    ///
    /// Cost: where a definition follows, what is known of numbers is copied, and put back where memory runs out.
    ///
    /// # Errors
    ///
    /// Want of memory leaves what was known.
    #[tactic(auto, unfolding(crate::specs::Assuming::assumed))]
    pub fn assume(&mut self, op: CmpOp, a: Var, b: Var, holds: bool) -> Result<bool, NoMemory>
        requires form { HasForm self.old }
        requires first { IsNamedNumber self.old a }
        requires second { IsNamedNumber self.old b }
        ensures reached { IfOk result (λ reached. reached ≡ is_some (rule.assumed op a b holds self.old)) }
        ensures ok { IfOk result (λ reached. reached ≡ true → rule.assumed op a b holds self.old ≡ Some self.new) }
        ensures err { OnErr result (self.new ≡ self.old) }
    {
        match (a, b) {
            (Var::Number(x), Var::Number(y)) => self.assume_numbers(Test::Compares(
                op, x, y, holds,
            )),
            (Var::Reference(r), Var::Reference(q)) => Ok(self.assume_same(
                r,
                q,
                (op == CmpOp::Eq) == holds,
            )),
            (Var::Number(_) | Var::Reference(_) | Var::Text | Var::Address(..), _) => Ok(true),
        }
    }
}
