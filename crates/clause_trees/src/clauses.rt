//! Trees that are shown, and trees that are assumed.

ghost use Rattle.std.specs.Prelude.{◌≡◌, IfOk, IsSome, Some, true, false};
ghost use Rattle.std.specs.Option.{ForSome, option_and_then};
ghost use Rattle.cil_model.specs.Terms as terms;
ghost use Rattle.frame_names.specs.declared.var.Var.TheVariants as vars;
ghost use Rattle.merged_states.specs.Alike.{AreLikeStates};
ghost use Rattle.merged_states.specs.Merging.{join};
ghost use Rattle.state_facts.specs.Forms.{HasNumber};
ghost use Rattle.clause_trees.specs.ClauseStates as rule;
ghost use Rattle.clause_trees.specs.Meaning.{CanTest, IsSoWherever, KeepsWhereSo};
ghost use Rattle.clause_trees.specs.TreeValues.{Finds};

use crate::conditions::{assume_true, span_of};
use crate::reader::{Reader, Time, TreeEnv};
use crate::stack::take;
use abs_state::{AbsState, Var};
use cil_model::{BinOp, Node, Tree};
use domain_api::{Expr, Lattice, NoMemory};
use std::alloc::Global;

/// Returns whether a comparison with this second side is true exactly where its first side is false: it is one with the
/// constant 0.
fn is_negation(op: BinOp, b: &Tree) -> bool
    ensures { result ≡ rule.is_negation op b.now }
{
    matches!((op, &b.node), (BinOp::Ceq, Node::Const(0)))
}

/// Returns whether a number is known not to be 0, or to be 0.
fn is_number_known(state: &AbsState, e: Expr, holds: bool) -> bool
    requires reached { IsSome state.now }
    requires there { ForSome state.now (λ known. HasNumber known e) }
    ensures { ForSome state.now (λ known. result ≡ rule.is_known holds known (Some (vars.Number e))) }
{
    let span = span_of(state, e);
    if holds {
        span.excludes(0)
    } else {
        span.lo == 0 && span.hi == 0
    }
}

/// Returns whether the number on top of the stack is known to be true, or to be false. Where nothing is reached it is.
fn is_top_known(state: &AbsState, holds: bool) -> bool
    ensures { result ≡ rule.is_top_known holds state.now }
{
    match state.from_top(0) {
        Some(Var::Number(e)) => is_number_known(state, e, holds),
        Some(Var::Reference(_) | Var::Text | Var::Address(..)) | None => !state.reached(),
    }
}

/// What is known in either of two cases.
fn joined(alloc: Global, a: AbsState, b: AbsState) -> Result<AbsState, NoMemory>
    requires { AreLikeStates a b }
    ensures { IfOk result (λ either. either ≡ join a b) }
{
    if !a.reached() {
        Ok(b)
    } else if !b.reached() {
        Ok(a)
    } else {
        a.join(alloc, &b)
    }
}

/// What is known where the value on top of the stack is true, or is false. The value is taken.
fn assumed_top(mut state: AbsState, holds: bool) -> Result<AbsState, NoMemory>
    ensures { IfOk result (λ new. new ≡ option_and_then (rule.assumed_top holds) state) }
{
    let Some(value) = take(&mut state)? else {
        return Ok(AbsState::nothing());
    };
    assume_true(&mut state, value, holds)?;
    Ok(state)
}

/// What is known where a tree is true, and where it is false.
#[derive(Drop)]
struct Cases {
    holds: AbsState,
    fails: AbsState,
}

impl Cases {
    /// The same of a tree that is true where this one is false.
    fn exchanged(self) -> Cases
        ensures holds { result.holds ≡ self.fails }
        ensures fails { result.fails ≡ self.holds }
    {
        Cases {
            holds: self.fails,
            fails: self.holds,
        }
    }
}

/// What clauses are read by.
#[derive(Clone, Copy)]
struct Clauses {
    alloc: Global,
    env: TreeEnv,
}

impl Clauses {
    /// Pushes the value of a tree, as it is at the state.
    fn value(self, state: &mut AbsState, tree: &Tree) -> Result<bool, NoMemory>
        ensures { IfOk result (λ entailed. Finds entailed state.new (rule.value_in self.env tree.now state.old)) }
    {
        let reader = Reader {
            alloc: self.alloc,
            env: self.env,
            time: Time::Now,
        };
        reader.value(state, tree)
    }

    /// What is known where a tree that is no condition is true, and where it is false.
    fn cases_of_value(self, mut state: AbsState, tree: &Tree) -> Result<Cases, NoMemory>
        ensures holds { IfOk result (λ cases. cases.holds ≡
            rule.assumed_value true (rule.value_in self.env tree.now state)) }
        ensures fails { IfOk result (λ cases. cases.fails ≡
            rule.assumed_value false (rule.value_in self.env tree.now state)) }
    {
        self.value(&mut state, tree)?;
        let again = state.copy(self.alloc)?;
        Ok(Cases {
            holds: assumed_top(state, true)?,
            fails: assumed_top(again, false)?,
        })
    }

    /// The same of a condition: each is what either branch leaves.
    #[tactic(auto, unfolding(crate::specs::ClauseStates::assumed), using(crate::proofs::ReadableCases::both_cases))]
    #[cycle(casing)]
    fn cases_of_condition(
        self,
        state: AbsState,
        test: &Tree,
        a: &Tree,
        b: &Tree,
    ) -> Result<Cases, NoMemory>
        requires readable { CanTest self.env (terms.Cond test.now a.now b.now) state }
        ensures holds { IfOk result (λ cases. cases.holds ≡
            rule.assumed self.env true (terms.Cond test.now a.now b.now) state) }
        ensures fails { IfOk result (λ cases. cases.fails ≡
            rule.assumed self.env false (terms.Cond test.now a.now b.now) state) }
    {
        let tested = self.cases(state, test)?;
        let first = self.cases(tested.holds, a)?;
        let second = self.cases(tested.fails, b)?;
        Ok(Cases {
            holds: joined(self.alloc, first.holds, second.holds)?,
            fails: joined(self.alloc, first.fails, second.fails)?,
        })
    }

    /// What is known where a tree is true, and where it is false.
    #[tactic(auto, unfolding(crate::specs::ClauseStates::assumed), using(crate::proofs::ReadableCases::assumed_roots))]
    #[cycle(casing)]
    fn cases(self, state: AbsState, tree: &Tree) -> Result<Cases, NoMemory>
        requires readable { CanTest self.env tree.now state }
        ensures holds { IfOk result (λ cases. cases.holds ≡ rule.assumed self.env true tree.now state) }
        ensures fails { IfOk result (λ cases. cases.fails ≡ rule.assumed self.env false tree.now state) }
    {
        match &tree.node {
            Node::Cond(test, a, b) => self.cases_of_condition(state, test, a, b),
            Node::Bin(op, a, b) if is_negation(*op, b) => Ok(self.cases(state, a)?.exchanged()),
            _ => self.cases_of_value(state, tree),
        }
    }

    /// What is known where a tree that is no condition is true, or is false.
    fn assumed_value(
        self,
        mut state: AbsState,
        tree: &Tree,
        holds: bool,
    ) -> Result<AbsState, NoMemory>
        ensures { IfOk result (λ new. new ≡ rule.assumed_value holds (rule.value_in self.env tree.now state)) }
    {
        self.value(&mut state, tree)?;
        assumed_top(state, holds)
    }

    /// The same of a condition: what either branch leaves.
    #[tactic(auto, unfolding(crate::specs::ClauseStates::assumed), using(crate::proofs::ReadableCases::both_cases))]
    #[cycle(assuming)]
    fn assumed_condition(
        self,
        state: AbsState,
        test: &Tree,
        a: &Tree,
        b: &Tree,
        holds: bool,
    ) -> Result<AbsState, NoMemory>
        requires readable { CanTest self.env (terms.Cond test.now a.now b.now) state }
        ensures { IfOk result (λ new. new ≡
            rule.assumed self.env holds (terms.Cond test.now a.now b.now) state) }
    {
        let tested = self.cases(state, test)?;
        let first = self.assumed(tested.holds, a, holds)?;
        let second = self.assumed(tested.fails, b, holds)?;
        joined(self.alloc, first, second)
    }

    /// What is known where a tree is true, or is false.
    #[tactic(auto, unfolding(crate::specs::ClauseStates::assumed), using(crate::proofs::ReadableCases::assumed_roots))]
    #[cycle(assuming)]
    fn assumed(self, state: AbsState, tree: &Tree, holds: bool) -> Result<AbsState, NoMemory>
        requires readable { CanTest self.env tree.now state }
        ensures { IfOk result (λ new. new ≡ rule.assumed self.env holds tree.now state) }
    {
        match &tree.node {
            Node::Cond(test, a, b) => self.assumed_condition(state, test, a, b, holds),
            Node::Bin(op, a, b) if is_negation(*op, b) => self.assumed(state, a, !holds),
            _ => self.assumed_value(state, tree, holds),
        }
    }

    /// Returns whether a tree that is no condition is shown to be true, or to be false.
    fn is_value_shown(self, mut state: AbsState, tree: &Tree, holds: bool) -> Result<bool, NoMemory>
        ensures { IfOk result (λ shown. shown ≡ rule.shown_value holds (rule.value_in self.env tree.now state)) }
    {
        let entailed = self.value(&mut state, tree)?;
        Ok(entailed && is_top_known(&state, holds))
    }

    /// Returns whether no obligation inside a tree faults.
    fn is_harmless(self, state: &AbsState, tree: &Tree) -> Result<bool, NoMemory>
        ensures { IfOk result (λ harmless. harmless ≡ (rule.value_in self.env tree.now state.now).entailed) }
    {
        let mut state = state.copy(self.alloc)?;
        self.value(&mut state, tree)
    }

    /// The same of a condition: its test faults nowhere, and each branch is shown where it is reached.
    #[tactic(auto, unfolding(crate::specs::ClauseStates::shown), using(crate::proofs::ReadableCases::both_cases))]
    #[cycle(showing)]
    fn is_condition_shown(
        self,
        state: AbsState,
        test: &Tree,
        a: &Tree,
        b: &Tree,
        holds: bool,
    ) -> Result<bool, NoMemory>
        requires readable { CanTest self.env (terms.Cond test.now a.now b.now) state }
        ensures { IfOk result (λ shown. shown ≡
            rule.shown self.env holds (terms.Cond test.now a.now b.now) state) }
    {
        if !self.is_harmless(&state, test)? {
            return Ok(false);
        }
        let tested = self.cases(state, test)?;
        Ok(self.is_shown(tested.holds, a, holds)? && self.is_shown(tested.fails, b, holds)?)
    }

    /// Returns whether a tree is shown to be true, or to be false.
    #[tactic(auto, unfolding(crate::specs::ClauseStates::shown), using(crate::proofs::ReadableCases::shown_roots))]
    #[cycle(showing)]
    fn is_shown(self, state: AbsState, tree: &Tree, holds: bool) -> Result<bool, NoMemory>
        requires readable { CanTest self.env tree.now state }
        ensures { IfOk result (λ shown. shown ≡ rule.shown self.env holds tree.now state) }
    {
        match &tree.node {
            Node::Cond(test, a, b) => self.is_condition_shown(state, test, a, b, holds),
            Node::Bin(op, a, b) if is_negation(*op, b) => self.is_shown(state, a, !holds),
            _ => self.is_value_shown(state, tree, holds),
        }
    }
}

/// Returns whether a state shows a tree to be true: no obligation inside faults, and its value is a number other than
/// 0. Where nothing is reached, all is shown.
///
/// The caller owes that the tree may be a test in the state. Here as below the error is want of memory.
///
/// Cost: what the obligations and operators of its nodes cost, and some copies of the state for each condition. It goes
/// as deep as the tree.
pub fn tree_shown(
    alloc: Global,
    state: &AbsState,
    tree: &Tree,
    env: &TreeEnv,
) -> Result<bool, NoMemory>
    requires readable { CanTest env.now tree.now state.now }
    ensures value { IfOk result (λ shown. shown ≡ rule.shown env.now true tree.now state.now) }
    ensures sound { IfOk result (λ shown. shown ≡ true → IsSoWherever env.now true tree.now state.now) }
{
    Clauses { alloc, env: *env }.is_shown(state.copy(alloc)?, tree, true)
}

/// Returns whether a state shows a tree to be false: no obligation inside faults, and its value is 0.
pub fn tree_shown_false(
    alloc: Global,
    state: &AbsState,
    tree: &Tree,
    env: &TreeEnv,
) -> Result<bool, NoMemory>
    requires readable { CanTest env.now tree.now state.now }
    ensures value { IfOk result (λ shown. shown ≡ rule.shown env.now false tree.now state.now) }
    ensures sound { IfOk result (λ shown. shown ≡ true → IsSoWherever env.now false tree.now state.now) }
{
    Clauses { alloc, env: *env }.is_shown(state.copy(alloc)?, tree, false)
}

/// The state in which a tree is assumed to be true. Symbols and references that it made stay until the normal form is
/// taken.
///
/// Cost: as that of `tree_shown`, and a join for each condition, or two for one in a test.
pub fn assume_tree(
    alloc: Global,
    state: &AbsState,
    tree: &Tree,
    env: &TreeEnv,
) -> Result<AbsState, NoMemory>
    requires readable { CanTest env.now tree.now state.now }
    ensures value { IfOk result (λ new. new ≡ rule.assumed env.now true tree.now state.now) }
    ensures keeps { IfOk result (λ new. KeepsWhereSo env.now true tree.now state.now new) }
{
    Clauses { alloc, env: *env }.assumed(state.copy(alloc)?, tree, true)
}

/// The state in which a tree is assumed to be false.
pub fn assume_tree_false(
    alloc: Global,
    state: &AbsState,
    tree: &Tree,
    env: &TreeEnv,
) -> Result<AbsState, NoMemory>
    requires readable { CanTest env.now tree.now state.now }
    ensures value { IfOk result (λ new. new ≡ rule.assumed env.now false tree.now state.now) }
    ensures keeps { IfOk result (λ new. KeepsWhereSo env.now false tree.now state.now new) }
{
    Clauses { alloc, env: *env }.assumed(state.copy(alloc)?, tree, false)
}
