//! What a call owes and gives.

ghost use Rattle.std.specs.Prelude.{◌≡◌, ℕ, ◌+◌, ◌≤◌, ◌∷◌, [], IfOk, OnOk, length, true};
ghost use Rattle.std.specs.Option.{ForSome, option_map};
ghost use Rattle.cil_model.specs.Clauses as clauses;
ghost use Rattle.cil_model.specs.Clauses.{clauses_of};
ghost use Rattle.cil_model.specs.Kinds.{result_count};
ghost use Rattle.cil_model.specs.Limits.{MAX_VARIABLES};
ghost use Rattle.cil_model.specs.WellFormed.{IsCallee};
ghost use Rattle.contract_calls.specs.CallForms.{CanAssume, CanCall, HasFew, IsClauseOf};
ghost use Rattle.contract_calls.specs.CallStates as rule;
ghost use Rattle.contract_calls.specs.Meaning.{IsRequiredAt, KeepsAllRequired, KeepsCall, KeepsReturned, KeepsRequired};

use crate::arguments::{first_of, put_args};
use crate::clauses::assume_each;
use abs_state::AbsState;
use cil_model::{CalleeInfo, Clause, ClauseKind, Place};
use clause_trees::{TreeEnv, assume_tree, tree_shown};
use domain_api::NoMemory;
use std::alloc::Global;

/// The variable that has a result, unless this is the place of no value.
pub(crate) fn result_at(place: Place, i: u32) -> Option<u32>
    ensures { result ≡ rule.result_at place i }
{
    match place {
        Place::Void => None,
        _ => Some(i),
    }
}

/// Where a Requires of the callee reads the arguments.
fn at_call(state: &AbsState, callee: &CalleeInfo) -> TreeEnv
    requires few { HasFew state.now }
    ensures { result ≡ rule.at_call (length callee.now.args) state.now }
{
    TreeEnv {
        args: first_of(state, callee.args.as_slice().len()),
        result: None,
    }
}

/// Returns whether the state shows a Requires of the callee to be true. The arguments lie on top of the stack, as they
/// were put into the places of the parameters.
///
/// The caller owes that they are of the parameters' kinds, and a clause of the callee (`callee_clauses` and
/// `clause_there` of proofs/MethodClauses).
///
/// Cost: that of `tree_shown`.
#[tactic(auto, using(crate::proofs::AtCalls::test_at_call))]
pub fn requires_shown(
    alloc: Global,
    state: &AbsState,
    callee: &CalleeInfo,
    clause: &Clause,
) -> Result<bool, NoMemory>
    requires ready { CanCall callee.now state.now }
    requires test { IsClauseOf callee.now.args callee.now.result clause.now }
    ensures value { IfOk result (λ shown. shown ≡ rule.requires_shown callee.now clause.now state.now) }
    ensures sound { IfOk result (λ shown. shown ≡ true → IsRequiredAt callee.now clause.now state.now) }
{
    tree_shown(alloc, state, &clause.tree, &at_call(state, callee))
}

/// The state in which a Requires of the callee is assumed to be true.
///
/// Cost: that of `assume_tree`.
#[tactic(auto, using(crate::proofs::AtCalls::test_at_call))]
pub fn assume_requires(
    alloc: Global,
    state: &AbsState,
    callee: &CalleeInfo,
    clause: &Clause,
) -> Result<AbsState, NoMemory>
    requires ready { CanCall callee.now state.now }
    requires test { IsClauseOf callee.now.args callee.now.result clause.now }
    ensures value { IfOk result (λ new. new ≡ rule.requires_assumed callee.now clause.now state.now) }
    ensures keeps { IfOk result (λ new. KeepsRequired callee.now clause.now state.now new) }
    // The next one may be judged in it.
    ensures ready { IfOk result (λ new. CanCall callee.now new) }
{
    assume_tree(alloc, state, &clause.tree, &at_call(state, callee))
}

/// The state in which all Requires of the callee are assumed to be true.
#[tactic(auto, unfolding(crate::specs::CallStates::required), using(crate::proofs::AtCalls::call_assumes))]
fn required(alloc: Global, state: AbsState, callee: &CalleeInfo) -> Result<AbsState, NoMemory>
    requires formed { IsCallee callee.now }
    requires ready { CanCall callee.now state }
    ensures { IfOk result (λ new. new ≡ rule.required callee.now state) }
{
    let env = at_call(&state, callee);
    assume_each(
        alloc,
        state,
        ClauseKind::Requires,
        callee.clauses.as_slice(),
        &env,
    )
}

/// The state in which all Requires of the callee are assumed to be true, one after the other.
///
/// Cost: that of `assume_tree` for each.
pub fn assume_all_requires(
    alloc: Global,
    state: AbsState,
    callee: &CalleeInfo,
) -> Result<AbsState, NoMemory>
    requires formed { IsCallee callee.now }
    requires ready { CanCall callee.now state }
    ensures value { IfOk result (λ new. new ≡ rule.required callee.now state) }
    ensures keeps { IfOk result (λ new. KeepsAllRequired callee.now state new) }
    // The callee may be called in it.
    ensures ready { IfOk result (λ new. CanCall callee.now new) }
{
    required(alloc, state, callee)
}

/// Where an Ensures of the callee reads the arguments and the result.
fn behind_args(state: &AbsState, callee: &CalleeInfo) -> TreeEnv
    requires few { HasFew state.now }
    requires few_args { length callee.now.args ≤ MAX_VARIABLES }
    ensures { result ≡ rule.behind_args callee.now state.now }
{
    let count = callee.args.as_slice().len();
    let first = first_of(state, count);
    TreeEnv {
        args: first,
        result: result_at(callee.result, first + count as u32),
    }
}

/// The state behind a call, with the arguments still below its result.
#[tactic(auto, using(crate::proofs::Behind::behind_assumes))]
fn given(alloc: Global, mut state: AbsState, callee: &CalleeInfo) -> Result<AbsState, NoMemory>
    requires formed { IsCallee callee.now }
    requires ready { CanCall callee.now state }
    ensures { IfOk result (λ new. new ≡ rule.given callee.now state) }
{
    let env = behind_args(&state, callee);
    let count = callee.args.as_slice().len() as u32;
    state.forget(env.args, count, callee.result)?;
    assume_each(
        alloc,
        state,
        ClauseKind::Ensures,
        callee.clauses.as_slice(),
        &env,
    )
}

/// Takes so many values from the stack.
#[tactic(auto, using(crate::proofs::Less::taking))]
fn pop_each(state: &mut AbsState, count: usize) -> Result<(), NoMemory>
    ensures { OnOk result (state.new ≡ option_map (rule.without_top count) state.old) }
{
    for _ in 0..count {
        state.pop()?;
    }
    Ok(())
}

/// Takes so many values from below the one on top.
#[tactic(auto, using(crate::proofs::Less::lessening))]
fn take_below(state: &mut AbsState, count: usize) -> Result<(), NoMemory>
    requires few { count ≤ MAX_VARIABLES }
    ensures { OnOk result ((first : ℕ) → ForSome state.old (λ known. length known.variables ≡ first + count + 1)
        → state.new ≡ option_map (rule.less first count) state.old) }
{
    let Some(top) = state.from_top(0) else {
        return Ok(());
    };
    pop_each(state, count + 1)?;
    state.push(top)
}

/// Takes the arguments from below a result of this type.
#[tactic(auto, using(crate::proofs::Less::lessening))]
fn take_args(state: &mut AbsState, count: usize, place: Place) -> Result<(), NoMemory>
    requires few { count ≤ MAX_VARIABLES }
    ensures { OnOk result ((first : ℕ)
        → ForSome state.old (λ known. length known.variables ≡ first + count + result_count place)
        → state.new ≡ option_map (rule.less first count) state.old) }
{
    match place {
        Place::Void => pop_each(state, count),
        _ => take_below(state, count),
    }
}

/// The state behind a call.
#[tactic(auto, unfolding(crate::specs::CallStates::after_call), using(crate::proofs::BehindForms::given_many))]
fn behind(alloc: Global, state: AbsState, callee: &CalleeInfo) -> Result<AbsState, NoMemory>
    requires formed { IsCallee callee.now }
    requires ready { CanCall callee.now state }
    ensures { IfOk result (λ new. new ≡ rule.after_call callee.now state) }
{
    let mut state = given(alloc, state, callee)?;
    take_args(&mut state, callee.args.as_slice().len(), callee.result)?;
    Ok(state)
}

/// The state behind a call that came back, from the one at the call: the arguments lie on top of the stack, as they
/// were put into the places of the parameters. Each Ensures of the callee is assumed, of which old values are those
/// over the heap at the call. The arguments are gone, and the result is on top.
///
/// Cost: that of `assume_tree` for each Ensures.
pub fn after_call(alloc: Global, state: AbsState, callee: &CalleeInfo) -> Result<AbsState, NoMemory>
    requires formed { IsCallee callee.now }
    requires ready { CanCall callee.now state }
    ensures value { IfOk result (λ new. new ≡ rule.after_call callee.now state) }
    // Whatever the callee did that its Ensures allow.
    ensures keeps { IfOk result (λ new. KeepsReturned callee.now state new) }
{
    behind(alloc, state, callee)
}

/// What a call makes of a state.
#[tactic(auto, unfolding(crate::specs::CallStates::called))]
fn whole(alloc: Global, state: AbsState, callee: &CalleeInfo) -> Result<AbsState, NoMemory>
    requires formed { IsCallee callee.now }
    requires ready { CanCall callee.now state }
    ensures { IfOk result (λ new. new ≡ rule.called callee.now state) }
{
    let put = put_args(state, callee.args.as_slice())?;
    let required = assume_all_requires(alloc, put, callee)?;
    after_call(alloc, required, callee)
}

/// The state behind a call that came back, from the one before it: the arguments are put, all Requires of the callee
/// are assumed, and then each of its Ensures.
///
/// Cost: that of `assume_tree` for each clause.
pub fn call(alloc: Global, state: AbsState, callee: &CalleeInfo) -> Result<AbsState, NoMemory>
    requires formed { IsCallee callee.now }
    requires ready { CanCall callee.now state }
    ensures value { IfOk result (λ new. new ≡ rule.called callee.now state) }
    // Whatever the callee did that its Ensures allow.
    ensures keeps { IfOk result (λ new. KeepsCall callee.now state new) }
{
    whole(alloc, state, callee)
}
