//! What a return owes and gives.
//!
//! The result is put first, and then the unit's Ensures are assumed (`given_back`): an Ensures reads the result in its
//! place. No edge leaves a return, so the rule itself alone tells it (`post` of transfer_rules).

ghost use Rattle.std.specs.Prelude.{◌≡◌, IfOk, true};
ghost use Rattle.cil_model.specs.WellFormed.{IsWellFormed};
ghost use Rattle.contract_calls.specs.CallForms.{CanReturn, HasFew, IsClauseOf};
ghost use Rattle.contract_calls.specs.CallStates as rule;
ghost use Rattle.contract_calls.specs.Meaning.{IsEnsuredAt, KeepsAllEnsured, KeepsEnsured, KeepsReturn};

use crate::arguments::{first_of, put_result};
use crate::calls::result_at;
use crate::clauses::assume_each;
use abs_state::AbsState;
use cil_model::{Clause, ClauseKind, Unit};
use clause_trees::{TreeEnv, assume_tree, tree_shown};
use domain_api::NoMemory;
use std::alloc::Global;

/// Where an Ensures of the unit reads the arguments and the result.
fn at_return(state: &AbsState, unit: &Unit) -> TreeEnv
    requires few { HasFew state.now }
    ensures { result ≡ rule.at_return unit.now.result state.now }
{
    TreeEnv {
        args: 0,
        result: result_at(unit.result, first_of(state, 1)),
    }
}

/// Returns whether the state shows an Ensures of the unit itself to be true at a return. The result lies on top of the
/// stack, as it was put into its place, and the first variables are the arguments at the entry.
///
/// The caller owes that these are of their kinds, and a clause of the unit.
///
/// Cost: that of `tree_shown`.
#[tactic(auto, using(crate::proofs::AtReturns::test_at_return))]
pub fn ensures_shown(
    alloc: Global,
    state: &AbsState,
    unit: &Unit,
    clause: &Clause,
) -> Result<bool, NoMemory>
    requires ready { CanReturn unit.now state.now }
    requires test { IsClauseOf unit.now.args unit.now.result clause.now }
    ensures value { IfOk result (λ shown. shown ≡ rule.ensures_shown unit.now clause.now state.now) }
    ensures sound { IfOk result (λ shown. shown ≡ true → IsEnsuredAt unit.now clause.now state.now) }
{
    tree_shown(alloc, state, &clause.tree, &at_return(state, unit))
}

/// The state in which an Ensures of the unit is assumed to be true at a return.
///
/// Cost: that of `assume_tree`.
#[tactic(auto, using(crate::proofs::AtReturns::test_at_return))]
pub fn assume_ensures(
    alloc: Global,
    state: &AbsState,
    unit: &Unit,
    clause: &Clause,
) -> Result<AbsState, NoMemory>
    requires ready { CanReturn unit.now state.now }
    requires test { IsClauseOf unit.now.args unit.now.result clause.now }
    ensures value { IfOk result (λ new. new ≡ rule.ensures_assumed unit.now clause.now state.now) }
    ensures keeps { IfOk result (λ new. KeepsEnsured unit.now clause.now state.now new) }
    // The next one may be judged in it.
    ensures ready { IfOk result (λ new. CanReturn unit.now new) }
{
    assume_tree(alloc, state, &clause.tree, &at_return(state, unit))
}

/// The state in which all Ensures of the unit are assumed to be true.
#[tactic(auto, unfolding(crate::specs::CallStates::ensured), using(crate::proofs::WholeReturns::return_assumes))]
fn ensured(alloc: Global, state: AbsState, unit: &Unit) -> Result<AbsState, NoMemory>
    requires formed { IsWellFormed unit.now }
    requires ready { CanReturn unit.now state }
    ensures { IfOk result (λ new. new ≡ rule.ensured unit.now state) }
{
    let env = at_return(&state, unit);
    assume_each(
        alloc,
        state,
        ClauseKind::Ensures,
        unit.clauses_in_force(),
        &env,
    )
}

/// The state in which all Ensures of the unit are assumed to be true at a return, one after the other.
///
/// Cost: that of `assume_tree` for each.
pub fn assume_all_ensures(alloc: Global, state: AbsState, unit: &Unit) -> Result<AbsState, NoMemory>
    requires formed { IsWellFormed unit.now }
    requires ready { CanReturn unit.now state }
    ensures value { IfOk result (λ new. new ≡ rule.ensured unit.now state) }
    ensures keeps { IfOk result (λ new. KeepsAllEnsured unit.now state new) }
{
    ensured(alloc, state, unit)
}

/// What a return makes of a state.
#[tactic(auto, unfolding(crate::specs::CallStates::given_back))]
fn whole_return(alloc: Global, state: AbsState, unit: &Unit) -> Result<AbsState, NoMemory>
    requires formed { IsWellFormed unit.now }
    requires ready { CanReturn unit.now state }
    ensures { IfOk result (λ new. new ≡ rule.given_back unit.now state) }
{
    let put = put_result(state, unit.result)?;
    assume_all_ensures(alloc, put, unit)
}

/// The state at a return once its Ensures were found true, from the one before it: the result is put into its place,
/// where it stays on top, and then each Ensures of the unit is assumed.
///
/// Cost: that of `assume_tree` for each Ensures.
pub fn give_back(alloc: Global, state: AbsState, unit: &Unit) -> Result<AbsState, NoMemory>
    requires formed { IsWellFormed unit.now }
    requires ready { CanReturn unit.now state }
    ensures value { IfOk result (λ new. new ≡ rule.given_back unit.now state) }
    // Whatever it gives that its Ensures allow.
    ensures keeps { IfOk result (λ new. KeepsReturn unit.now state new) }
{
    whole_return(alloc, state, unit)
}
