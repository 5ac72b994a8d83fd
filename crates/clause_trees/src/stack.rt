//! The operands of a node, on top of the stack.

ghost use Rattle.std.specs.Prelude.{◌≡◌, IfOk, IfSome, OnOk};
ghost use Rattle.std.specs.Option.{ForSome};
ghost use Rattle.state_facts.specs.Forms.{HasVar};
ghost use Rattle.state_facts.specs.States.{pop};
ghost use Rattle.clause_trees.specs.TreeValues as rule;

use abs_state::{AbsState, Var};
use domain_api::NoMemory;

/// Takes a value from the stack. None where nothing is reached.
#[tactic(auto, using(crate::proofs::StackLemmas::top_still_there))]
pub(crate) fn take(state: &mut AbsState) -> Result<Option<Var>, NoMemory>
    ensures value { IfOk result (λ top. top ≡ rule.top_in 0 state.old) }
    ensures state { OnOk result (state.new ≡ pop state.old) }
    ensures there { IfOk result (λ top. IfSome top (λ v. ForSome state.new (λ known. HasVar known v))) }
{
    let top = state.from_top(0);
    state.pop()?;
    Ok(top)
}

/// Takes two values from the stack: the lower one, and the upper one. Each is none where nothing is reached.
#[tactic(auto, using(crate::proofs::StackLemmas::both_still_there))]
pub(crate) fn take_two(state: &mut AbsState) -> Result<(Option<Var>, Option<Var>), NoMemory>
    ensures lower { IfOk result (λ both. both.0 ≡ rule.top_in 1 state.old) }
    ensures upper { IfOk result (λ both. both.1 ≡ rule.top_in 0 state.old) }
    ensures state { OnOk result (state.new ≡ pop (pop state.old)) }
    ensures lower_there { IfOk result (λ both. IfSome both.0 (λ v. ForSome state.new (λ known. HasVar known v))) }
    ensures upper_there { IfOk result (λ both. IfSome both.1 (λ v. ForSome state.new (λ known. HasVar known v))) }
{
    let lower = state.from_top(1);
    let upper = state.from_top(0);
    state.pop()?;
    state.pop()?;
    Ok((lower, upper))
}

/// Goes on with operands that are none of the node's. A tree that has a kind comes here only where nothing is reached:
/// there all is entailed. Another has no value, so nothing is entailed, and nothing is reached any more.
#[tactic(auto, using(crate::proofs::StackLemmas::refused_where))]
pub(crate) fn refused(state: &mut AbsState) -> bool
    ensures { rule.Finds result state.new (rule.in_state rule.refusing state.old) }
{
    let entailed = !state.reached();
    *state = AbsState::nothing();
    entailed
}
