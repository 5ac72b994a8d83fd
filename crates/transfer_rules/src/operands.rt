//! The operands of instructions, on top of the stack.

ghost use Rattle.std.specs.Prelude.{◌≡◌, None, Some, IfOk, IfSome};
ghost use Rattle.std.specs.Option.{option_and_then};
ghost use Rattle.obligation_prover.specs.Operations.{from_top};
ghost use Rattle.state_facts.specs.States as rule;
ghost use Rattle.transfer_rules.specs.Operands.{IsTaken, Took, TookCondition, TookTwo};

use abs_state::{AbsState, Var};
use domain_api::NoMemory;

/// Goes on where an operand is missing or has not the form that the operation takes: nothing is reached any more.
pub(crate) fn refuse(state: &mut AbsState)
    ensures { state.new ≡ None }
{
    *state = AbsState::nothing();
}

/// Takes the top of the stack. None where nothing lies there, and where nothing is reached.
#[tactic(auto, using(crate::proofs::Taking::taking))]
pub(crate) fn take(state: &mut AbsState) -> Result<Option<Var>, NoMemory>
    ensures took { IfOk result (λ top. Took top state.old state.new) }
    ensures taken { IfOk result (λ top. IfSome top (IsTaken state.new)) }
    ensures top { IfOk result (λ top. top ≡ option_and_then (from_top 0) state.old) }
    ensures pops { IfOk result (λ top. state.new ≡ rule.pop state.old) }
{
    let top = state.from_top(0);
    state.pop()?;
    Ok(top)
}

/// Takes two values from the stack, and gives the lower one first. None where one is missing.
#[tactic(auto, using(crate::proofs::Taking::taking))]
pub(crate) fn take_two(state: &mut AbsState) -> Result<Option<(Var, Var)>, NoMemory>
    ensures took { IfOk result (λ two. TookTwo two state.old state.new) }
    ensures lower { IfOk result (λ two. IfSome two (λ vs. IsTaken state.new vs.0)) }
    ensures upper { IfOk result (λ two. IfSome two (λ vs. IsTaken state.new vs.1)) }
    ensures top { IfOk result (λ two. IfSome two (λ vs. option_and_then (from_top 0) state.old ≡ Some vs.1)) }
    ensures below { IfOk result (λ two. IfSome two (λ vs. option_and_then (from_top 0) (rule.pop state.old) ≡ Some vs.0)) }
    ensures pops { IfOk result (λ two. state.new ≡ rule.pop (rule.pop state.old)) }
{
    let upper = take(state)?;
    let lower = take(state)?;
    match (lower, upper) {
        (Some(lower), Some(upper)) => Ok(Some((lower, upper))),
        _ => Ok(None),
    }
}

/// Takes the condition of an Assert or an Assume, and a message on it. None where one is missing.
pub(crate) fn take_condition(state: &mut AbsState, message: bool) -> Result<Option<Var>, NoMemory>
    ensures took { IfOk result (λ condition. TookCondition message condition state.old state.new) }
    ensures taken { IfOk result (λ condition. IfSome condition (IsTaken state.new)) }
{
    if message {
        match take_two(state)? {
            Some((condition, _)) => Ok(Some(condition)),
            None => Ok(None),
        }
    } else {
        take(state)
    }
}
