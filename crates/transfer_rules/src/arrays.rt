//! What is done with arrays, of a state that may be reached or not.

ghost use Rattle.std.specs.Prelude.{◌≡◌, OnOk};
ghost use Rattle.std.specs.Option.{ForSome, option_and_then};
ghost use Rattle.frame_names.specs.declared.var.Var.TheVariants as vars;
ghost use Rattle.state_facts.specs.Forms.{HasVar};
ghost use Rattle.cil_model.specs.UnitCalls.{array_place};
ghost use Rattle.transfer_rules.specs.Acts as rule;
ghost use Rattle.transfer_rules.specs.Operands.{on_one, on_three, on_two};

use crate::operands::{refuse, take, take_two};
use abs_state::{AbsState, Var};
use cil_model::array_place;
use domain_api::{Expr, NoMemory};

/// Takes a length, and pushes a new array of the type that a number in code names.
pub(crate) fn make_array(state: &mut AbsState, number: u32) -> Result<(), NoMemory>
    ensures { OnOk result (state.new ≡ option_and_then (on_one (rule.with_new (array_place number))) state.old) }
{
    match (array_place(number), take(state)?) {
        (Some(place), Some(Var::Number(length))) => state.new_array(place, length),
        (Some(_), Some(Var::Reference(_) | Var::Text | Var::Address(..)) | None) | (None, _) => {
            refuse(state);
            Ok(())
        }
    }
}

/// Takes a reference, and pushes its length.
pub(crate) fn push_length(state: &mut AbsState) -> Result<(), NoMemory>
    ensures { OnOk result (state.new ≡ option_and_then (on_one rule.with_length) state.old) }
{
    let Some(Var::Reference(r)) = take(state)? else {
        refuse(state);
        return Ok(());
    };
    state.push(Var::Number(state.length(r)))
}

/// Takes a reference and an index, and pushes the item.
pub(crate) fn load_item(state: &mut AbsState) -> Result<(), NoMemory>
    ensures { OnOk result (state.new ≡ option_and_then (on_two rule.with_item_of) state.old) }
{
    let Some((Var::Reference(r), Var::Number(i))) = take_two(state)? else {
        refuse(state);
        return Ok(());
    };
    state.load(r, i)
}

/// Takes a reference and an index, and stores a number there.
#[tactic(auto, using(crate::proofs::Calculating::storing))]
fn store_number(state: &mut AbsState, value: Expr) -> Result<(), NoMemory>
    requires there { ForSome state.old (λ known. HasVar known (vars.Number value)) }
    ensures { OnOk result (state.new ≡ option_and_then (on_two (rule.with_number_put value)) state.old) }
{
    let Some((Var::Reference(r), Var::Number(i))) = take_two(state)? else {
        refuse(state);
        return Ok(());
    };
    state.store(r, i, value)
}

/// Takes a reference, an index and a number, and stores the number.
#[tactic(auto, using(crate::proofs::Calculating::storing))]
pub(crate) fn store_item(state: &mut AbsState) -> Result<(), NoMemory>
    ensures { OnOk result (state.new ≡ option_and_then (on_three rule.with_item_put) state.old) }
{
    let Some(Var::Number(value)) = take(state)? else {
        refuse(state);
        return Ok(());
    };
    store_number(state, value)
}
