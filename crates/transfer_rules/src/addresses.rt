//! What is done with addresses of items, of a state that may be reached or not.

ghost use Rattle.std.specs.Prelude.{◌≡◌, OnOk};
ghost use Rattle.std.specs.Option.{option_and_then};
ghost use Rattle.transfer_rules.specs.Acts as rule;
ghost use Rattle.transfer_rules.specs.Operands.{on_one, on_two};

use crate::operands::{refuse, take, take_two};
use abs_state::{AbsState, Var};
use domain_api::NoMemory;

/// Takes a reference and an index, and pushes the address of the item.
#[tactic(auto, using(crate::proofs::Addressing::addressing))]
pub(crate) fn push_address(state: &mut AbsState) -> Result<(), NoMemory>
    ensures { OnOk result (state.new ≡ option_and_then (on_two rule.with_address) state.old) }
{
    let Some((Var::Reference(r), Var::Number(i))) = take_two(state)? else {
        refuse(state);
        return Ok(());
    };
    state.push(Var::Address(r, i))
}

/// Takes an address, and pushes the item there.
#[tactic(auto, using(crate::proofs::Addressing::addressing))]
pub(crate) fn load_through(state: &mut AbsState) -> Result<(), NoMemory>
    ensures { OnOk result (state.new ≡ option_and_then (on_one rule.with_item_at) state.old) }
{
    let Some(Var::Address(r, i)) = take(state)? else {
        refuse(state);
        return Ok(());
    };
    state.load(r, i)
}

/// Takes an address and a number, and stores the number there.
#[tactic(auto, using(crate::proofs::Addressing::addressing))]
pub(crate) fn store_through(state: &mut AbsState) -> Result<(), NoMemory>
    ensures { OnOk result (state.new ≡ option_and_then (on_two rule.with_put_at) state.old) }
{
    let Some((Var::Address(r, i), Var::Number(value))) = take_two(state)? else {
        refuse(state);
        return Ok(());
    };
    state.store(r, i, value)
}
