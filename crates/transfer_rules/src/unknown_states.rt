//! States that know nothing.

ghost use Rattle.std.specs.Prelude.{◌≡◌, ◌<◌, length, reverse, Some, IfOk, OnOk};
ghost use Rattle.transfer_rules.specs.Flow.{Fits};
ghost use Rattle.transfer_rules.specs.Unknown as rule;
ghost use Rattle.unit_flow.specs.Flow.{IsLawful};

use crate::entry::{no_variables, push_unknown};
use abs_state::{AbsState, Var};
use cil_model::{Kind, Place, Unit};
use domain_api::NoMemory;
use number_spans::Span;
use std::alloc::Global;
use unit_flow::UnitFlow;

/// What a length may be.
const LENGTHS: Span = Span {
    lo: 0,
    hi: 2_147_483_647,
    hole: None,
};

/// Pushes a value of a kind, of which no more is known.
fn push_of_kind(state: &mut AbsState, kind: Kind) -> Result<(), NoMemory>
    ensures { OnOk result (state.new ≡ rule.push_of_kind kind state.old) }
{
    match kind {
        Kind::Int => state.push_unknown(Place::Int),
        Kind::Native => state.push_within(LENGTHS),
        Kind::Ints => state.push_unknown(Place::Ints),
        Kind::Bools => state.push_unknown(Place::Bools),
        Kind::NullRef => state.push(Var::Reference(0)),
        Kind::Text => state.push(Var::Text),
        Kind::AddrInts => state.push_unknown_address(Place::Ints),
        Kind::AddrBools => state.push_unknown_address(Place::Bools),
    }
}

/// Pushes a value of each of these kinds.
fn push_stack(state: &mut AbsState, kinds: &[Kind]) -> Result<(), NoMemory>
    ensures { OnOk result (state.new ≡ rule.with_stack kinds.now state.old) }
{
    for kind in kinds {
        push_of_kind(state, *kind)?;
    }
    Ok(())
}

/// The state of a frame over a stack of these kinds, the bottom first, that knows nothing but types.
fn unknown_over(alloc: Global, unit: &Unit, kinds: &[Kind]) -> Result<AbsState, NoMemory>
    ensures { IfOk result (λ state. state ≡ rule.unknown_over unit.now (Some (reverse kinds.now))) }
{
    let mut state = no_variables(alloc)?;
    push_unknown(&mut state, unit.args.as_slice())?;
    push_unknown(&mut state, unit.args.as_slice())?;
    push_unknown(&mut state, unit.locals.as_slice())?;
    push_stack(&mut state, kinds)?;
    Ok(state)
}

/// The state at the start of a block that knows nothing but the types of the variables, each apart from the others. It
/// is in no normal form: symbols are numbered as they are made. Where typing does not come, nothing is reached.
pub fn unknown(alloc: Global, code: &UnitFlow, block: u32) -> Result<AbsState, NoMemory>
    requires lawful { IsLawful code.now }
    requires block { block < length code.now.graph.blocks }
    ensures value { IfOk result (λ state. state ≡ rule.unknown code.now block) }
    ensures fits { IfOk result (Fits code.now block) }
{
    match code.kinds_at(block) {
        None => Ok(AbsState::nothing()),
        Some(kinds) => unknown_over(alloc, &code.unit, kinds),
    }
}
