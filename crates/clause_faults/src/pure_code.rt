//! The instructions that the code of a clause may have.

ghost use Rattle.std.specs.Prelude.{◌≡◌, false, slice_get, Some};
ghost use Rattle.std.specs.Option.{option_map_or};
ghost use Rattle.cil_model.specs.UnitCalls.{unit_call};
ghost use Rattle.clause_faults.specs.ClauseLies.{LieInOrder};
ghost use Rattle.clause_faults.specs.PureCode.{calls_with_message, is_clause_call, is_pure, is_pure_before, takes_message};

use cil_model::{Instr, Op, UnitCall, unit_call};

/// Returns whether the call stands in a clause or closes it.
fn is_clause_call(call: Option<UnitCall>) -> bool
    ensures { result ≡ is_clause_call call }
{
    matches!(
        call,
        Some(
            UnitCall::Requires(_)
                | UnitCall::Ensures(_)
                | UnitCall::EndContractBlock
                | UnitCall::Result(_)
                | UnitCall::OldValue(_)
        )
    )
}

/// Returns whether the call takes a message.
fn takes_message(call: Option<UnitCall>) -> bool
    ensures { result ≡ takes_message call }
{
    match call {
        Some(
            UnitCall::Requires(message)
            | UnitCall::Ensures(message)
            | UnitCall::Assert(message)
            | UnitCall::Assume(message),
        ) => message,
        _ => false,
    }
}

fn calls_with_message(op: &Op) -> bool
    ensures { result ≡ calls_with_message op.now }
{
    match op {
        Op::Call(number) => takes_message(unit_call(*number)),
        _ => false,
    }
}

/// Returns whether a clause may have the operation, where the one after it takes a message or does not.
fn is_pure_before(message: bool, op: &Op) -> bool
    ensures { result ≡ is_pure_before message op.now }
{
    match op {
        Op::Nop
        | Op::LoadArg(_)
        | Op::Null
        | Op::Const(_)
        | Op::Bin(_)
        | Op::Neg
        | Op::Not
        | Op::ConvI4
        | Op::Length
        | Op::LoadElem(_)
        | Op::Branch(..) => true,
        Op::Text(_) => message,
        Op::Call(number) => is_clause_call(unit_call(*number)),
        _ => false,
    }
}

/// Returns whether the instruction of this index takes a message, if there is one.
fn takes_message_at(instrs: &[Instr], index: usize) -> bool
    ensures { result ≡ option_map_or (λ next. calls_with_message next.op) (slice_get instrs.now index) false }
{
    match instrs.get(index) {
        Some(next) => calls_with_message(&next.op),
        None => false,
    }
}

/// Returns whether a clause may have the instruction of this index where it stands.
pub(crate) fn is_pure(instrs: &[Instr], index: usize, instr: &Instr) -> bool
    requires lie { LieInOrder instrs.now }
    requires there { slice_get instrs.now index ≡ Some instr.now }
    ensures { result ≡ is_pure instrs.now instr.now }
{
    is_pure_before(takes_message_at(instrs, index + 1), &instr.op)
}
