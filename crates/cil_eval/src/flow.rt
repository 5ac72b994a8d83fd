//! Where an operation leads.

ghost use Rattle.std.specs.Prelude.{◌≡◌};
ghost use Rattle.cil_eval.specs.Flows.{flow_of};

use cil_model::{Op, UnitCall, unit_call};

/// Where an operation leads.
#[derive(Clone, Copy, Debug, PartialEq, Eq)]
pub(crate) enum Flow {
    /// To the caller.
    Back,
    /// To the callee of this number.
    Into(u32),
    /// To the same frame.
    Stays,
}

/// Where an operation leads.
pub(crate) fn flow_of(op: &Op) -> Flow
    ensures { result ≡ flow_of op.now }
{
    match op {
        Op::Return => Flow::Back,
        Op::Call(number) => match unit_call(*number) {
            Some(UnitCall::Callee(callee)) => Flow::Into(callee),
            Some(
                UnitCall::Requires(_)
                | UnitCall::Ensures(_)
                | UnitCall::Assert(_)
                | UnitCall::Assume(_)
                | UnitCall::EndContractBlock
                | UnitCall::Result(_)
                | UnitCall::OldValue(_),
            )
            | None => Flow::Stays,
        },
        Op::Nop
        | Op::LoadArg(_)
        | Op::StoreArg(_)
        | Op::LoadLocal(_)
        | Op::StoreLocal(_)
        | Op::Null
        | Op::Const(_)
        | Op::Dup
        | Op::Pop
        | Op::Branch(..)
        | Op::Switch(_)
        | Op::Bin(_)
        | Op::Neg
        | Op::Not
        | Op::ConvI4
        | Op::Text(_)
        | Op::NewArray(_)
        | Op::Length
        | Op::LoadElem(_)
        | Op::StoreElem(_)
        | Op::LoadAddr(_)
        | Op::LoadInd(_)
        | Op::StoreInd(_) => Flow::Stays,
    }
}
