//! The faults that are to be ruled out.

ghost use Rattle.std.specs.Prelude.{◌≡◌};
ghost use Rattle.obligation_prover.specs.EachFault.{EndsInNoOther, RulesOutInTurn};
ghost use Rattle.obligation_prover.specs.Faults as rule;

use cil_model::{BinOp, FaultKind, Op, Unit, UnitCall, unit_call};

/// The faults of an operator, in the order in which the machine tests for them.
fn operator_faults(op: BinOp) -> &'static [FaultKind]
    ensures { result.now ≡ rule.operator_faults op }
{
    match op {
        BinOp::Div | BinOp::Rem => &[FaultKind::DivZero, FaultKind::DivOverflow],
        BinOp::DivUn | BinOp::RemUn => &[FaultKind::DivZero],
        BinOp::Shl | BinOp::Shr | BinOp::ShrUn => &[FaultKind::Shift],
        BinOp::AddOvf | BinOp::MulOvf | BinOp::SubOvf => &[FaultKind::Overflow],
        BinOp::Add
        | BinOp::Sub
        | BinOp::Mul
        | BinOp::And
        | BinOp::Or
        | BinOp::Xor
        | BinOp::Ceq
        | BinOp::Cgt
        | BinOp::CgtUn
        | BinOp::Clt
        | BinOp::CltUn => &[],
    }
}

/// The faults of a call.
fn call_faults(call: Option<UnitCall>) -> &'static [FaultKind]
    ensures { result.now ≡ rule.call_faults call }
{
    match call {
        Some(UnitCall::Assert(_)) => &[FaultKind::Assert],
        Some(
            UnitCall::Requires(_)
            | UnitCall::Ensures(_)
            | UnitCall::Assume(_)
            | UnitCall::EndContractBlock
            | UnitCall::Result(_)
            | UnitCall::OldValue(_)
            | UnitCall::Callee(_),
        )
        | None => &[],
    }
}

/// The faults of an operation.
fn operation_faults(_unit: &Unit, op: &Op) -> &'static [FaultKind]
    ensures { result.now ≡ rule.faults_of _unit.now op.now }
{
    match op {
        Op::Bin(operator) => operator_faults(*operator),
        Op::Call(number) => call_faults(unit_call(*number)),
        Op::NewArray(_) => &[FaultKind::ArraySize],
        Op::Length => &[FaultKind::NullUse],
        Op::LoadElem(_) | Op::StoreElem(_) | Op::LoadAddr(_) => {
            &[FaultKind::NullUse, FaultKind::Lower, FaultKind::Upper]
        }
        Op::Nop
        | Op::LoadArg(_)
        | Op::StoreArg(_)
        | Op::LoadLocal(_)
        | Op::StoreLocal(_)
        | Op::Null
        | Op::Const(_)
        | Op::Dup
        | Op::Pop
        | Op::Return
        | Op::Branch(_, _)
        | Op::Switch(_)
        | Op::Neg
        | Op::Not
        | Op::ConvI4
        | Op::Text(_)
        | Op::LoadInd(_)
        | Op::StoreInd(_) => &[],
    }
}

/// The faults in which an instruction of the unit with this operation may end, in the order in which the machine tests
/// for them. Those of clauses are not told of.
///
/// Cost: constant.
pub fn faults_of(unit: &Unit, op: &Op) -> &'static [FaultKind]
    ensures value { result.now ≡ rule.faults_of unit.now op.now }
    // No instruction of the unit with the operation ends in another fault.
    ensures complete { EndsInNoOther unit.now op.now result.now }
    // Where a state rules each of them out in turn, no instruction of the unit with the operation ends in a fault.
    ensures safe { RulesOutInTurn unit.now op.now result.now }
{
    operation_faults(unit, op)
}
