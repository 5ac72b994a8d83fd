//! Conditions of operands.

ghost use Rattle.std.specs.Prelude.{◌≡◌};
ghost use Rattle.state_obligations.specs.Conditions as rule;

use cil_model::{BinOp, FaultKind};
use domain_api::Expr;

/// What has to be so of operands, or else an operation ends in the fault of the same name.
#[derive(Clone, Copy, Debug, PartialEq, Eq)]
pub enum Condition {
    /// The reference is not null.
    NullUse(u32),
    /// The index is not below 0.
    Lower(Expr),
    /// The index is below the length of the reference.
    Upper(u32, Expr),
    /// The length of a new array is not below 0.
    ArraySize(Expr),
    /// The amount of a shift is one of 0 to 31.
    Shift(Expr),
    /// The divisor is not 0.
    DivZero(Expr),
    /// The dividend is not the least int32, or the divisor is not -1.
    DivOverflow(Expr, Expr),
    /// The exact result of the operator is an int32.
    Overflow(BinOp, Expr, Expr),
    /// The number is not 0.
    Assert(Expr),
}

impl Condition {
    /// The fault that comes where it is not met.
    pub fn fault(self) -> FaultKind
        ensures { result ≡ rule.fault_of self }
    {
        match self {
            Condition::NullUse(_) => FaultKind::NullUse,
            Condition::Lower(_) => FaultKind::Lower,
            Condition::Upper(..) => FaultKind::Upper,
            Condition::ArraySize(_) => FaultKind::ArraySize,
            Condition::Shift(_) => FaultKind::Shift,
            Condition::DivZero(_) => FaultKind::DivZero,
            Condition::DivOverflow(..) => FaultKind::DivOverflow,
            Condition::Overflow(..) => FaultKind::Overflow,
            Condition::Assert(_) => FaultKind::Assert,
        }
    }
}

/// An operation that may end in faults, with its operands.
#[derive(Clone, Copy, Debug, PartialEq, Eq)]
pub enum Operation {
    /// The length of a reference.
    Length(u32),
    /// An item of a reference at an index: it is loaded or stored, or its address is taken.
    Element(u32, Expr),
    /// A new array of this length.
    NewArray(Expr),
    /// An operator of two numbers.
    Binary(BinOp, Expr, Expr),
    /// The assertion of a number.
    Assert(Expr),
}

/// The condition that an operator has for a fault, if it has one.
fn operator_condition(fault: FaultKind, op: BinOp, a: Expr, b: Expr) -> Option<Condition>
    ensures { result ≡ rule.with_fault fault (rule.operator_conditions op a b) }
{
    match (op, fault) {
        (BinOp::Div | BinOp::Rem | BinOp::DivUn | BinOp::RemUn, FaultKind::DivZero) => {
            Some(Condition::DivZero(b))
        }
        (BinOp::Div | BinOp::Rem, FaultKind::DivOverflow) => Some(Condition::DivOverflow(a, b)),
        (BinOp::Shl | BinOp::Shr | BinOp::ShrUn, FaultKind::Shift) => Some(Condition::Shift(b)),
        (BinOp::AddOvf | BinOp::MulOvf | BinOp::SubOvf, FaultKind::Overflow) => {
            Some(Condition::Overflow(op, a, b))
        }
        _ => None,
    }
}

impl Operation {
    /// The condition that it has for a fault, if it has one.
    pub fn condition(self, fault: FaultKind) -> Option<Condition>
        ensures { result ≡ rule.with_fault fault (rule.conditions_of self) }
    {
        match (self, fault) {
            (Operation::Length(r) | Operation::Element(r, _), FaultKind::NullUse) => {
                Some(Condition::NullUse(r))
            }
            (Operation::Element(_, i), FaultKind::Lower) => Some(Condition::Lower(i)),
            (Operation::Element(r, i), FaultKind::Upper) => Some(Condition::Upper(r, i)),
            (Operation::NewArray(n), FaultKind::ArraySize) => Some(Condition::ArraySize(n)),
            (Operation::Binary(op, a, b), _) => operator_condition(fault, op, a, b),
            (Operation::Assert(e), FaultKind::Assert) => Some(Condition::Assert(e)),
            _ => None,
        }
    }
}
