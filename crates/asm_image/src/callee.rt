//! What calls name.

use crate::contract_op::ContractOp;
use cc_base::Token;

/// What the token of a call names (ECMA-335 III.3.19).
#[derive(Clone, Copy, Debug, PartialEq, Eq)]
pub enum Callee {
    /// A method of the assembly: a row of the table MethodDef.
    Method(Token),
    /// A method of the class `Contract`.
    ContractCall(ContractOp),
    /// Anything else, or nothing.
    Outside,
}
