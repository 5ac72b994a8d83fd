//! What may be assumed.

use cil_model::CmpOp;
use domain_api::Expr;

/// What may be assumed of numbers, or of a reference.
#[derive(Clone, Copy)]
pub(crate) enum Test {
    /// The comparison of two numbers holds, or where the flag is false, does not.
    Compares(CmpOp, Expr, Expr, bool),
    /// The reference is null, or where the flag is false, is not.
    IsNull(u32, bool),
}
