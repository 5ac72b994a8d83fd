//! The tests of what a rule asks of its caller. An error is a premise that is not met.

ghost use Rattle.std.specs.Prelude.{◌≡◌, true, OnOk};
ghost use Rattle.std.specs.List.{AllByRecursion};
ghost use Rattle.number_spans.specs.Stored.{IsNarrow};
ghost use Rattle.number_spans.specs.Owed.{Divides, Shifts};

use crate::failure::Failure;
use cil_model::BinOp;
use domain_api::Expr;
use interval_domain::Range;

/// The least int32.
const LEAST: i64 = -2_147_483_648;

/// The greatest int32.
const GREATEST: i64 = 2_147_483_647;

/// Whether the numbers of a range are int32.
fn is_narrow(range: &Range) -> bool
    ensures { result ≡ true → IsNarrow range.now }
{
    let (lo, hi) = (range.lo(), range.hi());
    LEAST <= lo
        && lo <= hi
        && hi <= GREATEST
        && match range.hole() {
            None => true,
            Some(hole) => lo < hole && hole < hi,
        }
}

/// Whether those of each range are.
pub fn are_narrow(ranges: &[Range]) -> bool
    ensures { result ≡ true → AllByRecursion IsNarrow ranges.now }
{
    match ranges {
        [] => true,
        [first, others @ ..] => is_narrow(first) && are_narrow(others),
    }
}

/// Whether the operator may be asked for with this second number.
fn may_be_second(op: BinOp, b: Expr) -> bool
    ensures divides { result ≡ true → Divides op b }
    ensures shifts { result ≡ true → Shifts op b }
{
    match op {
        BinOp::Div | BinOp::DivUn | BinOp::Rem | BinOp::RemUn => b.sym != 0 || b.k != 0,
        BinOp::Shl | BinOp::Shr | BinOp::ShrUn => b.sym != 0 || (0 <= b.k && b.k <= 31),
        _ => true,
    }
}

/// No constant 0 divides, and a constant shifts by one of 0 to 31.
pub fn may_operate(op: BinOp, b: Expr) -> Result<(), Failure>
    ensures divides { OnOk result (Divides op b) }
    ensures shifts { OnOk result (Shifts op b) }
{
    if may_be_second(op, b) {
        Ok(())
    } else {
        Err(Failure::Unmet("no constant 0 divides, and a constant shifts by 0 to 31"))
    }
}
