//! Constants of expressions.

ghost use Rattle.std.specs.Prelude.{◌≡◌};
ghost use Rattle.std.specs.List.{list_all};
ghost use Rattle.frame_names.specs.PairedFrames.{is_near};

use domain_api::Expr;

/// The farthest that the constant of a variable or a length may lie from 0.
const FARTHEST: i64 = 4_294_967_296;

/// Returns whether the constant is one of -2^32 to 2^32.
fn is_near(e: Expr) -> bool
    ensures { result ≡ is_near e }
{
    -FARTHEST <= e.k && e.k <= FARTHEST
}

/// Returns whether all constants are.
pub(crate) fn are_near(exprs: &[Expr]) -> bool
    ensures { result ≡ list_all is_near exprs.now }
{
    exprs.iter().all(|e| is_near(*e))
}
