//! The lines of bounds.

ghost use Rattle.std.specs.Prelude.{◌≡◌, option_map};
ghost use Rattle.invariant_reader.specs.Bounds.{at_most, read_bound_line};

use crate::digits::read_short;
use crate::expressions::read_expr;
use crate::prefixes::behind;
use domain_api::Expr;
use pentagon_domain::BoundRow;

/// The bound that says that an expression is at most a symbol.
fn at_most(lower: Expr, t: u32) -> BoundRow
    ensures { result ≡ at_most lower t }
{
    BoundRow {
        s: lower.sym,
        t,
        k: lower.k,
    }
}

/// The line of a bound at the start of a text, and the text behind it.
#[tactic(auto, unfolding(crate::specs::Bounds::read_bound_line))]
pub(crate) fn read_bound_line(text: &[u8]) -> Option<(BoundRow, &[u8])>
    ensures { option_map (λ read. (read.0, read.1.now)) result ≡ read_bound_line text.now }
{
    let (lower, upper) = read_expr(behind(text, b"    ")?)?;
    let (t, end) = read_short(behind(upper, b" <= s")?)?;
    Some((at_most(lower, t), behind(end, b"\n")?))
}
