//! Symbols, expressions and ranges as text.

ghost use Rattle.std.specs.Prelude.{◌≡◌, ◌++◌, OnOk};
ghost use Rattle.invariant_text.specs.NumberTexts.{added_text, expr_text, hole_text, range_text, symbol_text};

use crate::decimals::put_decimal;
use cc_base::put_number;
use domain_api::{Expr, NoMemory};
use interval_domain::Range;
use std::alloc::Global;

/// Appends a symbol: `s1`.
pub(crate) fn put_symbol(out: &mut Vec<u8>, s: u64) -> Result<(), NoMemory>
    ensures { OnOk result (out.new.items ≡ out.old.items ++ symbol_text s) }
{
    out.extend_from_slice(b"s")?;
    put_decimal(out, s)
}

/// Appends what is added to a symbol: ` + 2`, ` - 2`, or nothing.
#[tactic(auto, unfolding(crate::specs::NumberTexts::added_text))]
fn put_added(out: &mut Vec<u8>, k: i64) -> Result<(), NoMemory>
    ensures { OnOk result (out.new.items ≡ out.old.items ++ added_text k) }
{
    if k == 0 {
        return Ok(());
    }
    let sign: &[u8] = if k < 0 { b" - " } else { b" + " };
    out.extend_from_slice(sign)?;
    put_decimal(out, k.unsigned_abs())
}

/// Appends an expression: `s1`, `s1 + 2`, `s1 - 2`, or a number.
#[tactic(auto, unfolding(crate::specs::NumberTexts::expr_text))]
pub(crate) fn put_expr(alloc: Global, out: &mut Vec<u8>, e: Expr) -> Result<(), NoMemory>
    ensures { OnOk result (out.new.items ≡ out.old.items ++ expr_text e) }
{
    if e.sym == 0 {
        return put_number(alloc, out, e.k);
    }
    put_symbol(out, u64::from(e.sym))?;
    put_added(out, e.k)
}

/// Appends the number that a range does not have, if there is one: ` not 5`.
fn put_hole(alloc: Global, out: &mut Vec<u8>, hole: Option<i64>) -> Result<(), NoMemory>
    ensures { OnOk result (out.new.items ≡ out.old.items ++ hole_text hole) }
{
    let Some(hole) = hole else {
        return Ok(());
    };
    out.extend_from_slice(b" not ")?;
    put_number(alloc, out, hole)
}

/// Appends a range: `0..9`, or `0..9 not 5`.
#[tactic(auto, unfolding(crate::specs::NumberTexts::range_text))]
pub(crate) fn put_range(alloc: Global, out: &mut Vec<u8>, range: &Range) -> Result<(), NoMemory>
    ensures { OnOk result (out.new.items ≡ out.old.items ++ range_text range.now) }
{
    put_number(alloc, out, range.lo())?;
    out.extend_from_slice(b"..")?;
    put_number(alloc, out, range.hi())?;
    put_hole(alloc, out, range.hole())
}
