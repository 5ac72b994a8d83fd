//! The lines of symbols: their ranges, bounds and definitions.

ghost use Rattle.std.specs.Prelude.{◌≡◌, ◌++◌, OnOk};
ghost use Rattle.std.specs.List.{flat_map};
ghost use Rattle.invariant_text.specs.Lines.{numbered};
ghost use Rattle.invariant_text.specs.SymbolLines.{both, bound_line, definition_line, def_text, null_test_text};
ghost use Rattle.invariant_text.specs.SymbolLines.{symbol_line};

use crate::expressions::{put_expr, put_range, put_symbol};
use crate::variables::put_reference;
use domain_api::{Expr, NoMemory};
use interval_domain::Range;
use pentagon_domain::BoundRow;
use std::alloc::Global;
use symbolic_values::Def;

/// Appends the line of a symbol's range.
#[tactic(auto, unfolding(crate::specs::SymbolLines::symbol_line))]
fn put_symbol_line(
    alloc: Global,
    out: &mut Vec<u8>,
    symbol: u64,
    range: &Range,
) -> Result<(), NoMemory>
    ensures { OnOk result (out.new.items ≡ out.old.items ++ symbol_line symbol range.now) }
{
    out.extend_from_slice(b"    ")?;
    put_symbol(out, symbol)?;
    out.extend_from_slice(b" in ")?;
    put_range(alloc, out, range)?;
    out.extend_from_slice(b"\n")
}

/// Appends a line for each symbol's range.
pub(crate) fn put_symbols(
    alloc: Global,
    out: &mut Vec<u8>,
    ranges: &[Range],
) -> Result<(), NoMemory>
    ensures { OnOk result (out.new.items ≡ out.old.items ++ numbered symbol_line 1 ranges.now) }
{
    for (index, range) in ranges.iter().enumerate() {
        put_symbol_line(alloc, out, index as u64 + 1, range)?;
    }
    Ok(())
}

/// Appends the line of a bound.
#[tactic(auto, unfolding(crate::specs::SymbolLines::bound_line))]
fn put_bound_line(alloc: Global, out: &mut Vec<u8>, row: &BoundRow) -> Result<(), NoMemory>
    ensures { OnOk result (out.new.items ≡ out.old.items ++ bound_line row.now) }
{
    out.extend_from_slice(b"    ")?;
    let lower = Expr {
        sym: row.s,
        k: row.k,
    };
    put_expr(alloc, out, lower)?;
    out.extend_from_slice(b" <= ")?;
    put_symbol(out, u64::from(row.t))?;
    out.extend_from_slice(b"\n")
}

/// Appends a line for each bound.
pub(crate) fn put_bounds(
    alloc: Global,
    out: &mut Vec<u8>,
    rows: &[BoundRow],
) -> Result<(), NoMemory>
    ensures { OnOk result (out.new.items ≡ out.old.items ++ flat_map bound_line rows.now) }
{
    for row in rows {
        put_bound_line(alloc, out, row)?;
    }
    Ok(())
}

/// Appends two expressions with an operator between them.
fn put_both(
    alloc: Global,
    out: &mut Vec<u8>,
    a: Expr,
    operator: &[u8],
    b: Expr,
) -> Result<(), NoMemory>
    ensures { OnOk result (out.new.items ≡ out.old.items ++ both a operator.now b) }
{
    put_expr(alloc, out, a)?;
    out.extend_from_slice(operator)?;
    put_expr(alloc, out, b)
}

/// Appends that a reference is null, or is not.
fn put_null_test(out: &mut Vec<u8>, r: u32, is_null: bool) -> Result<(), NoMemory>
    ensures { OnOk result (out.new.items ≡ out.old.items ++ null_test_text r is_null) }
{
    put_reference(out, u64::from(r))?;
    let known: &[u8] = if is_null {
        b" is null"
    } else {
        b" is not null"
    };
    out.extend_from_slice(known)
}

/// Appends what a symbol is.
fn put_def(alloc: Global, out: &mut Vec<u8>, def: Def) -> Result<(), NoMemory>
    ensures { OnOk result (out.new.items ≡ out.old.items ++ def_text def) }
{
    match def {
        Def::Eq(a, b) => put_both(alloc, out, a, b" == ", b),
        Def::Lt(a, b) => put_both(alloc, out, a, b" < ", b),
        Def::LtUn(a, b) => put_both(alloc, out, a, b" <u ", b),
        Def::NullTest(r, is_null) => put_null_test(out, r, is_null),
        Def::Sub(a, b) => put_both(alloc, out, a, b" - ", b),
    }
}

/// Appends the line of a symbol's definition.
#[tactic(auto, unfolding(crate::specs::SymbolLines::definition_line))]
fn put_definition_line(
    alloc: Global,
    out: &mut Vec<u8>,
    definition: &(u32, Def),
) -> Result<(), NoMemory>
    ensures { OnOk result (out.new.items ≡ out.old.items ++ definition_line definition.now) }
{
    out.extend_from_slice(b"    ")?;
    put_symbol(out, u64::from(definition.0))?;
    out.extend_from_slice(b" = ")?;
    put_def(alloc, out, definition.1)?;
    out.extend_from_slice(b"\n")
}

/// Appends a line for each definition.
pub(crate) fn put_definitions(
    alloc: Global,
    out: &mut Vec<u8>,
    definitions: &[(u32, Def)],
) -> Result<(), NoMemory>
    ensures { OnOk result (out.new.items ≡ out.old.items ++ flat_map definition_line definitions.now) }
{
    for definition in definitions {
        put_definition_line(alloc, out, definition)?;
    }
    Ok(())
}
