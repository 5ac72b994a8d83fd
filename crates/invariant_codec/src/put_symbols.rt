//! Variables, bounds, definitions and pairs, written.

ghost use Rattle.std.specs.Prelude.{◌≡◌, ◌++◌, length, OnOk};
ghost use Rattle.std.specs.List.{flat_map};
ghost use Rattle.invariant_codec.specs.Spelling.{counted_bytes, def_bytes, definition_bytes, names_bytes, pair_bytes};
ghost use Rattle.invariant_codec.specs.Spelling.{row_bytes, two_bytes, var_bytes};

use crate::put_numbers::{put_byte, put_expr, put_flag, put_i64, put_u16, put_u32};
use domain_api::{Expr, NoMemory};
use frame_names::Var;
use pentagon_domain::BoundRow;
use symbolic_values::Def;

/// Appends what a variable has, after its tag.
#[tactic(auto, unfolding(crate::specs::Spelling::var_bytes))]
fn put_var(out: &mut Vec<u8>, var: Var) -> Result<(), NoMemory>
    ensures { OnOk result (out.new.items ≡ out.old.items ++ var_bytes var) }
{
    match var {
        Var::Number(e) => {
            put_byte(out, 1)?;
            put_expr(out, e)
        }
        Var::Reference(r) => {
            put_byte(out, 2)?;
            put_u16(out, u64::from(r))
        }
        Var::Text => put_byte(out, 3),
        Var::Address(r, e) => {
            put_byte(out, 4)?;
            put_u16(out, u64::from(r))?;
            put_expr(out, e)
        }
    }
}

/// Appends variables.
fn put_each_var(out: &mut Vec<u8>, variables: &[Var]) -> Result<(), NoMemory>
    ensures { OnOk result (out.new.items ≡ out.old.items ++ flat_map var_bytes variables.now) }
{
    for var in variables {
        put_var(out, *var)?;
    }
    Ok(())
}

/// Appends variables, after their count.
pub(crate) fn put_variables(out: &mut Vec<u8>, variables: &[Var]) -> Result<(), NoMemory>
    ensures { OnOk result (out.new.items ≡ out.old.items ++ counted_bytes 2 var_bytes variables.now) }
{
    put_u16(out, variables.len() as u64)?;
    put_each_var(out, variables)
}

/// Appends the numbers of two symbols or references.
fn put_names(out: &mut Vec<u8>, a: u32, b: u32) -> Result<(), NoMemory>
    ensures { OnOk result (out.new.items ≡ out.old.items ++ names_bytes a b) }
{
    put_u16(out, u64::from(a))?;
    put_u16(out, u64::from(b))
}

/// Appends a bound of two symbols.
#[tactic(auto, unfolding(crate::specs::Spelling::row_bytes))]
fn put_row(out: &mut Vec<u8>, row: BoundRow) -> Result<(), NoMemory>
    ensures { OnOk result (out.new.items ≡ out.old.items ++ row_bytes row) }
{
    put_names(out, row.s, row.t)?;
    put_i64(out, row.k)
}

/// Appends bounds of symbols.
fn put_each_row(out: &mut Vec<u8>, rows: &[BoundRow]) -> Result<(), NoMemory>
    ensures { OnOk result (out.new.items ≡ out.old.items ++ flat_map row_bytes rows.now) }
{
    for row in rows {
        put_row(out, *row)?;
    }
    Ok(())
}

/// Appends bounds of symbols, after their count.
pub(crate) fn put_rows(out: &mut Vec<u8>, rows: &[BoundRow]) -> Result<(), NoMemory>
    ensures { OnOk result (out.new.items ≡ out.old.items ++ counted_bytes 4 row_bytes rows.now) }
{
    put_u32(out, rows.len() as u64)?;
    put_each_row(out, rows)
}

/// Appends two expressions.
fn put_two(out: &mut Vec<u8>, a: Expr, b: Expr) -> Result<(), NoMemory>
    ensures { OnOk result (out.new.items ≡ out.old.items ++ two_bytes a b) }
{
    put_expr(out, a)?;
    put_expr(out, b)
}

/// Appends what a symbol is, after its tag.
#[tactic(auto, unfolding(crate::specs::Spelling::def_bytes))]
fn put_def(out: &mut Vec<u8>, def: Def) -> Result<(), NoMemory>
    ensures { OnOk result (out.new.items ≡ out.old.items ++ def_bytes def) }
{
    match def {
        Def::Eq(a, b) => {
            put_byte(out, 1)?;
            put_two(out, a, b)
        }
        Def::Lt(a, b) => {
            put_byte(out, 2)?;
            put_two(out, a, b)
        }
        Def::LtUn(a, b) => {
            put_byte(out, 3)?;
            put_two(out, a, b)
        }
        Def::NullTest(r, is_null) => {
            put_byte(out, 4)?;
            put_u16(out, u64::from(r))?;
            put_flag(out, is_null)
        }
        Def::Sub(a, b) => {
            put_byte(out, 5)?;
            put_two(out, a, b)
        }
    }
}

/// Appends the definition of a symbol.
#[tactic(auto, unfolding(crate::specs::Spelling::definition_bytes))]
fn put_definition(out: &mut Vec<u8>, definition: (u32, Def)) -> Result<(), NoMemory>
    ensures { OnOk result (out.new.items ≡ out.old.items ++ definition_bytes definition) }
{
    put_u16(out, u64::from(definition.0))?;
    put_def(out, definition.1)
}

/// Appends definitions.
fn put_each_definition(out: &mut Vec<u8>, definitions: &[(u32, Def)]) -> Result<(), NoMemory>
    ensures { OnOk result (out.new.items ≡ out.old.items ++ flat_map definition_bytes definitions.now) }
{
    for definition in definitions {
        put_definition(out, *definition)?;
    }
    Ok(())
}

/// Appends definitions, after their count.
pub(crate) fn put_definitions(out: &mut Vec<u8>, definitions: &[(u32, Def)]) -> Result<(), NoMemory>
    ensures { OnOk result (out.new.items ≡ out.old.items ++ counted_bytes 2 definition_bytes definitions.now) }
{
    put_u16(out, definitions.len() as u64)?;
    put_each_definition(out, definitions)
}

/// Appends two references.
#[tactic(auto, unfolding(crate::specs::Spelling::pair_bytes))]
fn put_pair(out: &mut Vec<u8>, pair: (u32, u32)) -> Result<(), NoMemory>
    ensures { OnOk result (out.new.items ≡ out.old.items ++ pair_bytes pair) }
{
    put_names(out, pair.0, pair.1)
}

/// Appends pairs of references.
fn put_each_pair(out: &mut Vec<u8>, pairs: &[(u32, u32)]) -> Result<(), NoMemory>
    ensures { OnOk result (out.new.items ≡ out.old.items ++ flat_map pair_bytes pairs.now) }
{
    for pair in pairs {
        put_pair(out, *pair)?;
    }
    Ok(())
}

/// Appends pairs of references, after their count.
pub(crate) fn put_pairs(out: &mut Vec<u8>, pairs: &[(u32, u32)]) -> Result<(), NoMemory>
    ensures { OnOk result (out.new.items ≡ out.old.items ++ counted_bytes 4 pair_bytes pairs.now) }
{
    put_u32(out, pairs.len() as u64)?;
    put_each_pair(out, pairs)
}
