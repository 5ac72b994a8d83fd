//! The lines of variables.

ghost use Rattle.std.specs.Prelude.{◌≡◌, ◌++◌, OnOk};
ghost use Rattle.std.specs.Fmt.{decimal};
ghost use Rattle.invariant_text.specs.Lines.{numbered};
ghost use Rattle.invariant_text.specs.VariableLines.{address_text, reference_text, value_text};
ghost use Rattle.invariant_text.specs.VariableLines.{variable_line, variable_name};

use crate::decimals::put_decimal;
use crate::expressions::put_expr;
use cil_model::Unit;
use domain_api::{Expr, NoMemory};
use frame_names::Var;
use std::alloc::Global;

/// Appends a reference: `null`, or `r1`.
#[tactic(auto, unfolding(crate::specs::VariableLines::reference_text))]
pub(crate) fn put_reference(out: &mut Vec<u8>, r: u64) -> Result<(), NoMemory>
    ensures { OnOk result (out.new.items ≡ out.old.items ++ reference_text r) }
{
    if r == 0 {
        return out.extend_from_slice(b"null");
    }
    out.extend_from_slice(b"r")?;
    put_decimal(out, r)
}

/// Appends the address of the item of an index: `r1[s2 + 1]`.
#[tactic(auto, unfolding(crate::specs::VariableLines::address_text))]
fn put_address(alloc: Global, out: &mut Vec<u8>, r: u64, e: Expr) -> Result<(), NoMemory>
    ensures { OnOk result (out.new.items ≡ out.old.items ++ address_text r e) }
{
    put_reference(out, r)?;
    out.extend_from_slice(b"[")?;
    put_expr(alloc, out, e)?;
    out.extend_from_slice(b"]")
}

/// Appends what a variable has.
fn put_value(alloc: Global, out: &mut Vec<u8>, value: Var) -> Result<(), NoMemory>
    ensures { OnOk result (out.new.items ≡ out.old.items ++ value_text value) }
{
    match value {
        Var::Number(e) => put_expr(alloc, out, e),
        Var::Reference(r) => put_reference(out, u64::from(r)),
        Var::Text => out.extend_from_slice(b"text"),
        Var::Address(r, e) => put_address(alloc, out, u64::from(r), e),
    }
}

/// Appends a word and a number.
fn put_numbered(out: &mut Vec<u8>, word: &[u8], n: usize) -> Result<(), NoMemory>
    ensures { OnOk result (out.new.items ≡ out.old.items ++ (word.now ++ decimal n)) }
{
    out.extend_from_slice(word)?;
    put_decimal(out, n as u64)
}

/// Appends the name of the variable of a list index: `in 0`, `arg 0`, `local 0` or `stack 0`.
#[tactic(auto, unfolding(crate::specs::VariableLines::variable_name))]
fn put_name(out: &mut Vec<u8>, args: usize, locals: usize, index: usize) -> Result<(), NoMemory>
    ensures { OnOk result (out.new.items ≡ out.old.items ++ variable_name args locals index) }
{
    if index < args {
        return put_numbered(out, b"in ", index);
    }
    if index - args < args {
        return put_numbered(out, b"arg ", index - args);
    }
    if index - args - args < locals {
        return put_numbered(out, b"local ", index - args - args);
    }
    put_numbered(out, b"stack ", index - args - args - locals)
}

/// Appends the line of the variable of a list index.
#[tactic(auto, unfolding(crate::specs::VariableLines::variable_line))]
fn put_variable(
    alloc: Global,
    out: &mut Vec<u8>,
    unit: &Unit,
    index: usize,
    value: Var,
) -> Result<(), NoMemory>
    ensures { OnOk result (out.new.items ≡ out.old.items ++ variable_line unit.now index value) }
{
    let args = unit.args.as_slice().len();
    let locals = unit.locals.as_slice().len();
    out.extend_from_slice(b"    ")?;
    put_name(out, args, locals, index)?;
    out.extend_from_slice(b" = ")?;
    put_value(alloc, out, value)?;
    out.extend_from_slice(b"\n")
}

/// Appends a line for each variable.
pub(crate) fn put_variables(
    alloc: Global,
    out: &mut Vec<u8>,
    unit: &Unit,
    variables: &[Var],
) -> Result<(), NoMemory>
    ensures { OnOk result (out.new.items ≡ out.old.items ++ numbered (variable_line unit.now) 0 variables.now) }
{
    for (index, value) in variables.iter().enumerate() {
        put_variable(alloc, out, unit, index, *value)?;
    }
    Ok(())
}
