//! Instructions as text.

ghost use Rattle.std.specs.Prelude.{◌≡◌, ◌++◌, ◌∷◌, [], OnOk, OnErr, codes};
ghost use Rattle.std.specs.List.{flat_map};
ghost use Rattle.il_decoder.specs.Text.{form_mark, variable_text, constant_text, token_text, branch_text, next_target, switch_text, instr_text};

use crate::label::put_label;
use crate::names::{branch_name, operator_name};
use cc_base::{NoMemory, put_hex, put_number};
use cil_model::{Instr, Op, Place, Test};
use std::alloc::Global;

/// Returns what stands between the name and the operand, by the instruction's size.
fn form_mark(size: u32) -> &'static [u8]
    ensures { result.now ≡ form_mark size }
{
    match size {
        1 => b".",
        2 => b".s ",
        _ => b" ",
    }
}

/// Appends an instruction on an argument or a local.
#[tactic(auto, unfolding(crate::specs::Text::variable_text))]
fn put_variable(
    alloc: Global,
    out: &mut Vec<u8>,
    name: &[u8],
    size: u32,
    n: u16,
) -> Result<(), NoMemory>
    ensures { OnOk result (out.new.items ≡ out.old.items ++ variable_text name.now size n) }
{
    out.extend_from_slice(name)?;
    out.extend_from_slice(form_mark(size))?;
    put_number(alloc, out, i64::from(n))
}

/// Appends a constant.
#[tactic(auto, unfolding(crate::specs::Text::constant_text))]
fn put_constant(alloc: Global, out: &mut Vec<u8>, size: u32, n: i32) -> Result<(), NoMemory>
    ensures { OnOk result (out.new.items ≡ out.old.items ++ constant_text size n) }
{
    out.extend_from_slice(b"ldc.i4")?;
    out.extend_from_slice(form_mark(size))?;
    if size == 1 && n == -1 {
        return out.extend_from_slice(b"m1");
    }
    put_number(alloc, out, i64::from(n))
}

/// Appends an instruction on a token.
#[tactic(auto, unfolding(crate::specs::Text::token_text))]
fn put_token(alloc: Global, out: &mut Vec<u8>, name: &[u8], token: u32) -> Result<(), NoMemory>
    ensures { OnOk result (out.new.items ≡ out.old.items ++ token_text name.now token) }
{
    out.extend_from_slice(name)?;
    out.push(b' ')?;
    put_hex(alloc, out, token, 8)
}

/// Appends a branch.
#[tactic(auto, unfolding(crate::specs::Text::branch_text))]
fn put_branch(
    alloc: Global,
    out: &mut Vec<u8>,
    size: u32,
    test: Test,
    target: u32,
) -> Result<(), NoMemory>
    ensures { OnOk result (out.new.items ≡ out.old.items ++ branch_text size test target) }
{
    out.extend_from_slice(branch_name(test))?;
    out.extend_from_slice(form_mark(size))?;
    put_label(alloc, out, target)
}

/// Appends labels, each after a blank.
fn put_targets(alloc: Global, out: &mut Vec<u8>, targets: &[u32]) -> Result<(), NoMemory>
    ensures { OnOk result (out.new.items ≡ out.old.items ++ flat_map next_target targets.now) }
{
    for target in targets {
        out.push(b' ')?;
        put_label(alloc, out, *target)?;
    }
    Ok(())
}

/// Appends a switch.
#[tactic(auto, unfolding(crate::specs::Text::switch_text))]
fn put_switch(alloc: Global, out: &mut Vec<u8>, targets: &[u32]) -> Result<(), NoMemory>
    ensures { OnOk result (out.new.items ≡ out.old.items ++ switch_text targets.now) }
{
    out.extend_from_slice(b"switch")?;
    put_targets(alloc, out, targets)
}

/// Appends the text of an instruction. Want of memory may leave the prefix of it.
fn put_text(alloc: Global, out: &mut Vec<u8>, instr: &Instr) -> Result<(), NoMemory>
    ensures { OnOk result (out.new.items ≡ out.old.items ++ instr_text instr.now) }
{
    let size = instr.size;
    match &instr.op {
        Op::Nop => out.extend_from_slice(b"nop"),
        Op::LoadArg(n) => put_variable(alloc, out, b"ldarg", size, *n),
        Op::StoreArg(n) => put_variable(alloc, out, b"starg", size, *n),
        Op::LoadLocal(n) => put_variable(alloc, out, b"ldloc", size, *n),
        Op::StoreLocal(n) => put_variable(alloc, out, b"stloc", size, *n),
        Op::Null => out.extend_from_slice(b"ldnull"),
        Op::Const(n) => put_constant(alloc, out, size, *n),
        Op::Dup => out.extend_from_slice(b"dup"),
        Op::Pop => out.extend_from_slice(b"pop"),
        Op::Call(token) => put_token(alloc, out, b"call", *token),
        Op::Return => out.extend_from_slice(b"ret"),
        Op::Branch(test, target) => put_branch(alloc, out, size, *test, *target),
        Op::Switch(targets) => put_switch(alloc, out, targets.as_slice()),
        Op::Bin(operator) => out.extend_from_slice(operator_name(*operator)),
        Op::Neg => out.extend_from_slice(b"neg"),
        Op::Not => out.extend_from_slice(b"not"),
        Op::ConvI4 => out.extend_from_slice(b"conv.i4"),
        Op::Text(token) => put_token(alloc, out, b"ldstr", *token),
        Op::NewArray(token) => put_token(alloc, out, b"newarr", *token),
        Op::Length => out.extend_from_slice(b"ldlen"),
        Op::LoadElem(Place::Bools) => out.extend_from_slice(b"ldelem.u1"),
        Op::LoadElem(_) => out.extend_from_slice(b"ldelem.i4"),
        Op::StoreElem(Place::Bools) => out.extend_from_slice(b"stelem.i1"),
        Op::StoreElem(_) => out.extend_from_slice(b"stelem.i4"),
        Op::LoadAddr(token) => put_token(alloc, out, b"ldelema", *token),
        Op::LoadInd(Place::Bools) => out.extend_from_slice(b"ldind.u1"),
        Op::LoadInd(_) => out.extend_from_slice(b"ldind.i4"),
        Op::StoreInd(Place::Bools) => out.extend_from_slice(b"stind.i1"),
        Op::StoreInd(_) => out.extend_from_slice(b"stind.i4"),
    }
}

/// Appends the text of an instruction, without its IL offset. Numbers are in decimal, tokens are eight digits in
/// base sixteen, and targets are labels. Where memory runs out, nothing is appended.
pub fn il_text(alloc: Global, instr: &Instr, out: &mut Vec<u8>) -> Result<(), NoMemory>
    ensures ok { OnOk result (out.new.items ≡ out.old.items ++ instr_text instr.now) }
    ensures err { OnErr result (out.new.items ≡ out.old.items) }
{
    let mut text = Vec::new(alloc);
    put_text(alloc, &mut text, instr)?;
    out.extend_from_slice(&text)
}
