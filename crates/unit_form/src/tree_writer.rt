//! Trees, written as they stand in a unit file of the second or the third form.

ghost use Rattle.std.specs.Prelude.{◌≡◌, ◌<◌, ◌++◌, OnOk};
ghost use Rattle.unit_form.specs.Roots.{told};
ghost use Rattle.unit_form.specs.TreeSpelling.{operator_byte, root_bytes, tree_bytes, unary_byte};
ghost use Rattle.unit_form.specs.declared.form.UnitForm.TheVariants.{Second};

use crate::root::Root;
use cil_model::{BinOp, Node, Tree, UnOp};
use std::alloc::AllocError;

/// The byte of an operator.
fn operator_byte(operator: BinOp) -> u8
    ensures { result ≡ operator_byte operator }
{
    match operator {
        BinOp::Add => 0x58,
        BinOp::Sub => 0x59,
        BinOp::Mul => 0x5a,
        BinOp::Div => 0x5b,
        BinOp::DivUn => 0x5c,
        BinOp::Rem => 0x5d,
        BinOp::RemUn => 0x5e,
        BinOp::And => 0x5f,
        BinOp::Or => 0x60,
        BinOp::Xor => 0x61,
        BinOp::Shl => 0x62,
        BinOp::Shr => 0x63,
        BinOp::ShrUn => 0x64,
        BinOp::AddOvf => 0xd6,
        BinOp::MulOvf => 0xd8,
        BinOp::SubOvf => 0xda,
        BinOp::Ceq => 0xc1,
        BinOp::Cgt => 0xc2,
        BinOp::CgtUn => 0xc3,
        BinOp::Clt => 0xc4,
        BinOp::CltUn => 0xc5,
    }
}

/// The byte of an operator of one number.
fn unary_byte(operator: UnOp) -> u8
    ensures { result ≡ unary_byte operator }
{
    match operator {
        UnOp::Neg => 0x65,
        UnOp::Not => 0x66,
    }
}

/// Appends the constant after its tag.
fn append_constant(out: &mut Vec<u8>, n: i32) -> Result<(), AllocError>
    ensures { OnOk result (out.new.items ≡ out.old.items ++ root_bytes Second (told (Root.Const n))) }
{
    out.extend_from_slice(&[1])?;
    out.extend_from_slice(&n.cast_unsigned().to_le_bytes())?;
    Ok(())
}

/// Appends an argument after its tag.
fn append_argument(out: &mut Vec<u8>, n: u16) -> Result<(), AllocError>
    ensures { OnOk result (out.new.items ≡ out.old.items ++ root_bytes Second (told (Root.Arg n))) }
{
    out.extend_from_slice(&[2])?;
    out.extend_from_slice(&n.to_le_bytes())?;
    Ok(())
}

/// Appends a root.
fn append_root(out: &mut Vec<u8>, root: Root) -> Result<(), AllocError>
    ensures { OnOk result (out.new.items ≡ out.old.items ++ root_bytes Second (told root)) }
{
    match root {
        Root::Const(n) => append_constant(out, n),
        Root::Arg(n) => append_argument(out, n),
        Root::Null => out.extend_from_slice(&[3]),
        Root::Result => out.extend_from_slice(&[4]),
        Root::Len => out.extend_from_slice(&[5]),
        Root::Elem(place) => out.extend_from_slice(&[6, place.number()]),
        Root::Bin(operator) => out.extend_from_slice(&[7, operator_byte(operator)]),
        Root::Un(operator) => out.extend_from_slice(&[8, unary_byte(operator)]),
        Root::Old => out.extend_from_slice(&[9]),
        Root::Cond => out.extend_from_slice(&[10]),
    }
}

/// Appends a tree: its root, and then the trees below it in order.
#[tactic(auto, using(crate::proofs::TreesWritten::writing))]
pub fn append_tree(out: &mut Vec<u8>, tree: &Tree) -> Result<(), AllocError>
    ensures { OnOk result (out.new.items ≡ out.old.items ++ tree_bytes Second tree.now) }
{
    match &tree.node {
        Node::Const(n) => append_root(out, Root::Const(*n)),
        Node::Arg(n) => append_root(out, Root::Arg(*n)),
        Node::Null => append_root(out, Root::Null),
        Node::Result => append_root(out, Root::Result),
        Node::Len(array) => {
            append_root(out, Root::Len)?;
            append_tree(out, array)
        }
        Node::Elem(place, array, index) => {
            append_root(out, Root::Elem(*place))?;
            append_tree(out, array)?;
            append_tree(out, index)
        }
        Node::Bin(operator, a, b) => {
            append_root(out, Root::Bin(*operator))?;
            append_tree(out, a)?;
            append_tree(out, b)
        }
        Node::Un(operator, operand) => {
            append_root(out, Root::Un(*operator))?;
            append_tree(out, operand)
        }
        Node::Old(operand) => {
            append_root(out, Root::Old)?;
            append_tree(out, operand)
        }
        Node::Cond(test, a, b) => {
            append_root(out, Root::Cond)?;
            append_tree(out, test)?;
            append_tree(out, a)?;
            append_tree(out, b)
        }
    }
}
