//! The names of operators and branches.

ghost use Rattle.std.specs.Prelude.{◌≡◌};
ghost use Rattle.il_decoder.specs.Names.{operator_name, comparison_name, branch_name};

use cil_model::{BinOp, CmpOp, Test};

/// The name of an operator of two numbers.
pub fn operator_name(operator: BinOp) -> &'static [u8]
    ensures { result.now ≡ operator_name operator }
{
    match operator {
        BinOp::Add => b"add",
        BinOp::Sub => b"sub",
        BinOp::Mul => b"mul",
        BinOp::Div => b"div",
        BinOp::DivUn => b"div.un",
        BinOp::Rem => b"rem",
        BinOp::RemUn => b"rem.un",
        BinOp::And => b"and",
        BinOp::Or => b"or",
        BinOp::Xor => b"xor",
        BinOp::Shl => b"shl",
        BinOp::Shr => b"shr",
        BinOp::ShrUn => b"shr.un",
        BinOp::AddOvf => b"add.ovf",
        BinOp::MulOvf => b"mul.ovf",
        BinOp::SubOvf => b"sub.ovf",
        BinOp::Ceq => b"ceq",
        BinOp::Cgt => b"cgt",
        BinOp::CgtUn => b"cgt.un",
        BinOp::Clt => b"clt",
        BinOp::CltUn => b"clt.un",
    }
}

/// The name of a branch that compares two values.
fn comparison_name(comparison: CmpOp) -> &'static [u8]
    ensures { result.now ≡ comparison_name comparison }
{
    match comparison {
        CmpOp::Eq => b"beq",
        CmpOp::Ge => b"bge",
        CmpOp::Gt => b"bgt",
        CmpOp::Le => b"ble",
        CmpOp::Lt => b"blt",
        CmpOp::NeUn => b"bne.un",
        CmpOp::GeUn => b"bge.un",
        CmpOp::GtUn => b"bgt.un",
        CmpOp::LeUn => b"ble.un",
        CmpOp::LtUn => b"blt.un",
    }
}

/// The name of a branch, but for its form.
pub fn branch_name(test: Test) -> &'static [u8]
    ensures { result.now ≡ branch_name test }
{
    match test {
        Test::Always => b"br",
        Test::True => b"brtrue",
        Test::False => b"brfalse",
        Test::Cmp(comparison) => comparison_name(comparison),
    }
}
