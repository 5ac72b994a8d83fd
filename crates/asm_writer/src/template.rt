//! The kinds of methods that are generated.

ghost use Rattle.std.specs.Prelude.{◌≡◌, ◌++◌, ◌≤◌, ◌<◌, ◌^◌, length, OnOk};
ghost use Rattle.asm_writer.specs.Templates.{template_of, result_of, args_of, locals_of, code_of, constant_code, sum_code, sum_prefix, div_code, array_sum_code, fill_code, bad_code};

use cil_model::Place;
use std::alloc::AllocError;

/// What a method that is generated does.
#[derive(Clone, Copy)]
pub enum Template {
    /// Asserts that a constant equals itself.
    Constant,
    /// Divides by a number that is required not to be 0.
    Div,
    /// Adds up an array.
    ArraySum,
    /// Fills an array, and asserts what stands in it.
    Fill,
    /// Calls itself.
    Sum,
    /// Has an opcode that is not analysed.
    Bad,
}

const DIV: &[u8] = &[
    0x03, 0x16, 0xfe, 0x03, 0x28, 0x01, 0x00, 0x00, 0x0a, 0x02, 0x03, 0x5b, 0x2a,
];

const ARRAY_SUM: &[u8] = &[
    0x02, 0x14, 0xfe, 0x03, 0x28, 0x01, 0x00, 0x00, 0x0a, 0x16, 0x0a, 0x16, 0x0b, 0x2b, 0x0a, 0x06,
    0x02, 0x07, 0x94, 0x58, 0x0a, 0x07, 0x17, 0x58, 0x0b, 0x07, 0x02, 0x8e, 0x69, 0x32, 0xf0, 0x06,
    0x2a,
];

const FILL: &[u8] = &[
    0x02, 0x14, 0xfe, 0x03, 0x28, 0x01, 0x00, 0x00, 0x0a, 0x03, 0x16, 0xfe, 0x04, 0x16, 0xfe, 0x01,
    0x28, 0x01, 0x00, 0x00, 0x0a, 0x03, 0x02, 0x8e, 0x69, 0xfe, 0x04, 0x28, 0x01, 0x00, 0x00, 0x0a,
    0x16, 0x0a, 0x2b, 0x08, 0x02, 0x06, 0x16, 0x9e, 0x06, 0x17, 0x58, 0x0a, 0x06, 0x02, 0x8e, 0x69,
    0x32, 0xf2, 0x02, 0x03, 0x94, 0x16, 0xfe, 0x01, 0x28, 0x05, 0x00, 0x00, 0x0a, 0x2a,
];

/// What stands before the token in a method that calls itself.
const SUM_FRONT: &[u8] = &[
    0x02, 0x16, 0xfe, 0x04, 0x16, 0xfe, 0x01, 0x28, 0x01, 0x00, 0x00, 0x0a, 0x02, 0x2d, 0x02, 0x16,
    0x2a, 0x02, 0x02, 0x17, 0x59, 0x28,
];

const BAD: &[u8] = &[0x7e, 0x01, 0x00, 0x00, 0x04, 0x2a];

/// Appends the code that asserts that a constant equals itself.
#[tactic(auto, unfolding(crate::specs::Templates::constant_code))]
fn append_constant_code(out: &mut Vec<u8>, constant: u32) -> Result<(), AllocError>
    ensures { OnOk result (out.new.items ≡ out.old.items ++ constant_code constant) }
{
    out.push(0x20)?;
    out.extend_from_slice(&constant.to_le_bytes())?;
    out.push(0x20)?;
    out.extend_from_slice(&constant.to_le_bytes())?;
    out.extend_from_slice(&[0xfe, 0x01, 0x28, 0x05, 0x00, 0x00, 0x0a, 0x02, 0x2a])
}

/// Appends the code that calls the method of this token.
#[tactic(auto, unfolding(crate::specs::Templates::sum_code))]
fn append_sum_code(out: &mut Vec<u8>, token: u64) -> Result<(), AllocError>
    ensures { OnOk result (out.new.items ≡ out.old.items ++ sum_code token) }
{
    out.extend_from_slice(SUM_FRONT)?;
    out.extend_from_slice(&token.to_le_bytes()[..4])?;
    out.extend_from_slice(&[0x58, 0x2a])
}

/// The code that divides.
#[tactic(auto, unfolding(crate::specs::Templates::div_code))]
fn div_code() -> &'static [u8]
    ensures { result.now ≡ div_code }
{
    DIV
}

/// The code that adds up an array.
#[tactic(auto, unfolding(crate::specs::Templates::array_sum_code))]
fn array_sum_code() -> &'static [u8]
    ensures { result.now ≡ array_sum_code }
{
    ARRAY_SUM
}

/// The code that fills an array.
#[tactic(auto, unfolding(crate::specs::Templates::fill_code))]
fn fill_code() -> &'static [u8]
    ensures { result.now ≡ fill_code }
{
    FILL
}

/// The code that is not analysed.
#[tactic(auto, unfolding(crate::specs::Templates::bad_code))]
fn bad_code() -> &'static [u8]
    ensures { result.now ≡ bad_code }
{
    BAD
}

impl Template {
    /// The template of the method of this index.
    pub fn of(index: u32) -> Template
        ensures { result ≡ template_of index }
    {
        match index % 6 {
            0 => Template::Constant,
            1 => Template::Div,
            2 => Template::ArraySum,
            3 => Template::Fill,
            4 => Template::Sum,
            _ => Template::Bad,
        }
    }

    /// What the method returns.
    pub fn result(self) -> Place
        ensures { result ≡ result_of self }
    {
        match self {
            Template::Fill => Place::Void,
            _ => Place::Int,
        }
    }

    /// Its arguments.
    pub fn args(self) -> &'static [Place]
        ensures { result.now ≡ args_of self }
    {
        match self {
            Template::Constant | Template::Sum => &[Place::Int],
            Template::Div => &[Place::Int, Place::Int],
            Template::ArraySum => &[Place::Ints],
            Template::Fill => &[Place::Ints, Place::Int],
            Template::Bad => &[],
        }
    }

    /// Its local variables.
    pub fn locals(self) -> &'static [Place]
        ensures { result.now ≡ locals_of self }
    {
        match self {
            Template::ArraySum => &[Place::Int, Place::Int],
            Template::Fill => &[Place::Int],
            _ => &[],
        }
    }

    /// Appends its code, with this constant, in the method of this token.
    pub fn append_code(self, out: &mut Vec<u8>, constant: u32, token: u64) -> Result<(), AllocError>
        ensures { OnOk result (out.new.items ≡ out.old.items ++ code_of self constant token) }
    {
        match self {
            Template::Constant => append_constant_code(out, constant),
            Template::Div => out.extend_from_slice(div_code()),
            Template::ArraySum => out.extend_from_slice(array_sum_code()),
            Template::Fill => out.extend_from_slice(fill_code()),
            Template::Sum => append_sum_code(out, token),
            Template::Bad => out.extend_from_slice(bad_code()),
        }
    }
}
