//! Numbers in place of tokens.

ghost use Rattle.std.specs.Prelude.{◌≡◌, ◌+◌, ◌<◌, ◌^◌, length, map, IfOk};
ghost use Rattle.cc_base.specs.Slices.{IsShort};
ghost use Rattle.cc_base.specs.Tests.{first_of, JudgesOrNoMemory};
ghost use Rattle.il_decoder.specs.Decoding.{code_tests, instructions_of};
ghost use Rattle.method_code.specs.Called.{callees_of};
ghost use Rattle.method_code.specs.Numbering.{array_number, call_number, numbered, numbered_instr, numbered_op};
ghost use Rattle.method_code.specs.Reading.{AreDecodedAs};

use crate::call::Call;
use crate::callees::CalleeSet;
use crate::tokens::Tokens;
use cc_base::Token;
use cil_model::{Instr, Op, Place};
use il_decoder::{IlRefusal, decode};
use std::alloc::Global;

/// Instructions with numbers in place of tokens, and the methods that they call.
#[derive(Drop)]
pub struct NumberedCode {
    pub instrs: Vec<Instr>,
    pub callees: CalleeSet,
}

/// The number of the first callee.
const FIRST_CALLEE: u32 = 100;

/// The number of a call, 0 where it calls nothing that units know.
fn call_number(callees: &CalleeSet, call: Call) -> u32
    requires few { length callees.now + 100 < 2 ^ 32 }
    ensures { result ≡ call_number callees.now call }
{
    match call {
        Call::Contract(number) => number,
        Call::Callee(key) => match callees.index_of(key) {
            Some(index) => FIRST_CALLEE + index as u32,
            None => 0,
        },
        Call::Unknown => 0,
    }
}

/// The number of arrays of such elements, 0 where units know none.
fn array_number(element: Option<Place>) -> u32
    ensures { result ≡ array_number element }
{
    match element {
        Some(Place::Bool) => 1,
        Some(Place::Int) => 2,
        Some(Place::Void | Place::Bools | Place::Ints) | None => 0,
    }
}

/// Puts a number in the place of the operation's token, if it has one.
fn number_op<T: Tokens>(tokens: &T, callees: &CalleeSet, op: &mut Op)
    requires few { length callees.now + 100 < 2 ^ 32 }
    ensures { op.new ≡ numbered_op (T.meaning tokens.now) callees.now op.old }
{
    match op {
        Op::Call(token) => *token = call_number(callees, tokens.call(Token(*token))),
        Op::NewArray(token) => *token = array_number(tokens.element(Token(*token))),
        Op::LoadAddr(token) => *token = array_number(tokens.element(Token(*token))),
        Op::Text(token) => *token = 0,
        Op::Nop
        | Op::LoadArg(_)
        | Op::StoreArg(_)
        | Op::LoadLocal(_)
        | Op::StoreLocal(_)
        | Op::Null
        | Op::Const(_)
        | Op::Dup
        | Op::Pop
        | Op::Return
        | Op::Branch(_, _)
        | Op::Switch(_)
        | Op::Bin(_)
        | Op::Neg
        | Op::Not
        | Op::ConvI4
        | Op::Length
        | Op::LoadElem(_)
        | Op::StoreElem(_)
        | Op::LoadInd(_)
        | Op::StoreInd(_) => {}
    }
}

/// Puts numbers in the place of all tokens.
///
/// Cost: each instruction is visited once, and each token looked up once.
fn number_code<T: Tokens>(tokens: &T, callees: &CalleeSet, instrs: &mut Vec<Instr>)
    requires few { length callees.now + 100 < 2 ^ 32 }
    ensures { instrs.new.items ≡ map (numbered_instr (T.meaning tokens.now) callees.now) instrs.old.items }
{
    for instr in instrs.iter_mut() {
        number_op(tokens, callees, &mut instr.op);
    }
}

/// The instructions of code, with numbers in place of tokens, and the methods that they call; or the first fault of the
/// code.
pub fn decode_numbered<T: Tokens>(
    alloc: Global,
    tokens: &T,
    code: &[u8],
) -> Result<NumberedCode, IlRefusal>
    requires short { IsShort code.now }
    ensures judged { JudgesOrNoMemory result (first_of (code_tests code.now))
        (λ read. read.instrs.items ≡ numbered (T.meaning tokens.now) (instructions_of code.now)) }
    ensures callees { IfOk result (λ read.
        read.callees ≡ callees_of (T.meaning tokens.now) (instructions_of code.now)) }
    ensures decoded { IfOk result (λ read. AreDecodedAs code.now read.instrs.items) }
{
    let mut instrs = decode(alloc, code)?;
    let callees = CalleeSet::of(alloc, tokens, &instrs)?;
    number_code(tokens, &callees, &mut instrs);
    Ok(NumberedCode { instrs, callees })
}
