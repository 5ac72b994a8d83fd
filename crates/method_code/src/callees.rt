//! The methods that code calls.
//!
//! Callees are told apart by token: two methods of one printed name are two callees, and a fault that names one prints
//! the same text for both.

ghost use Rattle.std.specs.Prelude.{◌≡◌, ◌==◌, IfOk, IfSome, ◌<◌, length, position};
ghost use Rattle.method_code.specs.Called.{called_by_op, callee_key, callees_of};

use crate::call::Call;
use crate::tokens::Tokens;
use cc_base::{NoMemory, Token};
use cil_model::{Instr, Op};
use indexmap::IndexSet;
use std::alloc::Global;
use std::marker::Model;

/// The key of the method that a call calls, where units may have an entry of it.
fn callee_key(call: Call) -> Option<u64>
    ensures { result ≡ callee_key call }
{
    match call {
        Call::Callee(key) => Some(key),
        Call::Contract(_) | Call::Unknown => None,
    }
}

/// The same for an operation.
fn called_by_op<T: Tokens>(tokens: &T, op: &Op) -> Option<u64>
    ensures { result ≡ called_by_op (T.meaning tokens.now) op.now }
{
    match op {
        Op::Call(token) => callee_key(tokens.call(Token(*token))),
        Op::Nop
        | Op::LoadArg(_)
        | Op::StoreArg(_)
        | Op::LoadLocal(_)
        | Op::StoreLocal(_)
        | Op::Null
        | Op::Const(_)
        | Op::Dup
        | Op::Pop
        | Op::Return
        | Op::Branch(_, _)
        | Op::Switch(_)
        | Op::Bin(_)
        | Op::Neg
        | Op::Not
        | Op::ConvI4
        | Op::Text(_)
        | Op::NewArray(_)
        | Op::Length
        | Op::LoadElem(_)
        | Op::StoreElem(_)
        | Op::LoadAddr(_)
        | Op::LoadInd(_)
        | Op::StoreInd(_) => None,
    }
}

/// The methods that code calls, each once, in order of first use. Contracts see their keys.
#[derive(Drop)]
pub struct CalleeSet {
    set: IndexSet<u64>,
}

impl Model for CalleeSet {
    ghost use Rattle.std.specs.Prelude.{List, ℕ};

    ghost Value = { List ℕ };

    ghost view = { λ callees. callees.set.keys };
}

impl CalleeSet {
    /// The methods that the instructions call.
    ///
    /// Cost: each instruction is visited once, and each call looked up once.
    pub fn of<T: Tokens>(alloc: Global, tokens: &T, instrs: &[Instr]) -> Result<CalleeSet, NoMemory>
        ensures { IfOk result (λ callees. callees ≡ callees_of (T.meaning tokens.now) instrs.now) }
    {
        let mut set = IndexSet::new(alloc);
        for instr in instrs {
            if let Some(key) = called_by_op(tokens, &instr.op) {
                set.insert(key)?;
            }
        }
        Ok(CalleeSet { set })
    }

    /// The place of a method among them, by its key.
    pub fn index_of(&self, key: u64) -> Option<usize>
        ensures index { result ≡ position (λ callee. callee == key) self.now }
        ensures within { IfSome result (λ index. index < length self.now) }
    {
        self.set.get_index_of(&key)
    }

    /// Their keys.
    pub fn keys(&self) -> &[u64]
        ensures { result.now ≡ self.now }
    {
        self.set.as_slice()
    }
}
