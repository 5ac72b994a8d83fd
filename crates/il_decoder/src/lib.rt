//! Instructions of CIL: read from a method's code, spelled and printed (ECMA-335 III).
#![tactic(auto)]

mod body;
mod code;
mod fault;
mod instruction;
mod label;
mod names;
mod opcodes;
mod operands;
mod spelling;
mod text;

pub use body::{Body, Header, body_at, header_at};
pub use code::decode;
pub use fault::{IlFault, IlRefusal};
pub use instruction::decode_one;
pub use label::put_label;
pub use spelling::spell;
pub use text::il_text;
