//! The stacks of a method's code.

ghost use Rattle.std.specs.Prelude.{◌≡◌, None, reverse, slice_index_or, option_map};

use crate::stack::Stack;
use cc_base::Refusal;
use cil_model::{Kind, TypeFault};
use std::marker::Model;

/// Why code has no kinds: its first fault, or memory ran out.
pub type TypeRefusal = Refusal<TypeFault>;

/// The kinds on the stack before each instruction of a method's code. Contracts see a list with a stack for
/// each instruction, its top first, or none where the instruction is not reached.
#[derive(Drop)]
pub struct Kinds {
    stacks: Vec<Option<Stack>>,
}

impl Model for Kinds {
    ghost use Rattle.std.specs.Prelude.{List, Option};
    ghost use Rattle.cil_model.specs.declared.place.Kind.{Kind};

    ghost Value = { List (Option (List Kind)) };

    ghost view = { λ k. k.stacks.items };
}

impl Kinds {
    pub(crate) fn from_stacks(stacks: Vec<Option<Stack>>) -> Kinds
        ensures { result ≡ stacks.items }
    {
        Kinds { stacks }
    }

    /// The kinds before the instruction of this index, the bottom of the stack first. There are none where the
    /// instruction is not reached, or there is no such instruction.
    pub fn before(&self, i: u32) -> Option<&[Kind]>
        ensures { option_map (λ kinds. reverse kinds.now) result ≡ slice_index_or self.now i None }
    {
        match self.stacks.get(i as usize) {
            Some(Some(stack)) => Some(stack.as_slice()),
            _ => None,
        }
    }
}
