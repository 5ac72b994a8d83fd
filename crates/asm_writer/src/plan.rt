//! What is to be written, and why it is not.

ghost use Rattle.std.specs.Prelude.{◌≡◌};
ghost use Rattle.asm_writer.specs.declared.plan.WriteRefusal.TheVariants.{NoMemory};

use cil_model::Place;
use std::alloc::AllocError;

/// An assembly of one class. That its names read back, none of them has a zero byte.
#[derive(Drop)]
pub struct AsmPlan {
    /// The namespace of the class, in UTF-8. It may be empty.
    pub namespace: Vec<u8>,
    /// The name of the class and of the assembly, in UTF-8.
    pub class: Vec<u8>,
    /// True where the file is PE32+, for x64, in place of PE32.
    pub wide: bool,
    /// The methods of the class, in the order of their rows.
    pub methods: Vec<MethodPlan>,
}

/// A method. That its signatures read back, none of its arguments and locals is `Void`.
#[derive(Drop)]
pub struct MethodPlan {
    /// The name, in UTF-8.
    pub name: Vec<u8>,
    /// True where it has no `this`.
    pub is_static: bool,
    /// What it returns.
    pub result: Place,
    /// Its arguments, without `this`.
    pub args: Vec<Place>,
    /// Its local variables.
    pub locals: Vec<Place>,
    /// The number of stack slots that its body has.
    pub max_stack: u16,
    /// The bytes of its instructions, with the tokens of the file that is written.
    pub code: Vec<u8>,
}

/// A static method of another assembly, which code may call. That it reads back, none of its names has a zero byte, and
/// none of its arguments is `Void`.
#[derive(Drop)]
pub struct Extern {
    /// The name of the assembly, in UTF-8, as are the other names.
    pub assembly: Vec<u8>,
    /// The namespace of the class. It may be empty.
    pub namespace: Vec<u8>,
    /// The name of the class.
    pub class: Vec<u8>,
    /// The name of the method.
    pub name: Vec<u8>,
    /// What it returns.
    pub result: Place,
    /// Its arguments.
    pub args: Vec<Place>,
}

/// Why nothing was written.
#[derive(Clone, Copy, Debug, PartialEq, Eq)]
pub enum WriteRefusal {
    /// The file or a method would pass a limit.
    TooLarge,
    /// Memory ran out.
    NoMemory,
}

impl From<AllocError> for WriteRefusal {
    ghost from_gives = { λ _ e. e ≡ NoMemory };

    fn from(_e: AllocError) -> WriteRefusal {
        WriteRefusal::NoMemory
    }
}
