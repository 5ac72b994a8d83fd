//! Methods, as callers see them.

ghost use Rattle.std.specs.Prelude.{◌≡◌};
ghost use Rattle.asm_image.specs.Bodies.{has_il_body};

use cc_base::Token;
use cil_model::List;
use signature_blobs::MethodSig;

/// A method of an assembly: a row of the table MethodDef (II.22.26).
#[derive(Drop)]
pub struct MethodRow {
    /// The table in the high byte, and the row, counted from 1.
    pub token: Token,
    /// The name as it is printed: namespace, type, method and the types of the parameters.
    pub name: List<u8>,
    /// The column Flags (II.23.1.10).
    pub flags: u16,
    /// The column ImplFlags (II.23.1.11).
    pub impl_flags: u16,
    /// The address of the body, 0 where there is none.
    pub rva: u32,
    /// What the column Signature says (II.23.2.1).
    pub sig: MethodSig,
}

/// The bits of the column Flags that say that a method has no body here.
const ABSTRACT: u16 = 0x0400;

const PINVOKE_IMPL: u16 = 0x2000;

impl MethodRow {
    /// Returns whether the method has a body of IL: an address, and flags that say so (II.23.1.10 and II.23.1.11).
    pub fn has_il_body(&self) -> bool
        ensures { result ≡ has_il_body self.now }
    {
        self.rva != 0
            && self.flags & ABSTRACT == 0
            && self.flags & PINVOKE_IMPL == 0
            && self.impl_flags & 0x3 == 0
    }
}

/// The same without the printed name, which takes memory.
#[derive(Drop)]
pub struct Method {
    /// The table in the high byte, and the row, counted from 1.
    pub token: Token,
    /// The column Flags (II.23.1.10).
    pub flags: u16,
    /// The column ImplFlags (II.23.1.11).
    pub impl_flags: u16,
    /// The address of the body, 0 where there is none.
    pub rva: u32,
    /// What the column Signature says (II.23.2.1).
    pub sig: MethodSig,
}
