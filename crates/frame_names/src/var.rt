//! What a variable has.

ghost use Rattle.std.specs.Prelude.{◌≡◌};
ghost use Rattle.frame_names.specs.Frames.{number_in, reference_in};

use domain_api::Expr;

/// What a variable is known to have.
#[derive(Clone, Copy, Debug, PartialEq, Eq)]
pub enum Var {
    /// A number.
    Number(Expr),
    /// The reference of this number. Reference 0 is null.
    Reference(u32),
    /// A text.
    Text,
    /// The address of an item: in the array that this reference is, of this index. An address is in no array where its
    /// reference is null.
    Address(u32, Expr),
}

impl Var {
    /// The number, if it has one. That of an address is its index.
    pub(crate) fn number(self) -> Option<Expr>
        ensures { result ≡ number_in self }
    {
        match self {
            Var::Number(e) | Var::Address(_, e) => Some(e),
            Var::Reference(_) | Var::Text => None,
        }
    }

    /// The reference, if it has one. That of an address is that of its array.
    pub(crate) fn reference(self) -> Option<u32>
        ensures { result ≡ reference_in self }
    {
        match self {
            Var::Reference(r) | Var::Address(r, _) => Some(r),
            Var::Number(_) | Var::Text => None,
        }
    }
}
