//! Why a method is not analysed.

ghost use Rattle.std.specs.Prelude.{◌≡◌};
ghost use Rattle.cc_base.specs.declared.refusal.Refusal.TheVariants.{Bad};

use cc_base::Refusal;
use cil_model::TypeFault;
use clause_faults::ClauseFault;
use il_decoder::IlFault;

/// The reasons why a method is not analysed. Where several hold, the first is reported.
#[derive(Clone, Copy, Debug, PartialEq, Eq)]
pub enum Reason {
    /// It is not static, or it has a `this`.
    Instance,
    /// It has type parameters.
    Generic,
    /// It has no body of IL here.
    NoBody,
    /// A type in its signature is outside the profile.
    SignatureType,
    /// The signature of its locals does not read, or a type in it is outside the profile.
    LocalType,
    /// It has locals that are not 0 or null at first.
    LocalsNotZero,
    /// Tables of exceptions follow its code.
    Section,
    /// It passes a limit: on the bytes of its code, on variables, on the length of its name or of a callee's, on
    /// instructions or on blocks.
    TooLarge,
    /// Its body or its code does not read.
    Code(IlFault),
    /// Its clauses do not read.
    Clauses(ClauseFault),
    /// At this IL offset something is called that no unit knows, or an array of other elements is made, or the address
    /// of such an element taken.
    Token(u32),
    /// Its code has no kinds of stacks.
    Kinds(TypeFault),
}

/// Why there is no unit of a method: the method is not analysed, or memory ran out.
pub(crate) type UnitRefusal = Refusal<Reason>;

impl From<Reason> for Refusal<Reason> {
    ghost from_gives = { λ reason refusal. refusal ≡ Bad reason };

    fn from(reason: Reason) -> Refusal<Reason> {
        Refusal::Bad(reason)
    }
}
