//! What the tokens in code mean.

ghost use Rattle.std.specs.Prelude.{◌≡◌};
ghost use Rattle.method_code.specs.Meanings.{HasSmallNumbers, Meaning};

use crate::call::Call;
use cc_base::Token;
use cil_model::Place;

/// What the tokens in the code of a method mean. Code is read by this alone: where a method stands that is called, and
/// how it is found, is known to nobody but who gives the meaning.
pub trait Tokens {
    /// What they mean.
    ghost meaning: { Self → Meaning };

    /// Returns what a call of this token calls.
    fn call(&self, token: Token) -> Call
        ensures { result ≡ (meaning self.now).call token.0 };

    /// The type of the elements of arrays of this token, where it is known.
    fn element(&self, token: Token) -> Option<Place>
        ensures { result ≡ (meaning self.now).element token.0 };

    /// The numbers of contract calls lie below those of callees.
    ghost small: { (tokens : Self) → HasSmallNumbers (meaning tokens) };
}
