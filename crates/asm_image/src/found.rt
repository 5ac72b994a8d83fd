//! What a name means.

use cc_base::Token;

/// The methods that a name means, where it means any.
#[derive(Clone, Copy, Debug, PartialEq, Eq)]
pub enum Found {
    /// One method, by its token.
    One(Token),
    /// More than one.
    Several,
}
