//! Signatures of .NET metadata (ECMA-335, II.23.2): what a blob says of a method, of its locals and of
//! the type that a generic method is called with.
#![tactic(auto)]

mod fault;
mod local;
mod method;
mod number;
mod places;
mod spec;
mod types;

pub use fault::SigFault;
pub use local::{LocalSig, local_sig};
pub use method::{MethodSig, SigTypes, Signature, method_sig};
pub use number::compressed;
pub use places::Places;
pub use spec::spec_sig;
