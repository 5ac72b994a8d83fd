//! What comes of a method.

use crate::reason::Reason;
use cc_base::Token;
use cil_model::List;
use stack_typer::TypedUnit;

/// What comes of a method of an assembly.
#[derive(Drop)]
pub enum Outcome {
    /// It is analysed, as this unit, with the kinds of its code.
    Analysed(TypedUnit),
    /// It is not, and this is why.
    Skipped(Reason),
}

/// A method of an assembly: a row of the table MethodDef (II.22.26).
#[derive(Drop)]
pub struct MethodEntry {
    pub token: Token,
    /// The name as it is printed: namespace, type, method and the types of the parameters.
    pub name: List<u8>,
    pub outcome: Outcome,
}
