//! Clauses: the conditions of a method's contract, as trees.

use crate::tree::Tree;

/// Whether a clause is required or ensured.
#[derive(Clone, Copy, Debug, PartialEq, Eq)]
pub enum ClauseKind {
    Requires,
    Ensures,
}

/// A clause of a contract: it is false exactly where its value is 0 or there is none.
#[derive(Drop)]
pub struct Clause {
    pub kind: ClauseKind,
    pub tree: Tree,
}
