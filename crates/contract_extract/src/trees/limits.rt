//! The limits of a clause's tree.

ghost use Rattle.std.specs.Prelude.{◌≤◌};
ghost use Rattle.cil_model.specs.Limits.{MAX_NODES};

use cil_model::Tree;

/// How much a tree may have.
#[derive(Clone, Copy)]
pub(crate) struct Limits {
    /// Conditions on one way from its root to a leaf.
    pub(crate) conditions: usize,
    pub(crate) nodes: usize,
    // So a tree that is not kept, since it has more nodes than any clause, passes each of these limits.
    ghost within: { nodes ≤ MAX_NODES },
}

/// A tree within limits.
#[derive(Drop)]
pub(crate) struct Grown {
    pub(crate) tree: Tree,
    /// The number of nodes that it might have more.
    pub(crate) nodes_left: usize,
}
