//! What the trees of clauses count.

ghost use Rattle.std.specs.Prelude.{◌≡◌, ◌+◌, ◌<◌, ◌≤◌, MatchOption};
ghost use Rattle.cil_model.specs.Limits.{MAX_NODES};
ghost use Rattle.cil_model.specs.Terms.{term_size, old_count};

use cil_model::{Node, Tree};

/// How many nodes have room beside a tree where so many have room with it. `None` where it has more nodes. It counts no
/// further than that.
#[tactic(auto, using(crate::proofs::TreeLemmas::TreeCounts::node_some))]
pub(crate) fn room_beside(tree: &Tree, room: usize) -> Option<usize>
    ensures { MatchOption result (room < term_size tree.now) (λ left. left + term_size tree.now ≡ room) }
{
    if room == 0 {
        return None;
    }
    let room = room - 1;
    match &tree.node {
        Node::Const(_) | Node::Arg(_) | Node::Null | Node::Result => Some(room),
        Node::Len(a) | Node::Un(_, a) | Node::Old(a) => room_beside(a, room),
        Node::Elem(_, a, b) | Node::Bin(_, a, b) => room_beside(b, room_beside(a, room)?),
        Node::Cond(a, b, c) => room_beside(c, room_beside(b, room_beside(a, room)?)?),
    }
}

/// How many old values a tree has.
#[tactic(auto, using(crate::proofs::TreeLemmas::TreeCounts::old_within))]
pub(crate) fn old_values(tree: &Tree) -> usize
    requires { term_size tree.now ≤ MAX_NODES }
    ensures { result ≡ old_count tree.now }
{
    match &tree.node {
        Node::Const(_) | Node::Arg(_) | Node::Null | Node::Result => 0,
        Node::Len(a) | Node::Un(_, a) => old_values(a),
        Node::Old(a) => old_values(a) + 1,
        Node::Elem(_, a, b) | Node::Bin(_, a, b) => old_values(a) + old_values(b),
        Node::Cond(a, b, c) => old_values(a) + old_values(b) + old_values(c),
    }
}
