//! The heads of loops, where states are widened.

ghost use Rattle.std.specs.Prelude.{◌≡◌, ◌<◌, nat_le, false, true, length, map, slice_set, if◌then◌else◌, IfOk};
ghost use Rattle.std.specs.List.{All};
ghost use Rattle.widening_engine.specs.Marks.{is_gone_back_to};
ghost use Rattle.widening_engine.specs.Rounds.{places};

use domain_api::NoMemory;
use flow_graph::Edge;
use std::alloc::Global;

/// Marks the block to which the edge goes, if it goes back.
fn mark(heads: &mut Vec<bool>, edge: Edge)
    requires { edge.to < length heads.old.items }
    ensures { heads.new.items
        ≡ (if nat_le edge.to edge.from then slice_set heads.old.items edge.to true else heads.old.items) }
{
    if edge.to <= edge.from {
        heads[edge.to as usize] = true;
    }
}

/// As many marks as there are blocks, none of them set.
pub(crate) fn no_marks(alloc: Global, count: usize) -> Result<Vec<bool>, NoMemory>
    ensures { IfOk result (λ heads. heads.items ≡ map (λ block. false) (places count)) }
{
    (0..count).map(|_| false).collect(alloc)
}

/// For each of so many blocks, whether it is the head of a loop: an edge goes back to it, from it or from one after.
///
/// Cost: one pass over the edges.
pub(crate) fn heads(alloc: Global, count: usize, edges: &[Edge]) -> Result<Vec<bool>, NoMemory>
    requires { All (λ edge. edge.to < count) edges.now }
    ensures { IfOk result (λ heads. heads.items ≡ map (is_gone_back_to edges.now) (places count)) }
{
    let mut heads = no_marks(alloc, count)?;
    for edge in edges {
        mark(&mut heads, *edge);
    }
    Ok(heads)
}
