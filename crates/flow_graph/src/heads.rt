//! The heads of loops.

ghost use Rattle.std.specs.Prelude.{◌≡◌, ◌^◌, ◌<◌, ◌==◌, map, filter, length, IfOk};
ghost use Rattle.std.specs.List.{list_any, range_with_len};
ghost use Rattle.std.specs.List.Sorted.{IsNonDecreasing};
ghost use Rattle.flow_graph.specs.HeadsOf.{goes_back, heads_of};

use crate::graph::Edge;
use crate::sorted::{is_among, sorted};
use cc_base::NoMemory;
use std::alloc::Global;

/// The places of the blocks to which an edge goes back, in any order.
fn targets_back(alloc: Global, edges: &[Edge]) -> Result<Vec<u32>, NoMemory>
    ensures { IfOk result (λ targets. targets.items ≡ map (λ edge. edge.to) (filter goes_back edges.now)) }
{
    edges
        .iter()
        .filter(|edge| edge.to <= edge.from)
        .map(|edge| edge.to)
        .collect(alloc)
}

/// Those of so many places that are among these, which rise.
fn places_among(alloc: Global, count: u32, sorted: &[u32]) -> Result<Vec<u32>, NoMemory>
    requires { IsNonDecreasing sorted.now }
    ensures { IfOk result (λ places. places.items ≡
        filter (λ place. list_any (λ n. n == place) sorted.now) (range_with_len 0 count)) }
{
    (0..count)
        .filter(|place| is_among(sorted, *place))
        .collect(alloc)
}

/// The places of the heads among so many blocks, each once.
pub(crate) fn heads(alloc: Global, count: u32, edges: &[Edge]) -> Result<Vec<u32>, NoMemory>
    ensures { IfOk result (λ heads. heads.items ≡ heads_of count edges.now) }
{
    let targets = sorted(targets_back(alloc, edges)?);
    places_among(alloc, count, targets.as_slice())
}
