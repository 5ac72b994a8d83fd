//! Flow graphs.

ghost use Rattle.std.specs.Prelude.{◌≡◌, ◌<◌, true, length, slice_get, IfOk};
ghost use Rattle.std.specs.List.{All, AllPairs};
ghost use Rattle.std.specs.List.Sorted.{IsStrictlyIncreasing};
ghost use Rattle.cc_base.specs.Slices.{IsShort};
ghost use Rattle.cil_model.specs.Blocks.{block_count};
ghost use Rattle.cil_model.specs.Code.{begins_at, CodeOf};
ghost use Rattle.flow_graph.specs.EdgesOf.{ComesBefore, JoinsBlocks};
ghost use Rattle.flow_graph.specs.Following.{StepsFollow};
ghost use Rattle.flow_graph.specs.GraphOf.{graph_of};
ghost use Rattle.cil_model.specs.ShortCode.{AreOfShortCode};

use crate::blocks::{blocks, body};
use crate::edges::edges;
use crate::heads::heads;
use cc_base::NoMemory;
use cil_model::{List, Unit};
use std::alloc::Global;

/// An edge of a flow graph.
#[derive(Clone, Copy, Debug, PartialEq, Eq)]
pub struct Edge {
    /// The place of the block that it leaves.
    pub from: u32,
    /// The place of the block to which it goes.
    pub to: u32,
    /// Its number among the edges of the block that it leaves, from 0: that of a branch to its target comes
    /// before the one to the next instruction, those of a switch to its targets in order before that one.
    pub number: u32,
}

/// The flow graph of a method's body. A place is an index in `blocks`.
#[derive(Drop)]
pub struct Graph {
    /// The IL offsets at which the blocks start. They rise.
    pub blocks: List<u32>,
    /// The edges, by the blocks that they leave and then by their numbers.
    pub edges: List<Edge>,
    /// The places of the heads of loops: the blocks to which an edge goes from themselves or from one after.
    /// They rise.
    pub heads: List<u32>,
}

impl Graph {
    /// The flow graph of the unit's body, also of instructions that no path reaches (ECMA-335 III.1.7.2).
    ///
    /// An edge goes only where a block starts: a branch out of the body has none, nor has code that runs off its end.
    /// `NoMemory` where memory runs out. Its time is n log n in the number of instructions and targets.
    pub fn of(alloc: Global, unit: &Unit) -> Result<Graph, NoMemory>
        requires code { CodeOf unit.now.instrs unit.now.code }
        requires is_short { IsShort unit.now.code }
        ensures exact { IfOk result (λ graph. graph ≡ graph_of unit.now) }
        ensures count { IfOk result (λ graph. length graph.blocks ≡ block_count unit.now) }
        ensures blocks_rise { IfOk result (λ graph. IsStrictlyIncreasing graph.blocks) }
        // The first block starts where the body does, if an instruction begins there.
        ensures first { IfOk result (λ graph. begins_at unit.now.instrs unit.now.body_start ≡ true →
            slice_get graph.blocks 0 ≡ Some unit.now.body_start) }
        ensures edges_join_blocks { IfOk result (λ graph. All (JoinsBlocks graph.blocks) graph.edges) }
        ensures edges_in_order { IfOk result (λ graph. AllPairs ComesBefore graph.edges) }
        ensures heads_are_blocks { IfOk result (λ graph. All (λ head. head < length graph.blocks) graph.heads) }
        ensures heads_rise { IfOk result (λ graph. IsStrictlyIncreasing graph.heads) }
        // The edges are where the machine's steps go.
        ensures steps { IfOk result (StepsFollow unit.now) }
    {
        make_graph(alloc, unit)
    }
}

/// The flow graph of the unit's body.
fn make_graph(alloc: Global, unit: &Unit) -> Result<Graph, NoMemory>
    requires { AreOfShortCode unit.now.instrs }
    ensures { IfOk result (λ graph. graph ≡ graph_of unit.now) }
{
    let body = body(unit);
    let blocks = blocks(alloc, unit)?;
    let edges = edges(alloc, body, blocks.as_slice())?;
    let heads = heads(alloc, blocks.len() as u32, edges.as_slice())?;
    Ok(Graph {
        blocks: List::from_vec(blocks),
        edges: List::from_vec(edges),
        heads: List::from_vec(heads),
    })
}
