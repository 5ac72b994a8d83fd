//! The edges between blocks.

ghost use Rattle.std.specs.Prelude.{◌≡◌, ◌+◌, ◌^◌, ◌<◌, ◌++◌, nat_le, filter, length, IfOk, OnOk};
ghost use Rattle.std.specs.List.{All, flat_map};
ghost use Rattle.std.specs.List.Sorted.{IsStrictlyIncreasing};
ghost use Rattle.std.specs.Option.{option_to_list};
ghost use Rattle.cil_model.specs.Passes.{goes_behind};
ghost use Rattle.flow_graph.specs.BlocksOf.{block_at, place_of};
ghost use Rattle.flow_graph.specs.EdgesOf.{edge_to, edges_to, edges_out, edges_from};
ghost use Rattle.cil_model.specs.ShortCode.{IsOfShortCode};

use crate::blocks::branch_targets;
use crate::graph::Edge;
use cc_base::NoMemory;
use cil_model::{Instr, Op, Test};
use std::alloc::Global;

/// The place of the block that starts at an IL offset, if one does.
fn place_of(blocks: &[u32], at: u32) -> Option<u32>
    requires { IsStrictlyIncreasing blocks.now }
    ensures { result ≡ place_of blocks.now at }
{
    match blocks.binary_search(&at) {
        Ok(place) => Some(place as u32),
        Err(_) => None,
    }
}

/// Returns how many blocks start at an IL offset or before.
fn starts_up_to(blocks: &[u32], at: u32) -> usize
    requires { IsStrictlyIncreasing blocks.now }
    ensures { result ≡ length (filter (λ start. nat_le start at) blocks.now) }
{
    blocks.partition_point(|start| *start <= at)
}

/// The place of the block in which an IL offset lies, if it lies in one.
#[tactic(auto, using(crate::proofs::Searches::block_places))]
fn block_at(blocks: &[u32], at: u32) -> Option<u32>
    requires { IsStrictlyIncreasing blocks.now }
    ensures { result ≡ block_at blocks.now at }
{
    let starts = starts_up_to(blocks, at);
    if starts == 0 {
        return None;
    }
    Some((starts - 1) as u32)
}

/// Returns whether control may go on after the operation.
fn goes_behind(op: &Op) -> bool
    ensures { result ≡ goes_behind op.now }
{
    !matches!(op, Op::Return | Op::Branch(Test::Always, _))
}

/// Appends the edge of this number to the block that starts at an IL offset, if one does.
fn push_edge(
    edges: &mut Vec<Edge>,
    blocks: &[u32],
    from: u32,
    number: u32,
    at: u32,
) -> Result<(), NoMemory>
    requires { IsStrictlyIncreasing blocks.now }
    ensures { OnOk result (edges.new.items ≡
        edges.old.items ++ option_to_list (edge_to blocks.now from number at)) }
{
    if let Some(to) = place_of(blocks, at) {
        edges.push(Edge { from, to, number })?;
    }
    Ok(())
}

/// Appends the edges to the blocks that start at these IL offsets, numbered from 0.
fn push_edges_to(
    edges: &mut Vec<Edge>,
    blocks: &[u32],
    from: u32,
    offsets: &[u32],
) -> Result<(), NoMemory>
    requires rise { IsStrictlyIncreasing blocks.now }
    requires few { length offsets.now < 2 ^ 32 }
    ensures { OnOk result (edges.new.items ≡ edges.old.items ++ edges_to blocks.now from 0 offsets.now) }
{
    for (number, at) in offsets.iter().enumerate() {
        push_edge(edges, blocks, from, number as u32, *at)?;
    }
    Ok(())
}

/// Appends the edges from a block along which control may go from the instruction.
#[tactic(auto, using(crate::proofs::Pushes::edges_out_parts))]
fn push_edges_out(
    edges: &mut Vec<Edge>,
    blocks: &[u32],
    from: u32,
    instr: &Instr,
) -> Result<(), NoMemory>
    requires rise { IsStrictlyIncreasing blocks.now }
    requires short { IsOfShortCode instr.now }
    ensures { OnOk result (edges.new.items ≡ edges.old.items ++ edges_out blocks.now (Some from) instr.now) }
{
    let targets = branch_targets(&instr.op);
    push_edges_to(edges, blocks, from, targets)?;
    if goes_behind(&instr.op) {
        let next = instr.at + instr.size;
        push_edge(edges, blocks, from, targets.len() as u32, next)?;
    }
    Ok(())
}

/// The edges of a body with these blocks, in order.
pub(crate) fn edges(alloc: Global, body: &[Instr], blocks: &[u32]) -> Result<Vec<Edge>, NoMemory>
    requires rise { IsStrictlyIncreasing blocks.now }
    requires short { All IsOfShortCode body.now }
    ensures { IfOk result (λ edges. edges.items ≡ flat_map (edges_from blocks.now) body.now) }
{
    let mut edges = Vec::new(alloc);
    for instr in body {
        if let Some(from) = block_at(blocks, instr.at) {
            push_edges_out(&mut edges, blocks, from, instr)?;
        }
    }
    Ok(edges)
}
