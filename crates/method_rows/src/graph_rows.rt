//! Flow graphs of code that no verdict depends on: the starts of blocks, the edges and the heads of loops.

use cil_model::{List, Place, Unit};
use flow_graph::{Edge, Graph};
use il_decoder::decode;
use std::alloc::{AllocError, Global};
use std::process::Abort;
use std::test::Fail;

/// Code with its graph. An edge is where it comes from, where it goes and its number.
struct Row {
    code: &'static [u8],
    body_start: u32,
    blocks: &'static [u32],
    edges: &'static [(u32, u32, u32)],
    heads: &'static [u32],
}

const ROWS: [Row; 3] = [
    // Behind a ret no path comes, but a block starts, and its edge makes a head.
    Row {
        code: &[0x2a, 0x00, 0x2b, 0xfc],
        body_start: 0,
        blocks: &[0, 1],
        edges: &[(1, 0, 0)],
        heads: &[0],
    },
    // No edge goes where no block starts, but its number stays: a branch out of the body, and on.
    Row {
        code: &[0x00, 0x02, 0x2d, 0xfc, 0x2a],
        body_start: 1,
        blocks: &[1, 4],
        edges: &[(0, 1, 1)],
        heads: &[],
    },
    // A body without instructions.
    Row {
        code: &[0x00, 0x00],
        body_start: 2,
        blocks: &[],
        edges: &[],
        heads: &[],
    },
];

/// The graph of a method of this code without arguments, locals and contracts.
fn graph_of(
    rt: &impl Abort,
    alloc: Global,
    code: &[u8],
    body_start: u32,
) -> Result<Graph, AllocError> {
    assert!(rt; code.len() <= 100);
    let bytes = Vec::from_slice(alloc, code)?;
    let Ok(instrs) = decode(alloc, code) else {
        panic!(rt; "no code");
    };
    let unit = Unit {
        name: List::from_vec(Vec::new(alloc)),
        result: Place::Void,
        args: List::from_vec(Vec::new(alloc)),
        locals: List::from_vec(Vec::new(alloc)),
        max_stack: 8,
        callees: List::from_vec(Vec::new(alloc)),
        code: List::from_vec(bytes),
        clauses: List::from_vec(Vec::new(alloc)),
        body_start,
        instrs: List::from_vec(instrs),
    };
    Graph::of(alloc, &unit)
}

fn are_edges(found: &[Edge], told: &[(u32, u32, u32)]) -> bool {
    found.len() == told.len()
        && found.iter().zip(told.iter()).all(|(edge, ends)| {
            edge.from == ends.0 && edge.to == ends.1 && edge.number == ends.2
        })
}

/// Returns whether the graph is that of the row.
fn is_graph(graph: &Graph, row: &Row) -> bool {
    graph.blocks.as_slice() == row.blocks
        && are_edges(graph.edges.as_slice(), row.edges)
        && graph.heads.as_slice() == row.heads
}

#[test]
fn code_has_its_graph(rt: HostRuntime) -> Result<(), Fail> {
    for (row, number) in ROWS.iter().zip(1..) {
        let graph = graph_of(&rt, rt.alloc(), row.code, row.body_start)?;
        assert!(rt; is_graph(&graph, row), "row {number}");
    }
    Ok(())
}
