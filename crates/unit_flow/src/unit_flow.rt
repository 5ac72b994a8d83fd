//! Units with their flow graphs and the kinds of their code.

ghost use Rattle.std.specs.Prelude.{◌≡◌, ◌<◌, length, reverse, option_map, IfOk};
ghost use Rattle.cil_model.specs.WellFormed.{IsWellFormed};
ghost use Rattle.machine_points.specs.Points.{RunsHaveValues};
ghost use Rattle.unit_flow.specs.Flow as flow;
ghost use Rattle.unit_flow.specs.Flow.{IsLawful};
ghost use Rattle.unit_flow.specs.FlowOf.{flow_of};
ghost use Rattle.unit_flow.specs.Runs.{RunsGoAlong};

use crate::instructions::{before_offset, from_offset};
use cc_base::NoMemory;
use cil_model::{Instr, Kind, Unit, index_of};
use flow_graph::Graph;
use stack_typer::{Kinds, TypedUnit};
use std::alloc::Global;

/// A unit with its flow graph and the kinds of its code, found once.
#[derive(Drop)]
pub struct UnitFlow {
    pub unit: Unit,
    pub graph: Graph,
    pub kinds: Kinds,
}

/// The unit, with its graph and its kinds.
#[tactic(auto, using(crate::proofs::KindsFound::found_kinds))]
fn make_flow(alloc: Global, unit: TypedUnit) -> Result<UnitFlow, NoMemory>
    requires formed { IsWellFormed unit }
    ensures lawful { IfOk result IsLawful }
    ensures value { IfOk result (λ code. code ≡ flow_of unit) }
{
    let (unit, kinds) = unit.into_parts();
    let graph = Graph::of(alloc, &unit)?;
    Ok(UnitFlow { unit, graph, kinds })
}

impl UnitFlow {
    /// The unit, with its graph and its kinds.
    ///
    /// `NoMemory` where memory runs out; the unit is then given up. Its time is that of the graph.
    pub fn of(alloc: Global, unit: TypedUnit) -> Result<UnitFlow, NoMemory>
        requires formed { IsWellFormed unit }
        ensures lawful { IfOk result IsLawful }
        ensures unit { IfOk result (λ code. code.unit ≡ unit) }
        // Whatever a run comes to has values of the machine.
        ensures values { IfOk result (λ code. RunsHaveValues code.unit) }
        // A run that comes to the start of a block has come there along edges.
        ensures runs { IfOk result RunsGoAlong }
        // Nothing but the unit tells what is found.
        ensures value { IfOk result (λ code. code ≡ flow_of unit) }
    {
        let code = make_flow(alloc, unit)?;
        Ok(code)
    }

    /// The instructions of a block. They are found by halving.
    pub fn block(&self, block: u32) -> &[Instr]
        requires lawful { IsLawful self.now }
        requires there { block < length self.now.graph.blocks }
        ensures { result.now ≡ flow.block_instrs self.now block }
    {
        let blocks = self.graph.blocks.as_slice();
        let rest = from_offset(self.unit.instrs.as_slice(), blocks[block as usize]);
        let next = block as usize + 1;
        if next < blocks.len() {
            before_offset(rest, blocks[next])
        } else {
            rest
        }
    }

    /// The kinds on the stack where a block starts, the bottom first. There are none where typing does not come. They
    /// are found by halving.
    pub fn kinds_at(&self, block: u32) -> Option<&[Kind]>
        requires lawful { IsLawful self.now }
        requires there { block < length self.now.graph.blocks }
        ensures { option_map (λ kinds. reverse kinds.now) result ≡ flow.kinds_at self.now block }
    {
        let start = self.graph.blocks.as_slice()[block as usize];
        match index_of(self.unit.instrs.as_slice(), start) {
            None => None,
            Some(index) => self.kinds.before(index as u32),
        }
    }
}
