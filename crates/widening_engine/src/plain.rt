//! A finder that computes every edge in each round.

ghost use Rattle.std.specs.Prelude.{◌≡◌, ◌≤◌, ◌+◌, ◌*◌, ◌++◌, ◌∷◌, [], length, map, IfOk, OnOk, OnErr};
ghost use Rattle.state_facts.specs.Sizes.{AreSmall};
ghost use Rattle.unit_flow.specs.Flow.{IsLawful};
ghost use Rattle.unit_form.specs.Spelling.{unit_bytes};
ghost use Rattle.widening_engine.specs.Limits.{limit_of, unit_flow};
ghost use Rattle.widening_engine.specs.Work.{after_ticks, rounds};

use crate::finder::{Finder, find_invariant};
use abs_state::Invariant;
use domain_api::{NoMemory, Ticks};
use std::alloc::Global;
use unit_flow::UnitFlow;

/// A finder that computes every edge in each round.
#[derive(Drop)]
pub struct Plain {
    /// The bytes of the units that it was asked for, in order.
    pub asked: Vec<Vec<u8>>,
    /// The edges that it computed.
    pub meter: Ticks,
}

impl Plain {
    /// A finder that was not asked for any unit yet. It takes no memory.
    pub fn new(alloc: Global) -> Plain
        ensures asked { result.asked.items ≡ [] }
        ensures none { result.meter.count ≡ 0 }
    {
        Plain {
            asked: Vec::new(alloc),
            meter: Ticks { count: 0 },
        }
    }

    /// How many edges were computed since the finder was made, up to 2^64 - 1. It takes no memory.
    pub fn edges(&self) -> u64
        ensures { result ≡ self.now.meter.count }
    {
        self.meter.count
    }
}

impl Finder for Plain {
    ghost asked = { λ finder. map (λ bytes. bytes.items) finder.asked.items };

    fn find(&mut self, alloc: Global, code: &UnitFlow) -> Result<Invariant, NoMemory>
        requires lawful { IsLawful code.now }
        ensures value { IfOk result (λ found. found.states.items ≡ limit_of code.now) }
        ensures small { IfOk result (λ found. AreSmall found.states.items) }
        ensures asked { OnOk result (map (λ bytes. bytes.items) self.new.asked.items ≡ map (λ bytes. bytes.items) self.old.asked.items ++ unit_bytes code.now.unit ∷ []) }
        ensures kept { OnErr result (map (λ bytes. bytes.items) self.new.asked.items ≡ map (λ bytes. bytes.items) self.old.asked.items) }
        // Each edge is computed in each round, and in every answer no other is counted.
        ensures most { self.new.meter.count ≤ self.old.meter.count + length (rounds (unit_flow code.now)) * length code.now.graph.edges }
        ensures ticked { OnOk result
            (self.new.meter.count ≡ after_ticks (length (rounds (unit_flow code.now)) * length code.now.graph.edges) self.old.meter.count) }
    {
        find_invariant(alloc, code, true, &mut self.asked, &mut self.meter)
    }
}
