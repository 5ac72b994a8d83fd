//! States of units that flow along the edges of their graphs.

ghost use Rattle.std.specs.Prelude.{◌<◌, length, None};
ghost use Rattle.std.proofs.Common.{ap};
ghost use Rattle.merged_states.specs.Alike.{AreLikeStates};
ghost use Rattle.merged_states.specs.Inclusion.{is_included};
ghost use Rattle.merged_states.specs.Merging as states;
ghost use Rattle.merged_states.specs.Laws.StatesHold as laws;
ghost use Rattle.state_facts.specs.Holds.{HoldsAt};
ghost use Rattle.transfer_rules.specs.Entry.{entry};
ghost use Rattle.transfer_rules.specs.Flow.{Fits, along_edge, before_last, leaving};
ghost use Rattle.transfer_rules.specs.Laws.FlowLaws as flow;
ghost use Rattle.transfer_rules.specs.Laws.FormsMerged as merged;
ghost use Rattle.transfer_rules.specs.Laws.StateEquality as equality;
ghost use Rattle.transfer_rules.specs.Laws.UnknownLaws as unknowns;
ghost use Rattle.transfer_rules.specs.Unknown.{unknown};
ghost use Rattle.unit_flow.specs.Flow.{Begins, GoesAlong, IsLawful, edge_at, kinds_at};

use crate::entry::entry_state;
use crate::unknown_states::unknown;
use crate::walks::{along_edge, before_last, leave};
use abs_state::AbsState;
use domain_api::{FlowState, Lattice, Meter, NoMemory, Ticks};
use machine_points::Point;
use std::alloc::Global;
use unit_flow::UnitFlow;

/// What is known of a point at the start of a block of its unit.
#[derive(Drop)]
pub struct UnitState {
    pub state: AbsState,
}

impl Lattice for UnitState {
    type Point = Point;

    ghost holds = { λ a p. HoldsAt a.state p };

    ghost like = { λ a b. AreLikeStates a.state b.state };

    ghost join = { λ a b. record { state = states.join a.state b.state } };

    ghost widen = { λ a b. record { state = states.widen a.state b.state } };

    ghost leq = { λ a b. is_included a.state b.state };

    fn join(&self, alloc: Global, other: &UnitState) -> Result<UnitState, NoMemory> {
        Ok(UnitState {
            state: self.state.join(alloc, &other.state)?,
        })
    }

    fn widen(&self, alloc: Global, other: &UnitState) -> Result<UnitState, NoMemory> {
        Ok(UnitState {
            state: self.state.widen(alloc, &other.state)?,
        })
    }

    fn leq(&self, alloc: Global, other: &UnitState) -> Result<bool, NoMemory> {
        self.state.leq(alloc, &other.state)
    }

    ghost join_left = { λ a b p alike holds. laws.join_left a.state b.state p alike holds };

    ghost join_right = { λ a b p alike holds. laws.join_right a.state b.state p alike holds };

    ghost widen_left = { λ a b p alike holds. laws.widen_left a.state b.state p alike holds };

    ghost widen_right = { λ a b p alike holds. laws.widen_right a.state b.state p alike holds };

    ghost leq_holds = { λ a b p alike less holds. laws.leq_holds a.state b.state p alike less holds };
}

impl FlowState for UnitState {
    type Code = UnitFlow;

    type Gauge = Ticks;

    ghost lawful = { IsLawful };

    ghost block_count = { λ code. length code.graph.blocks };

    ghost edge_count = { λ code. length code.graph.edges };

    ghost source = { λ code edge. (edge_at code edge).from };

    ghost target = { λ code edge. (edge_at code edge).to };

    ghost fits = { λ code block a. Fits code block a.state };

    ghost begins = { λ code p. Begins code.unit p };

    ghost goes = { GoesAlong };

    ghost along = { λ a code edge. record { state = along_edge a.state code edge } };

    ghost through = { λ a code block. record { state = before_last a.state code block } };

    ghost leaving = { λ a code edge. record { state = leaving a.state code edge } };

    ghost entry = { λ code. record { state = entry code.unit } };

    ghost unknown = { λ code block. record { state = unknown code block } };

    ghost nothing = { record { state = None } };

    ghost equal = { λ a b. equality.states.equal a.state b.state };

    fn along_edge(
        &self,
        alloc: Global,
        code: &UnitFlow,
        edge: u32,
        meter: &mut Ticks,
    ) -> Result<UnitState, NoMemory> {
        meter.tick();
        Ok(UnitState {
            state: along_edge(alloc, &self.state, code, edge as usize)?,
        })
    }

    fn before_last(
        &self,
        alloc: Global,
        code: &UnitFlow,
        block: u32,
    ) -> Result<UnitState, NoMemory> {
        Ok(UnitState {
            state: before_last(alloc, &self.state, code, block)?,
        })
    }

    fn leave(
        self,
        alloc: Global,
        code: &UnitFlow,
        edge: u32,
        meter: &mut Ticks,
    ) -> Result<UnitState, NoMemory> {
        meter.tick();
        Ok(UnitState {
            state: leave(alloc, self.state, code, edge as usize)?,
        })
    }

    fn copy(&self, alloc: Global) -> Result<UnitState, NoMemory> {
        Ok(UnitState {
            state: self.state.copy(alloc)?,
        })
    }

    fn same(&self, other: &UnitState) -> bool {
        self.state.same(&other.state)
    }

    fn nothing() -> UnitState {
        UnitState {
            state: AbsState::nothing(),
        }
    }

    fn entry(alloc: Global, code: &UnitFlow) -> Result<UnitState, NoMemory> {
        Ok(UnitState {
            state: entry_state(alloc, &code.unit)?,
        })
    }

    fn unknown(alloc: Global, code: &UnitFlow, block: u32) -> Result<UnitState, NoMemory> {
        Ok(UnitState {
            state: unknown(alloc, code, block)?,
        })
    }

    ghost equal_exact = { λ a b. (
      λ equal. ap (λ state. record { state = state }) ((equality.states.exact a.state b.state).0 equal),
      λ same. (equality.states.exact a.state b.state).1 (ap (λ a. a.state) same),
    ) };

    ghost first_block = { λ code lawful. flow.has_block code lawful };

    ghost source_below = { λ code edge lawful below. flow.source_below code edge lawful below };

    ghost target_below = { λ code edge lawful below. flow.target_below code edge lawful below };

    ghost fitting_like = { λ code block a b lawful first second. merged.fitting_like code.unit (kinds_at code block) a.state b.state first second };

    ghost join_fits = { λ code block a b lawful first second. merged.join_fits code.unit (kinds_at code block) a.state b.state first second };

    ghost widen_fits = { λ code block a b lawful first second. merged.widen_fits code.unit (kinds_at code block) a.state b.state first second };

    ghost along_is = { λ code edge a lawful below.
        ap (λ state. record { state = state }) (flow.along_is code edge a.state) };

    ghost along_fits = { λ code edge a lawful below fits. flow.along_fits code edge a.state lawful below fits };

    ghost along_holds = { λ code edge a p q lawful below fits holds goes. flow.along_holds code edge a.state p q lawful below fits holds goes };

    ghost entry_fits = { λ code lawful. flow.entry_fits code lawful };

    ghost entry_holds = { λ code p lawful begins. flow.entry_holds code p lawful begins };

    ghost unknown_fits = { λ code block lawful below. unknowns.unknown_fits code block lawful };

    ghost nothing_fits = { λ code block lawful below. tt };

    ghost nothing_holds = { λ p holds. holds.frame.holds };
}
