//! What is kept of all blocks and edges from one round to the next, so that only what changed is computed again.

ghost use Rattle.std.specs.Prelude.{◌≡◌, ◌↔◌, ◌<◌, ◌≤◌, ◌+◌, ◌^◌, ◌==◌, ◌&&◌, ◌||◌, not, ℕ, Bool, true, false, map, length, get_or, slice_set, slice_index_or, if◌then◌else◌, None, Some, IfOk, OnOk, IfSome, unwrap_or, count_by, replicate};
ghost use Rattle.widening_engine.specs.Flows.{AreEdges, AreNumbered, FitBlocks, flow_of};
ghost use Rattle.widening_engine.specs.Kept.{AreForgotten, AreStepped, IsCopiedForNext, IsKept, IsMarked, IsRefreshed, IsStillKnown, IsWalked, fresh_join, is_computed, joined_anew, no_block, states_of};
ghost use Rattle.widening_engine.specs.Merging.{joined};
ghost use Rattle.widening_engine.specs.Rounds.{all_unknown, behind, is_begun, is_carried, is_head, is_inductive, never_reached, places, state_at};
ghost use Rattle.widening_engine.specs.Work.{HasCountedAtMostBy, HasCountedBy, after_round, after_ticks, changes};

use crate::heads::no_marks;
use crate::kept_block::KeptBlock;
use domain_api::{FlowState, NoMemory};
use flow_graph::Edge;
use std::alloc::Global;

/// What is kept of all blocks and edges.
#[derive(Drop)]
pub(crate) struct Kept<S> {
    /// The state where the code begins.
    pub entry: S,
    /// Each block.
    pub blocks: Vec<KeptBlock<S>>,
    /// Of each edge the state behind it, from that of its source.
    pub behind: Vec<S>,
    /// The state where the code begins is known to be included in that of the first block.
    pub begun: bool,
    /// For each edge, whether the state behind it is known to be included in that of its target.
    pub carried: Vec<bool>,
    /// For each block, whether another state flows into it than when they were joined.
    pub stale: Vec<bool>,
}

/// The state joined to the ones before it, if there are any.
fn joined<S: FlowState + Drop>(alloc: Global, before: Option<S>, state: &S) -> Result<S, NoMemory>
    requires { IfSome before (λ first. S.like first state.now) }
    ensures { IfOk result (λ all. all ≡ joined S.join before state.now) }
{
    match before {
        None => state.copy(alloc),
        Some(first) => first.join(alloc, state),
    }
}

/// Joins the state to those that flow into the block, if they are to be joined anew.
fn join_into<S: FlowState + Drop>(
    alloc: Global,
    joins: &mut Vec<Option<S>>,
    block: usize,
    stale: bool,
    state: &S,
) -> Result<(), NoMemory>
    requires block { block < length joins.old.items }
    requires like { IfSome (slice_index_or joins.old.items block None) (λ first. S.like first state.now) }
    ensures { OnOk result (joins.new.items ≡ (if stale
        then slice_set joins.old.items block (Some (joined S.join (slice_index_or joins.old.items block None) state.now)) else joins.old.items)) }
{
    if !stale {
        return Ok(());
    }
    let before = joins[block].take();
    joins[block] = Some(joined(alloc, before, state)?);
    Ok(())
}

/// The new join of a block. None unless it is stale; where nothing flows into a stale block, nothing is reached.
fn fresh_join<S: FlowState + Drop>(stale: bool, join: Option<S>) -> Option<S>
    ensures { result ≡ fresh_join S.nothing stale join }
{
    if !stale {
        return None;
    }
    match join {
        None => Some(S::nothing()),
        Some(join) => Some(join),
    }
}

/// Whether what was known is known still, where a state that it speaks of may have changed.
fn still_known(known: bool, changed: bool) -> bool
    ensures { result ≡ (known && not changed) }
{
    known && !changed
}

/// Whether a round widens at the block.
fn widens_at(late: bool, head: bool) -> bool
    ensures { result ≡ (late && head) }
{
    late && head
}

/// Whether the state behind an edge is computed again: where every edge is, or that of its source has changed.
fn is_computed(every: bool, changed: bool) -> bool
    ensures { result ≡ (every || changed) }
{
    every || changed
}

/// A copy of the state before the last instruction of an edge's source, where the next edge leaves that block too.
fn copy_for_next<S: FlowState + Drop>(
    alloc: Global,
    edges: &[Edge],
    place: usize,
    before: &S,
) -> Result<Option<S>, NoMemory>
    requires { place < length edges.now }
    ensures { IfOk result (λ next. IfSome next (IsCopiedForNext edges.now place before.now)) }
{
    let next = place + 1;
    if next == edges.len() || edges[next].from != edges[place].from {
        return Ok(None);
    }
    Ok(Some(before.copy(alloc)?))
}

/// A list of so many times None: nothing flows into a block yet.
fn none_joined<S: Drop>(alloc: Global, count: usize) -> Result<Vec<Option<S>>, NoMemory>
    ensures { IfOk result (λ joins. joins.items ≡ map (λ block. None) (places count)) }
{
    (0..count).map(|_| None).collect(alloc)
}

/// A list of so many blocks that are not reached.
fn no_blocks<S: FlowState + Drop>(
    alloc: Global,
    count: usize,
) -> Result<Vec<KeptBlock<S>>, NoMemory>
    ensures { IfOk result (λ blocks. blocks.items ≡ map (λ block. no_block S.nothing) (places count)) }
{
    (0..count).map(|_| KeptBlock::unreached()).collect(alloc)
}

/// A list of the states after so many edges, where nothing is reached.
fn nothing_behind<S: FlowState + Drop>(alloc: Global, count: usize) -> Result<Vec<S>, NoMemory>
    ensures { IfOk result (λ states. states.items ≡ map (λ edge. S.nothing) (places count)) }
{
    (0..count).map(|_| S::nothing()).collect(alloc)
}

/// As many marks, each of them set.
fn all_marks(alloc: Global, count: usize) -> Result<Vec<bool>, NoMemory>
    ensures { IfOk result (λ marks. marks.items ≡ map (λ block. true) (places count)) }
{
    (0..count).map(|_| true).collect(alloc)
}

impl<S: FlowState + Drop> Kept<S> {
    /// Whether the state where the code begins is included in that of the first block.
    fn is_begun(&mut self, alloc: Global, code: &S::Code) -> Result<bool, NoMemory>
        requires lawful { S.lawful code.now }
        requires kept { IsKept (flow_of S.FlowState.own S.Lattice code.now) (S.fits code.now) self.old }
        ensures kept { OnOk result (IsKept (flow_of S.FlowState.own S.Lattice code.now) (S.fits code.now) self.new) }
        ensures blocks { OnOk result (self.new.blocks.items ≡ self.old.blocks.items) }
        ensures value { IfOk result (λ yes. yes ≡ is_begun (flow_of S.FlowState.own S.Lattice code.now) (states_of self.old.blocks.items)) }
    {
        if self.begun {
            return Ok(true);
        }
        let first = &self.blocks[0];
        let begun = self.entry.leq(alloc, &first.state)?;
        self.begun = begun;
        Ok(begun)
    }

    /// Whether the state behind the edge is included in that of its target.
    fn is_carried(
        &mut self,
        alloc: Global,
        code: &S::Code,
        place: usize,
        edge: Edge,
    ) -> Result<bool, NoMemory>
        requires lawful { S.lawful code.now }
        requires place { place < S.edge_count code.now }
        requires to { edge.to ≡ S.target code.now place }
        requires kept { IsKept (flow_of S.FlowState.own S.Lattice code.now) (S.fits code.now) self.old }
        ensures kept { OnOk result (IsKept (flow_of S.FlowState.own S.Lattice code.now) (S.fits code.now) self.new) }
        ensures blocks { OnOk result (self.new.blocks.items ≡ self.old.blocks.items) }
        ensures value { IfOk result (λ yes. yes ≡ is_carried (flow_of S.FlowState.own S.Lattice code.now) (states_of self.old.blocks.items) place) }
    {
        if self.carried[place] {
            return Ok(true);
        }
        let target = &self.blocks[edge.to as usize];
        let behind = &self.behind[place];
        let carried = behind.leq(alloc, &target.state)?;
        self.carried[place] = carried;
        Ok(carried)
    }

    /// Whether the states are inductive. What is found included is not asked again until one of the two states changes.
    pub(crate) fn is_inductive(
        &mut self,
        alloc: Global,
        code: &S::Code,
        edges: &[Edge],
    ) -> Result<bool, NoMemory>
        requires lawful { S.lawful code.now }
        requires edges { AreEdges (flow_of S.FlowState.own S.Lattice code.now) edges.now }
        requires kept { IsKept (flow_of S.FlowState.own S.Lattice code.now) (S.fits code.now) self.old }
        ensures kept { OnOk result (IsKept (flow_of S.FlowState.own S.Lattice code.now) (S.fits code.now) self.new) }
        ensures blocks { OnOk result (self.new.blocks.items ≡ self.old.blocks.items) }
        ensures value { IfOk result (λ yes. yes ≡ is_inductive (flow_of S.FlowState.own S.Lattice code.now) (states_of self.new.blocks.items)) }
    {
        if !self.is_begun(alloc, code)? {
            return Ok(false);
        }
        for place in 0..edges.len() {
            if !self.is_carried(alloc, code, place, edges[place])? {
                return Ok(false);
            }
        }
        Ok(true)
    }

    /// What flows into the first block before its edges, if it is to be joined anew.
    fn first_joins(&self, alloc: Global, code: &S::Code) -> Result<Vec<Option<S>>, NoMemory>
        requires lawful { S.lawful code.now }
        requires kept { IsKept (flow_of S.FlowState.own S.Lattice code.now) (S.fits code.now) self.now }
        ensures { let flow = flow_of S.FlowState.own S.Lattice code.now in IfOk result (λ joins.
            joins.items ≡ map (joined_anew flow (states_of self.now.blocks.items) self.now.stale.items (places 0)) (places flow.blocks)) }
    {
        let mut joins = none_joined(alloc, self.blocks.len())?;
        join_into(alloc, &mut joins, 0, self.stale[0], &self.entry)?;
        Ok(joins)
    }

    /// For each block that is to be joined anew what flows into it.
    fn joins(
        &self,
        alloc: Global,
        code: &S::Code,
        edges: &[Edge],
    ) -> Result<Vec<Option<S>>, NoMemory>
        requires lawful { S.lawful code.now }
        requires edges { AreEdges (flow_of S.FlowState.own S.Lattice code.now) edges.now }
        requires kept { IsKept (flow_of S.FlowState.own S.Lattice code.now) (S.fits code.now) self.now }
        ensures { let flow = flow_of S.FlowState.own S.Lattice code.now in IfOk result (λ joins.
            joins.items ≡ map (joined_anew flow (states_of self.now.blocks.items) self.now.stale.items (places flow.edges)) (places flow.blocks)) }
    {
        let mut joins = self.first_joins(alloc, code)?;
        for place in 0..edges.len() {
            let block = edges[place].to as usize;
            let stale = self.stale[block];
            let behind = &self.behind[place];
            join_into(alloc, &mut joins, block, stale, behind)?;
        }
        Ok(joins)
    }

    /// Steps each block by one round. Returns for each whether its state changed.
    fn step_all(
        &mut self,
        alloc: Global,
        code: &S::Code,
        heads: &[bool],
        late: bool,
        joins: Vec<Option<S>>,
    ) -> Result<Vec<bool>, NoMemory>
        requires lawful { S.lawful code.now }
        requires kept { IsKept (flow_of S.FlowState.own S.Lattice code.now) (S.fits code.now) self.old }
        requires heads { length heads.now ≡ S.block_count code.now }
        requires joins { let flow = flow_of S.FlowState.own S.Lattice code.now in
            joins.items ≡ map (joined_anew flow (states_of self.old.blocks.items) self.old.stale.items (places flow.edges)) (places flow.blocks) }
        ensures { IfOk result (λ changed.
            AreStepped (flow_of S.FlowState.own S.Lattice code.now) late heads.now joins.items self.old self.new changed.items) }
    {
        let mut joins = joins;
        let mut changed = Vec::with_capacity(alloc, self.blocks.len())?;
        for block in 0..self.blocks.len() {
            let stale = self.stale[block];
            let join = joins[block].take();
            let fresh = fresh_join(stale, join);
            self.stale[block] = false;
            let widens = widens_at(late, heads[block]);
            let other = self.blocks[block].step(alloc, widens, fresh)?;
            changed.push(other)?;
        }
        Ok(changed)
    }

    /// Takes the state behind the edge, if it is another one than before.
    fn take_behind(&mut self, place: usize, to: usize, behind: S)
        requires place { place < length self.old.behind.items }
        requires carried { place < length self.old.carried.items }
        requires to { to < length self.old.stale.items }
        ensures entry { self.new.entry ≡ self.old.entry }
        ensures blocks { self.new.blocks.items ≡ self.old.blocks.items }
        ensures behind { self.new.behind.items ≡ slice_set self.old.behind.items place behind }
        ensures begun { self.new.begun ≡ self.old.begun }
        ensures carried { IsStillKnown place false self.old.carried.items self.new.carried.items (self.new.behind.items ≡ self.old.behind.items) }
        ensures stale { IsMarked to self.old.stale.items self.new.stale.items (self.new.behind.items ≡ self.old.behind.items) }
    {
        if !behind.same(&self.behind[place]) {
            self.behind[place] = behind;
            self.carried[place] = false;
            self.stale[to] = true;
        }
    }

    /// The state before the last instruction of a block: the one that was kept, or else walked to from the state of the
    /// block.
    fn before_last(
        &self,
        alloc: Global,
        code: &S::Code,
        block: u32,
        walked: Option<S>,
    ) -> Result<S, NoMemory>
        requires lawful { S.lawful code.now }
        requires block { block < S.block_count code.now }
        requires fit { FitBlocks (flow_of S.FlowState.own S.Lattice code.now) (S.fits code.now) (states_of self.now.blocks.items) }
        requires walked { let flow = flow_of S.FlowState.own S.Lattice code.now in
            IfSome walked (λ before. before ≡ S.through (state_at flow (states_of self.now.blocks.items) block) code.now block) }
        ensures { let flow = flow_of S.FlowState.own S.Lattice code.now in
            IfOk result (λ before. before ≡ S.through (state_at flow (states_of self.now.blocks.items) block) code.now block) }
    {
        match walked {
            Some(before) => Ok(before),
            None => {
                let source = &self.blocks[block as usize];
                source.state.before_last(alloc, code, block)
            }
        }
    }

    /// Computes the state behind the edge again, if that of its source has changed: from the state before the last
    /// instruction of its source, where that was kept. Answers that state where the next edge leaves the same block.
    fn refresh_edge(
        &mut self,
        alloc: Global,
        code: &S::Code,
        edges: &[Edge],
        place: usize,
        changed: bool,
        target_changed: bool,
        walked: Option<S>,
        meter: &mut S::Gauge,
    ) -> Result<Option<S>, NoMemory>
        requires lawful { S.lawful code.now }
        requires edges { AreEdges (flow_of S.FlowState.own S.Lattice code.now) edges.now }
        requires few { S.edge_count code.now < 2 ^ 32 }
        requires fit { FitBlocks (flow_of S.FlowState.own S.Lattice code.now) (S.fits code.now) (states_of self.old.blocks.items) }
        requires place { place < S.edge_count code.now }
        requires behind { length self.old.behind.items ≡ S.edge_count code.now }
        requires carried { length self.old.carried.items ≡ S.edge_count code.now }
        requires stale { length self.old.stale.items ≡ S.block_count code.now }
        requires walked { IsWalked (flow_of S.FlowState.own S.Lattice code.now) (λ a block. S.through a code.now block) (states_of self.old.blocks.items) place walked }
        ensures entry { OnOk result (self.new.entry ≡ self.old.entry) }
        ensures blocks { OnOk result (self.new.blocks.items ≡ self.old.blocks.items) }
        ensures behind { let flow = flow_of S.FlowState.own S.Lattice code.now in OnOk result (self.new.behind.items ≡ slice_set self.old.behind.items place
            (if changed then behind flow (states_of self.old.blocks.items) place else slice_index_or self.old.behind.items place S.nothing)) }
        ensures begun { OnOk result (self.new.begun ≡ self.old.begun) }
        ensures carried { OnOk result (IsStillKnown place target_changed self.old.carried.items self.new.carried.items (self.new.behind.items ≡ self.old.behind.items)) }
        ensures stale { let flow = flow_of S.FlowState.own S.Lattice code.now in OnOk result (IsMarked (flow.target place) self.old.stale.items self.new.stale.items (self.new.behind.items ≡ self.old.behind.items)) }
        ensures walked { IfOk result (IsWalked (flow_of S.FlowState.own S.Lattice code.now) (λ a block. S.through a code.now block) (states_of self.old.blocks.items) (place + 1)) }
        ensures ticked { OnOk result (S.Gauge.count meter.new ≡ after_ticks (if changed then 1 else 0) (S.Gauge.count meter.old)) }
        ensures most { S.Gauge.count meter.new ≤ S.Gauge.count meter.old + (if changed then 1 else 0) }
    {
        let known = self.carried[place];
        self.carried[place] = still_known(known, target_changed);
        if !changed {
            return Ok(None);
        }
        let edge = edges[place];
        let before = self.before_last(alloc, code, edge.from, walked)?;
        let next = copy_for_next(alloc, edges, place, &before)?;
        let behind = before.leave(alloc, code, place as u32, meter)?;
        self.take_behind(place, edge.to as usize, behind);
        Ok(next)
    }

    /// Computes the states behind the edges again: every one, or those whose sources have changed.
    fn refresh(
        &mut self,
        alloc: Global,
        code: &S::Code,
        edges: &[Edge],
        changed: &[bool],
        every: bool,
        meter: &mut S::Gauge,
    ) -> Result<(), NoMemory>
        requires lawful { S.lawful code.now }
        requires edges { AreEdges (flow_of S.FlowState.own S.Lattice code.now) edges.now }
        requires few { S.edge_count code.now < 2 ^ 32 }
        requires fit { FitBlocks (flow_of S.FlowState.own S.Lattice code.now) (S.fits code.now) (states_of self.old.blocks.items) }
        requires behind { length self.old.behind.items ≡ S.edge_count code.now }
        requires carried { length self.old.carried.items ≡ S.edge_count code.now }
        requires stale { length self.old.stale.items ≡ S.block_count code.now }
        requires changed { length changed.now ≡ S.block_count code.now }
        ensures refreshed { OnOk result (IsRefreshed (flow_of S.FlowState.own S.Lattice code.now) every changed.now self.old self.new) }
        ensures ticked { let flow = flow_of S.FlowState.own S.Lattice code.now in OnOk result
            (S.Gauge.count meter.new ≡ after_ticks (count_by (is_computed flow every changed.now) (places flow.edges)) (S.Gauge.count meter.old)) }
        ensures most { let flow = flow_of S.FlowState.own S.Lattice code.now in
            S.Gauge.count meter.new ≤ S.Gauge.count meter.old + count_by (is_computed flow every changed.now) (places flow.edges) }
    {
        self.begun = still_known(self.begun, changed[0]);
        let mut walked = None;
        for place in 0..edges.len() {
            let edge = edges[place];
            let again = is_computed(every, changed[edge.from as usize]);
            let other = changed[edge.to as usize];
            walked = self.refresh_edge(alloc, code, edges, place, again, other, walked, meter)?;
        }
        Ok(())
    }
}

impl<S: FlowState + Drop> Kept<S> {
    /// Computes one round. A late round widens at the heads of loops. The states behind edges are computed again: every
    /// one, or those whose sources have changed.
    pub(crate) fn round(
        &mut self,
        alloc: Global,
        code: &S::Code,
        edges: &[Edge],
        heads: &[bool],
        late: bool,
        every: bool,
        meter: &mut S::Gauge,
    ) -> Result<(), NoMemory>
        requires lawful { S.lawful code.now }
        requires edges { AreEdges (flow_of S.FlowState.own S.Lattice code.now) edges.now }
        requires few { S.edge_count code.now < 2 ^ 32 }
        requires heads { heads.now ≡ map (is_head (flow_of S.FlowState.own S.Lattice code.now)) (places (S.block_count code.now)) }
        requires kept { IsKept (flow_of S.FlowState.own S.Lattice code.now) (S.fits code.now) self.old }
        ensures kept { OnOk result (IsKept (flow_of S.FlowState.own S.Lattice code.now) (S.fits code.now) self.new) }
        ensures states { OnOk result (states_of self.new.blocks.items
            ≡ after_round (flow_of S.FlowState.own S.Lattice code.now) late (states_of self.old.blocks.items)) }
        ensures ticked { let flow = flow_of S.FlowState.own S.Lattice code.now in let states = states_of self.old.blocks.items in
            OnOk result (HasCountedBy every (λ equal. changes equal flow states (after_round flow late states)) (S.Gauge.count meter.old) (S.Gauge.count meter.new)) }
        ensures most { let flow = flow_of S.FlowState.own S.Lattice code.now in let states = states_of self.old.blocks.items in
            HasCountedAtMostBy every (λ equal. changes equal flow states (after_round flow late states)) (S.Gauge.count meter.old) (S.Gauge.count meter.new) }
    {
        let joins = self.joins(alloc, code, edges)?;
        let changed = self.step_all(alloc, code, heads, late, joins)?;
        self.refresh(alloc, code, edges, changed.as_slice(), every, meter)
    }

    /// Sets each block's state to the one of which nothing is known. Returns for each whether its state changed.
    fn forget_all(&mut self, alloc: Global, code: &S::Code) -> Result<Vec<bool>, NoMemory>
        requires lawful { S.lawful code.now }
        requires few { S.block_count code.now < 2 ^ 32 }
        requires kept { IsKept (flow_of S.FlowState.own S.Lattice code.now) (S.fits code.now) self.old }
        ensures { IfOk result (λ changed. AreForgotten (flow_of S.FlowState.own S.Lattice code.now) self.old self.new changed.items) }
    {
        let mut changed = Vec::with_capacity(alloc, self.blocks.len())?;
        for block in 0..self.blocks.len() {
            let state = S::unknown(alloc, code, block as u32)?;
            let other = self.blocks[block].take_state(state);
            changed.push(other)?;
        }
        Ok(changed)
    }

    /// Gives up: sets each state to the one of which nothing is known, and computes the edges again.
    pub(crate) fn forget(
        &mut self,
        alloc: Global,
        code: &S::Code,
        edges: &[Edge],
        every: bool,
        meter: &mut S::Gauge,
    ) -> Result<(), NoMemory>
        requires lawful { S.lawful code.now }
        requires edges { AreEdges (flow_of S.FlowState.own S.Lattice code.now) edges.now }
        requires numbered { AreNumbered (flow_of S.FlowState.own S.Lattice code.now) }
        requires kept { IsKept (flow_of S.FlowState.own S.Lattice code.now) (S.fits code.now) self.old }
        ensures kept { OnOk result (IsKept (flow_of S.FlowState.own S.Lattice code.now) (S.fits code.now) self.new) }
        ensures states { OnOk result (states_of self.new.blocks.items ≡ all_unknown (flow_of S.FlowState.own S.Lattice code.now)) }
        ensures ticked { let flow = flow_of S.FlowState.own S.Lattice code.now in let states = states_of self.old.blocks.items in
            OnOk result (HasCountedBy every (λ equal. changes equal flow states (all_unknown flow)) (S.Gauge.count meter.old) (S.Gauge.count meter.new)) }
        ensures most { let flow = flow_of S.FlowState.own S.Lattice code.now in let states = states_of self.old.blocks.items in
            HasCountedAtMostBy every (λ equal. changes equal flow states (all_unknown flow)) (S.Gauge.count meter.old) (S.Gauge.count meter.new) }
    {
        let changed = self.forget_all(alloc, code)?;
        self.refresh(alloc, code, edges, changed.as_slice(), every, meter)
    }

    /// Nothing is reached yet, and no edge computed.
    fn unreached(
        alloc: Global,
        code: &S::Code,
        count: usize,
        edges: usize,
    ) -> Result<Kept<S>, NoMemory>
        requires lawful { S.lawful code.now }
        ensures entry { IfOk result (λ kept. kept.entry ≡ S.entry code.now) }
        ensures blocks { IfOk result (λ kept. kept.blocks.items ≡ map (λ block. no_block S.nothing) (places count)) }
        ensures behind { IfOk result (λ kept. kept.behind.items ≡ map (λ edge. S.nothing) (places edges)) }
        ensures begun { IfOk result (λ kept. kept.begun ≡ false) }
        ensures carried { IfOk result (λ kept. kept.carried.items ≡ map (λ edge. false) (places edges)) }
        ensures stale { IfOk result (λ kept. kept.stale.items ≡ map (λ block. true) (places count)) }
    {
        let entry = S::entry(alloc, code)?;
        let blocks = no_blocks(alloc, count)?;
        let behind = nothing_behind(alloc, edges)?;
        let carried = no_marks(alloc, edges)?;
        let stale = all_marks(alloc, count)?;
        Ok(Kept {
            entry,
            blocks,
            behind,
            begun: false,
            carried,
            stale,
        })
    }

    /// Nothing is reached yet, and each edge is computed once.
    pub(crate) fn begin(
        alloc: Global,
        code: &S::Code,
        count: usize,
        edges: &[Edge],
        meter: &mut S::Gauge,
    ) -> Result<Kept<S>, NoMemory>
        requires lawful { S.lawful code.now }
        requires count { count ≡ S.block_count code.now }
        requires edges { AreEdges (flow_of S.FlowState.own S.Lattice code.now) edges.now }
        requires few { S.edge_count code.now < 2 ^ 32 }
        ensures kept { IfOk result (IsKept (flow_of S.FlowState.own S.Lattice code.now) (S.fits code.now)) }
        ensures states { IfOk result (λ kept. states_of kept.blocks.items ≡ never_reached (flow_of S.FlowState.own S.Lattice code.now)) }
        ensures ticked { IfOk result (λ kept. S.Gauge.count meter.new ≡ after_ticks (S.edge_count code.now) (S.Gauge.count meter.old)) }
        ensures most { S.Gauge.count meter.new ≤ S.Gauge.count meter.old + S.edge_count code.now }
    {
        let mut kept = Kept::unreached(alloc, code, count, edges.len())?;
        let all = all_marks(alloc, count)?;
        kept.refresh(alloc, code, edges, all.as_slice(), true, meter)?;
        Ok(kept)
    }

    /// Copies of the states, one for each block.
    pub(crate) fn copies(&self, alloc: Global) -> Result<Vec<S>, NoMemory>
        ensures { IfOk result (λ states. states.items ≡ states_of self.now.blocks.items) }
    {
        let mut states = Vec::with_capacity(alloc, self.blocks.len())?;
        for block in &self.blocks {
            states.push(block.state.copy(alloc)?)?;
        }
        Ok(states)
    }

    /// The states.
    pub(crate) fn into_states(self, alloc: Global) -> Result<Vec<S>, NoMemory>
        ensures { IfOk result (λ states. states.items ≡ states_of self.blocks.items) }
    {
        self.blocks
            .into_iter()
            .map(|block| block.state)
            .collect(alloc)
    }
}
