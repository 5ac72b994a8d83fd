//! The rounds, and where they settle. What is kept from one to the next spares most of the work.
//!
//! The graph is handed to the rounds as data, beside the code of a `FlowState`, whose blocks and edges are words of
//! contracts alone. How much work rounds are is said by any test that tells whether states are equal. The rounds join
//! from the left what flows into a block, and nothing where nothing does: no law says that joining an unreachable state
//! changes nothing.

ghost use Rattle.std.specs.Prelude.{◌≡◌, ◌⊎◌, ◌<◌, ◌≤◌, ◌+◌, ◌*◌, ◌^◌, ◌∷◌, [], ◌↔◌, true, map, length, IfOk, IsTrue, OnOk};
ghost use Rattle.widening_engine.specs.Flows.{AreEdges, AreNumbered, FitBlocks, IsGraphOf, flow_of};
ghost use Rattle.widening_engine.specs.Kept.{IsKept, states_of};
ghost use Rattle.widening_engine.specs.Rounds.{all_unknown, first_inductive, is_head, is_inductive, limit, never_reached, next, places, settled};
ghost use Rattle.widening_engine.specs.Work.{HasCountedAtMostBy, HasCountedBy, IsTried, after_ticks, changes_along, first_stop, rounds, sought, tried, work};

use crate::heads::heads;
use crate::kept::Kept;
use domain_api::{FlowState, NoMemory};
use flow_graph::{Edge, Graph};
use std::alloc::{AllocError, Global};

/// States, one for each block.
pub type States<S> = Vec<S>;

/// Goes on to the first round that is inductive, if one up to the last round is, and tells whether one is.
fn seek<S: FlowState + Drop>(
    alloc: Global,
    code: &S::Code,
    edges: &[Edge],
    heads: &[bool],
    kept: &mut Kept<S>,
    every: bool,
    meter: &mut S::Gauge,
) -> Result<bool, NoMemory>
    requires lawful { S.lawful code.now }
    requires edges { AreEdges (flow_of S.FlowState.own S.Lattice code.now) edges.now }
    requires numbered { AreNumbered (flow_of S.FlowState.own S.Lattice code.now) }
    requires heads { heads.now ≡ map (is_head (flow_of S.FlowState.own S.Lattice code.now)) (places (S.block_count code.now)) }
    requires kept { IsKept (flow_of S.FlowState.own S.Lattice code.now) (S.fits code.now) kept.old }
    requires states { states_of kept.old.blocks.items ≡ never_reached (flow_of S.FlowState.own S.Lattice code.now) }
    ensures kept { OnOk result (IsKept (flow_of S.FlowState.own S.Lattice code.now) (S.fits code.now) kept.new) }
    ensures found { IfOk result (λ found. IsTried (flow_of S.FlowState.own S.Lattice code.now) found (states_of kept.new.blocks.items)) }
    ensures ticked { let flow = flow_of S.FlowState.own S.Lattice code.now in
        OnOk result (HasCountedBy every (λ equal. changes_along equal flow (tried flow (first_stop flow))) (S.Gauge.count meter.old) (S.Gauge.count meter.new)) }
    ensures most { let flow = flow_of S.FlowState.own S.Lattice code.now in
        HasCountedAtMostBy every (λ equal. changes_along equal flow (tried flow (first_stop flow))) (S.Gauge.count meter.old) (S.Gauge.count meter.new) }
{
    for number in 0..40 + 4 * heads.len() as u64 {
        let inductive = kept.is_inductive(alloc, code, edges)?;
        if inductive {
            return Ok(true);
        }
        let late = number + 1 >= 3;
        kept.round(alloc, code, edges, heads, late, every, meter)?;
    }
    let last = kept.is_inductive(alloc, code, edges)?;
    Ok(last)
}

/// Goes on to the first round that is inductive. Where none up to the last round is, nothing is known.
fn seek_or_forget<S: FlowState + Drop>(
    alloc: Global,
    code: &S::Code,
    edges: &[Edge],
    heads: &[bool],
    kept: &mut Kept<S>,
    every: bool,
    meter: &mut S::Gauge,
) -> Result<(), NoMemory>
    requires lawful { S.lawful code.now }
    requires edges { AreEdges (flow_of S.FlowState.own S.Lattice code.now) edges.now }
    requires numbered { AreNumbered (flow_of S.FlowState.own S.Lattice code.now) }
    requires heads { heads.now ≡ map (is_head (flow_of S.FlowState.own S.Lattice code.now)) (places (S.block_count code.now)) }
    requires kept { IsKept (flow_of S.FlowState.own S.Lattice code.now) (S.fits code.now) kept.old }
    requires states { states_of kept.old.blocks.items ≡ never_reached (flow_of S.FlowState.own S.Lattice code.now) }
    ensures kept { OnOk result (IsKept (flow_of S.FlowState.own S.Lattice code.now) (S.fits code.now) kept.new) }
    ensures states { OnOk result (states_of kept.new.blocks.items ≡ first_inductive (flow_of S.FlowState.own S.Lattice code.now)) }
    ensures ticked { let flow = flow_of S.FlowState.own S.Lattice code.now in
        OnOk result (HasCountedBy every (λ equal. changes_along equal flow (sought flow (first_stop flow))) (S.Gauge.count meter.old) (S.Gauge.count meter.new)) }
    ensures most { let flow = flow_of S.FlowState.own S.Lattice code.now in
        HasCountedAtMostBy every (λ equal. changes_along equal flow (sought flow (first_stop flow))) (S.Gauge.count meter.old) (S.Gauge.count meter.new) }
{
    let found = seek(alloc, code, edges, heads, kept, every, meter)?;
    if found {
        return Ok(());
    }
    kept.forget(alloc, code, edges, every, meter)
}

/// The states two plain rounds later, if they are inductive, and else the states themselves.
fn settle<S: FlowState + Drop>(
    alloc: Global,
    code: &S::Code,
    edges: &[Edge],
    heads: &[bool],
    mut kept: Kept<S>,
    every: bool,
    meter: &mut S::Gauge,
) -> Result<States<S>, NoMemory>
    requires lawful { S.lawful code.now }
    requires edges { AreEdges (flow_of S.FlowState.own S.Lattice code.now) edges.now }
    requires few { S.edge_count code.now < 2 ^ 32 }
    requires heads { heads.now ≡ map (is_head (flow_of S.FlowState.own S.Lattice code.now)) (places (S.block_count code.now)) }
    requires kept { IsKept (flow_of S.FlowState.own S.Lattice code.now) (S.fits code.now) kept }
    ensures value { IfOk result (λ states. states.items ≡ settled (flow_of S.FlowState.own S.Lattice code.now) (states_of kept.blocks.items)) }
    ensures fit { IfOk result (λ states. FitBlocks (flow_of S.FlowState.own S.Lattice code.now) (S.fits code.now) states.items) }
    ensures most { let flow = flow_of S.FlowState.own S.Lattice code.now in let states = states_of kept.blocks.items in
        HasCountedAtMostBy every (λ equal. changes_along equal flow (states ∷ next flow states ∷ next flow (next flow states) ∷ []))
        (S.Gauge.count meter.old) (S.Gauge.count meter.new) }
    ensures ticked { let flow = flow_of S.FlowState.own S.Lattice code.now in let states = states_of kept.blocks.items in
        OnOk result (HasCountedBy every (λ equal. changes_along equal flow (states ∷ next flow states ∷ next flow (next flow states) ∷ []))
        (S.Gauge.count meter.old) (S.Gauge.count meter.new)) }
{
    let found = kept.copies(alloc)?;
    kept.round(alloc, code, edges, heads, false, every, meter)?;
    kept.round(alloc, code, edges, heads, false, every, meter)?;
    let inductive = kept.is_inductive(alloc, code, edges)?;
    if inductive {
        let states = kept.into_states(alloc)?;
        return Ok(states);
    }
    Ok(found)
}

/// Whether blocks and edges have numbers of 32 bits.
fn are_numbered(graph: &Graph) -> bool
    ensures { IsTrue result ↔ ((length graph.now.blocks < 2 ^ 32) × (length graph.now.edges < 2 ^ 32)) }
{
    let most = u32::MAX as usize;
    graph.blocks.as_slice().len() <= most && graph.edges.as_slice().len() <= most
}

/// The states where the analysis of code settles, where blocks and edges have numbers of 32 bits.
fn numbered_limit<S: FlowState + Drop>(
    alloc: Global,
    code: &S::Code,
    graph: &Graph,
    every: bool,
    meter: &mut S::Gauge,
) -> Result<States<S>, NoMemory>
    requires lawful { S.lawful code.now }
    requires graph { IsGraphOf (flow_of S.FlowState.own S.Lattice code.now) graph.now }
    requires numbered { AreNumbered (flow_of S.FlowState.own S.Lattice code.now) }
    ensures value { IfOk result (λ states. states.items ≡ limit (flow_of S.FlowState.own S.Lattice code.now)) }
    ensures fit { IfOk result (λ states. FitBlocks (flow_of S.FlowState.own S.Lattice code.now) (S.fits code.now) states.items) }
    ensures work { HasCountedAtMostBy every (λ equal. work equal (flow_of S.FlowState.own S.Lattice code.now)) (S.Gauge.count meter.old) (S.Gauge.count meter.new) }
    ensures ticked { OnOk result
        (HasCountedBy every (λ equal. work equal (flow_of S.FlowState.own S.Lattice code.now)) (S.Gauge.count meter.old) (S.Gauge.count meter.new)) }
{
    let edges = graph.edges.as_slice();
    let count = graph.blocks.as_slice().len();
    let heads = heads(alloc, count, edges)?;
    let marks = heads.as_slice();
    let mut kept = Kept::begin(alloc, code, count, edges, meter)?;
    seek_or_forget(alloc, code, edges, marks, &mut kept, every, meter)?;
    let states = settle(alloc, code, edges, marks, kept, every, meter)?;
    Ok(states)
}

/// The states where the analysis of code settles, one for each block. In each round every edge is computed, or those
/// whose source has changed. `NoMemory` also where there are 2^32 blocks or edges, or more.
pub(crate) fn kept_limit<S: FlowState + Drop>(
    alloc: Global,
    code: &S::Code,
    graph: &Graph,
    every: bool,
    meter: &mut S::Gauge,
) -> Result<States<S>, NoMemory>
    requires lawful { S.lawful code.now }
    requires graph { IsGraphOf (flow_of S.FlowState.own S.Lattice code.now) graph.now }
    ensures value { IfOk result (λ states. states.items ≡ limit (flow_of S.FlowState.own S.Lattice code.now)) }
    ensures fit { IfOk result (λ states. FitBlocks (flow_of S.FlowState.own S.Lattice code.now) (S.fits code.now) states.items) }
    ensures work { HasCountedAtMostBy every (λ equal. work equal (flow_of S.FlowState.own S.Lattice code.now)) (S.Gauge.count meter.old) (S.Gauge.count meter.new) }
    ensures ticked { OnOk result
        (HasCountedBy every (λ equal. work equal (flow_of S.FlowState.own S.Lattice code.now)) (S.Gauge.count meter.old) (S.Gauge.count meter.new)) }
{
    if !are_numbered(graph) {
        return Err(AllocError);
    }
    numbered_limit(alloc, code, graph, every, meter)
}

/// The states where the analysis of code settles, one for each block.
///
/// At first nothing is reached anywhere. A round joins what flows into each block along its edges, and from the third
/// round on heads of loops are widened. The states of the first inductive round are carried on for two plain rounds,
/// and are the answer themselves where that is not inductive. Where no round is inductive up to number 40 and four for
/// each block, nothing is known, and that is carried on in the same way. `NoMemory` where memory runs out, which
/// 2^32 blocks or edges count as.
///
/// Cost: in each round one walk along each edge, and besides what [`kept_rounds`](crate::kept_rounds) costs.
pub fn limit<S: FlowState + Drop>(
    alloc: Global,
    code: &S::Code,
    graph: &Graph,
    meter: &mut S::Gauge,
) -> Result<Vec<S>, NoMemory>
    requires lawful { S.lawful code.now }
    requires graph { IsGraphOf (flow_of S.FlowState.own S.Lattice code.now) graph.now }
    ensures value { IfOk result (λ states. states.items ≡ limit (flow_of S.FlowState.own S.Lattice code.now)) }
    ensures fit { IfOk result (λ states. FitBlocks (flow_of S.FlowState.own S.Lattice code.now) (S.fits code.now) states.items) }
    // They are inductive, or nothing is known.
    ensures settled { let flow = flow_of S.FlowState.own S.Lattice code.now in
        IfOk result (λ states. (is_inductive flow states.items ≡ true) ⊎ (states.items ≡ all_unknown flow)) }
    // Each edge is computed in each round, and in every answer no other is counted.
    ensures ticked { let flow = flow_of S.FlowState.own S.Lattice code.now in
        OnOk result (S.Gauge.count meter.new ≡ after_ticks (length (rounds flow) * flow.edges) (S.Gauge.count meter.old)) }
    ensures most { let flow = flow_of S.FlowState.own S.Lattice code.now in
        S.Gauge.count meter.new ≤ S.Gauge.count meter.old + length (rounds flow) * flow.edges }
{
    kept_limit(alloc, code, graph, true, meter)
}

/// The states where the analysis of code settles, one for each block, as [`limit`](crate::limit) tells it.
///
/// The state along an edge is kept, and computed again only where that of its source has changed. A block is joined
/// again only where the state along an edge to it is another one, and a head is widened in each late round until that
/// gives the state that it has. So the meter rises by at most the `work` of the rounds: by one for each edge, and then
/// for each round by the number of edges whose source has another state than before, as `same` tells. `NoMemory` where
/// memory runs out, which 2^32 blocks or edges count as.
///
/// Cost: besides, in each round a look at each block and each edge, a comparison for each edge up to the first that is
/// not carried, but for those that were found carried and where neither the state along the edge nor that of its
/// target is another one since, and a join for each edge to a block that is joined again. One state is kept for each
/// edge, and at most two for each block.
pub fn kept_rounds<S: FlowState + Drop>(
    alloc: Global,
    code: &S::Code,
    graph: &Graph,
    meter: &mut S::Gauge,
) -> Result<States<S>, NoMemory>
    requires lawful { S.lawful code.now }
    requires graph { IsGraphOf (flow_of S.FlowState.own S.Lattice code.now) graph.now }
    ensures value { IfOk result (λ states. states.items ≡ limit (flow_of S.FlowState.own S.Lattice code.now)) }
    // In every answer.
    ensures work { let flow = flow_of S.FlowState.own S.Lattice code.now in
        S.Gauge.count meter.new ≤ S.Gauge.count meter.old + work S.equal flow }
    ensures ticked { let flow = flow_of S.FlowState.own S.Lattice code.now in
        OnOk result (S.Gauge.count meter.new ≡ after_ticks (work S.equal flow) (S.Gauge.count meter.old)) }
{
    kept_limit(alloc, code, graph, false, meter)
}
