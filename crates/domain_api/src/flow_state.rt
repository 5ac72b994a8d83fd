//! States that flow along the edges of code.

ghost use Rattle.std.specs.Prelude.{◌≡◌, ◌<◌, ◌↔◌, ℕ, Bool, true, IfOk, IsTrue};
ghost use Rattle.domain_api.specs.Meter.{after_tick};

use crate::NoMemory;
use crate::lattice::Lattice;
use crate::meter::Meter;
use std::alloc::Global;

/// What is known at the start of a block of code, where the blocks are joined by edges.
pub trait FlowState: Lattice {
    /// The code.
    type Code;

    /// What counts the edges that are walked.
    type Gauge: Meter;

    /// Code whose states can be told. All that follows is said of such code.
    ghost lawful: { Self.Code → Type 0 };

    /// The numbers of blocks and of edges that the code has.
    ghost block_count: { Self.Code → ℕ };

    ghost edge_count: { Self.Code → ℕ };

    /// The blocks where an edge begins and ends.
    ghost source: { Self.Code → ℕ → ℕ };

    ghost target: { Self.Code → ℕ → ℕ };

    /// The state has the form of those at the start of a block.
    ghost fits: { Self.Code → ℕ → Self → Type 0 };

    /// A run of the code begins at the point.
    ghost begins: { Self.Code → Self.Point → Type 0 };

    /// A run goes along an edge from the first point, at the start of the edge's source, to the second, at
    /// the start of its target.
    ghost goes: { Self.Code → ℕ → Self.Point → Self.Point → Type 0 };

    /// The state after an edge, from the one before it.
    ghost along: { Self → Self.Code → ℕ → Self };

    /// The state before the last instruction of a block, from the one at its start.
    ghost through: { Self → Self.Code → ℕ → Self };

    /// The state after an edge, from the one before the last instruction of its source.
    ghost leaving: { Self → Self.Code → ℕ → Self };

    /// The state where the code begins.
    ghost entry: { Self.Code → Self };

    /// The state of a block about which nothing is known.
    ghost unknown: { Self.Code → ℕ → Self };

    /// The state of what is never reached.
    ghost nothing: { Self };

    /// Whether two states are equal, as `same` answers.
    ghost equal: { Self → Self → Bool };

    /// The state after an edge. It ticks the meter once, whatever it answers.
    fn along_edge(
        &self,
        alloc: Global,
        code: &Self::Code,
        edge: u32,
        meter: &mut Self::Gauge,
    ) -> Result<Self, NoMemory>
        requires lawful { lawful code.now }
        requires edge { edge < edge_count code.now }
        requires fits { fits code.now (source code.now edge) self.now }
        ensures value { IfOk result (λ behind. behind ≡ along self.now code.now edge) }
        ensures ticked { Self.Gauge.count meter.new ≡ after_tick (Self.Gauge.count meter.old) };

    /// The state before the last instruction of a block, from the one at its start.
    fn before_last(&self, alloc: Global, code: &Self::Code, block: u32) -> Result<Self, NoMemory>
        requires lawful { lawful code.now }
        requires block { block < block_count code.now }
        requires fits { fits code.now block self.now }
        ensures { IfOk result (λ before. before ≡ through self.now code.now block) };

    /// The state after an edge, from the one before the last instruction of its source. It ticks the meter once,
    /// whatever it answers.
    fn leave(
        self,
        alloc: Global,
        code: &Self::Code,
        edge: u32,
        meter: &mut Self::Gauge,
    ) -> Result<Self, NoMemory>
        requires lawful { lawful code.now }
        requires edge { edge < edge_count code.now }
        // It comes of a state that fits the source.
        requires came { (first : Self) × fits code.now (source code.now edge) first ×
            (self ≡ through first code.now (source code.now edge)) }
        ensures value { IfOk result (λ behind. behind ≡ leaving self code.now edge) }
        ensures ticked { Self.Gauge.count meter.new ≡ after_tick (Self.Gauge.count meter.old) };

    /// The same state again.
    fn copy(&self, alloc: Global) -> Result<Self, NoMemory>
        ensures { IfOk result (λ again. again ≡ self.now) };

    /// Returns whether two states are equal.
    fn same(&self, other: &Self) -> bool
        ensures { IsTrue result ↔ (self.now ≡ other.now) };

    /// The state of what is never reached.
    fn nothing() -> Self
        ensures { result ≡ nothing };

    /// The state where the code begins.
    fn entry(alloc: Global, code: &Self::Code) -> Result<Self, NoMemory>
        requires { lawful code.now }
        ensures { IfOk result (λ state. state ≡ entry code.now) };

    /// The state of a block about which nothing is known.
    fn unknown(alloc: Global, code: &Self::Code, block: u32) -> Result<Self, NoMemory>
        requires lawful { lawful code.now }
        requires block { block < block_count code.now }
        ensures { IfOk result (λ state. state ≡ unknown code.now block) };

    ghost equal_exact: { (a b : Self) → (equal a b ≡ true) ↔ (a ≡ b) };

    ghost first_block: { (code : Self.Code) → lawful code → 0 < block_count code };

    ghost source_below: { (code : Self.Code) (edge : ℕ) → lawful code → edge < edge_count code →
        source code edge < block_count code };

    ghost target_below: { (code : Self.Code) (edge : ℕ) → lawful code → edge < edge_count code →
        target code edge < block_count code };

    // States of one block may be joined, and the outcome is one of that block.
    ghost fitting_like: { (code : Self.Code) (block : ℕ) (a b : Self) → lawful code → fits code block a → fits code block b →
        Self.like a b };

    ghost join_fits: { (code : Self.Code) (block : ℕ) (a b : Self) → lawful code → fits code block a → fits code block b →
        fits code block (Self.join a b) };

    ghost widen_fits: { (code : Self.Code) (block : ℕ) (a b : Self) → lawful code → fits code block a → fits code block b →
        fits code block (Self.widen a b) };

    // A block and then the edge that leaves it come to the same as the edge.
    ghost along_is: { (code : Self.Code) (edge : ℕ) (a : Self) → lawful code → edge < edge_count code →
        along a code edge ≡ leaving (through a code (source code edge)) code edge };

    // What holds before an edge's steps holds, carried along the edge, after them.
    ghost along_fits: { (code : Self.Code) (edge : ℕ) (a : Self) → lawful code → edge < edge_count code →
        fits code (source code edge) a → fits code (target code edge) (along a code edge) };

    ghost along_holds: { (code : Self.Code) (edge : ℕ) (a : Self) (p q : Self.Point) → lawful code → edge < edge_count code →
        fits code (source code edge) a → Self.holds a p → goes code edge p q → Self.holds (along a code edge) q };

    ghost entry_fits: { (code : Self.Code) → lawful code → fits code 0 (entry code) };

    ghost entry_holds: { (code : Self.Code) (p : Self.Point) → lawful code → begins code p → Self.holds (entry code) p };

    ghost unknown_fits: { (code : Self.Code) (block : ℕ) → lawful code → block < block_count code →
        fits code block (unknown code block) };

    ghost nothing_fits: { (code : Self.Code) (block : ℕ) → lawful code → block < block_count code → fits code block nothing };

    ghost nothing_holds: { (p : Self.Point) → Self.holds nothing p → ⊥ };
}
