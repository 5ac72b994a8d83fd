//! Code that is written once for any domain, at one domain.

ghost use Rattle.std.specs.Prelude.{◌≡◌, ℤ, ◌+ℤ◌, ◌<◌, FitsSigned, IfOk};
ghost use Rattle.std.specs.Int.{w64};

use crate::chain::{Chain, Reached};
use domain_api::{FlowState, NoMemory, Ticks, Values};
use interval_domain::Range;
use std::alloc::Global;
use std::test::Fail;

/// The sums of three numbers.
fn sum_of_three<V: Values>(a: &V, b: &V, c: &V) -> V
    ensures value { result ≡ V.add (V.add a.now b.now) c.now }
    ensures contains { (l m n : ℤ) → V.contains a.now l → V.contains b.now m → V.contains c.now n →
        FitsSigned w64 (l +ℤ m) → FitsSigned w64 (l +ℤ m +ℤ n) → V.contains result (l +ℤ m +ℤ n) }
{
    a.add(b).add(c)
}

/// The state behind the first edge, where it begins in the first block.
fn behind_first<S: FlowState + Drop>(
    alloc: Global,
    code: &S::Code,
    meter: &mut S::Gauge,
) -> Result<S, NoMemory>
    requires lawful { S.lawful code.now }
    requires edge { 0 < S.edge_count code.now }
    requires begins { S.source code.now 0 ≡ 0 }
    ensures value { IfOk result (λ state. state ≡ S.along (S.entry code.now) code.now 0) }
    ensures fits { IfOk result (λ state. S.fits code.now (S.target code.now 0) state) }
{
    let entry = S::entry(alloc, code)?;
    entry.along_edge(alloc, code, 0, meter)
}

/// The same, by way of the state before the last instruction of the first block.
fn behind_first_block<S: FlowState + Drop>(
    alloc: Global,
    code: &S::Code,
    meter: &mut S::Gauge,
) -> Result<S, NoMemory>
    requires lawful { S.lawful code.now }
    requires edge { 0 < S.edge_count code.now }
    requires begins { S.source code.now 0 ≡ 0 }
    ensures value { IfOk result (λ state. state ≡ S.along (S.entry code.now) code.now 0) }
{
    let entry = S::entry(alloc, code)?;
    let before = entry.before_last(alloc, code, 0)?;
    before.leave(alloc, code, 0, meter)
}

#[test]
fn the_second_block_is_reached(rt: HostRuntime) -> Result<(), Fail> {
    let mut ticks = Ticks { count: 0 };
    let state: Reached = behind_first(rt.alloc(), &Chain { more: 1 }, &mut ticks)?;
    assert_eq!(rt; state.is, true);
    assert_eq!(rt; ticks.count, 1);
    Ok(())
}

#[test]
fn the_second_block_is_reached_by_way_of_the_first(rt: HostRuntime) -> Result<(), Fail> {
    let mut ticks = Ticks { count: 0 };
    let state: Reached = behind_first_block(rt.alloc(), &Chain { more: 1 }, &mut ticks)?;
    assert_eq!(rt; state.is, true);
    assert_eq!(rt; ticks.count, 1);
    Ok(())
}

#[test]
fn three_ranges_are_added(rt: HostRuntime) {
    let sum = sum_of_three(&Range::constant(1), &Range::full(), &Range::constant(-1));
    assert_eq!(rt; sum.lo(), -2_147_483_648);
    assert_eq!(rt; sum.hi(), 2_147_483_647);
}
