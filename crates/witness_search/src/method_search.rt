//! The search.

ghost use Rattle.std.specs.Prelude.{◌≡◌, ◌<◌, true, IfOk, length, take};
ghost use Rattle.cil_eval.specs.RunWorlds.{CanBeRun};
ghost use Rattle.cil_model.specs.Runs.{Safe};
ghost use Rattle.witness_search.specs.Searches.{Tells, found_among, is_found, search_limits, searched, tried_lists};

use crate::answer::{Search, SearchRefusal};
use crate::lists::ArgumentLists;
use crate::trial::{LIMITS, ending, fault_in};
use cil_eval::Machine;
use cil_model::World;
use std::alloc::{AllocError, Global};

/// Tries up to `runs` of these lists with the method of this unit, up to the first with which its run ends in a fault.
#[tactic(auto, using(crate::proofs::FoundLemmas::nothing_tried, crate::proofs::FoundLemmas::found_one, crate::proofs::FoundLemmas::all_are_tried))]
fn first_fault(
    alloc: Global,
    machine: &mut Machine<'_>,
    mut lists: ArgumentLists,
    unit: u32,
    runs: u32,
) -> Result<Search, AllocError>
    requires can { CanBeRun machine.old.world }
    requires limits { machine.old.limits ≡ search_limits }
    ensures { IfOk result (λ found. found ≡ found_among machine.old.world unit (take runs lists)) }
{
    let mut started = 0;
    for tried in 0..runs {
        let Some(args) = lists.first() else {
            return Ok(Search::NotFound { tried, started });
        };
        let stop = ending(machine, unit, args);
        if let Some(fault) = fault_in(stop) {
            return Ok(Search::Found {
                args: lists.into_first(),
                kind: fault.kind,
                unit: fault.unit,
                at: fault.at,
            });
        }
        started += u32::from(stop.is_some());
        lists.go_on(alloc)?;
    }
    Ok(Search::NotFound {
        tried: runs,
        started,
    })
}

/// The search of a method, where memory may run out.
fn search_method(alloc: Global, world: &World, unit: u32, runs: u32) -> Result<Search, AllocError>
    requires world { CanBeRun world.now }
    requires unit { unit < length world.now.units }
    ensures { IfOk result (λ found. found ≡ searched world.now unit runs) }
{
    let method = &world.units.as_slice()[unit as usize];
    let lists = ArgumentLists::make(alloc, method.args.as_slice())?;
    let mut machine = Machine::make(alloc, world, LIMITS)?;
    first_fault(alloc, &mut machine, lists, unit, runs)
}

/// Tries the method of this unit with small arguments, and answers the first of the argument lists with which its run
/// ends in a fault. Up to `runs` lists are tried, each from a new start, under limits of 10,000 steps, 65,536 cells and
/// 100 frames.
///
/// Takes memory for one run, and for the values of each parameter.
///
/// # Errors
///
/// Memory runs out.
#[tactic(auto, using(crate::proofs::ToldLemmas::tells, crate::proofs::FaultyRuns::found_is_unsafe))]
pub fn search(alloc: Global, world: &World, unit: u32, runs: u32) -> Result<Search, SearchRefusal>
    requires world { CanBeRun world.now }
    requires unit { unit < length world.now.units }
    ensures value { IfOk result (λ found. found ≡ searched world.now unit runs) }
    // Of the lists that are tried, the list found is the first with a fault, or none has one.
    ensures told { IfOk result (Tells world.now unit (tried_lists world.now unit runs)) }
    // A method with which a fault is found is not safe.
    ensures not_safe { IfOk result (λ found. is_found found ≡ true → Safe world.now unit → ⊥) }
{
    Ok(search_method(alloc, world, unit, runs)?)
}
