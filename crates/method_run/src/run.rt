//! Runs of methods.

ghost use Rattle.std.specs.Prelude.{◌≡◌, ◌≤◌, All, IfOk, IsTrue, Some, length, map, slice_get, string_bytes};
ghost use Rattle.cil_eval.specs.RunWorlds.{CanBeRun};
ghost use Rattle.run_arguments.specs.Arguments.{is_argument};
ghost use Rattle.method_run.specs.RunAnswers.{IsTold, run_answer, run_limits, unit_answer};

use crate::answer::RunAnswer;
use crate::arguments::read_arguments;
use crate::ends::{end_answer, refusal_answer};
use cil_eval::{Limits, Machine};
use cil_model::{Arg, List, Unit, World};
use std::alloc::{AllocError, Global};

/// The most cells that the arrays of a run take.
const MAX_CELLS: u32 = 16_777_216;

/// The most frames of a run.
const MAX_DEPTH: u32 = 1_000;

/// The limits of a run of so many steps.
fn run_limits(steps: u32) -> Limits
    ensures limits { result ≡ run_limits steps }
    ensures depth { 1 ≤ result.depth }
{
    Limits {
        steps,
        cells: MAX_CELLS,
        depth: MAX_DEPTH,
    }
}

/// Runs the first method of a world, which is this unit's, with these arguments, under limits, and answers how the run
/// ended.
fn run_unit(
    alloc: Global,
    world: &World,
    unit: &Unit,
    args: &[Arg],
    limits: Limits,
) -> Result<RunAnswer, AllocError>
    requires world { CanBeRun world.now }
    requires depth { 1 ≤ limits.depth }
    requires first { slice_get world.now.units 0 ≡ Some unit.now }
    ensures answer { IfOk result (λ answer. answer ≡ unit_answer world.now limits unit.now args.now) }
    ensures told { IfOk result IsTold }
{
    let mut machine = Machine::make(alloc, world, limits)?;
    if let Err(refusal) = machine.start(0, args) {
        return refusal_answer(alloc, limits, refusal);
    }
    let stop = machine.run(limits.steps);
    end_answer(alloc, world, limits, unit.result, &machine, stop)
}

/// Runs the first method of a world with arguments that are words, in so many steps at most, and answers how the run
/// ended, or why it does not start. The arrays of a run take up to 16,777,216 cells, and up to 1,000 methods call each
/// other.
///
/// Takes the memory of these cells and frames, and time in proportion to the steps and to the words and the line.
///
/// # Errors
///
/// Memory runs out.
pub fn run_method(
    alloc: Global,
    world: &World,
    words: &[String],
    steps: u32,
) -> Result<RunAnswer, AllocError>
    requires world { CanBeRun world.now }
    requires words { All (λ word. IsTrue (is_argument (string_bytes word))) words.now }
    ensures answer { IfOk result (λ answer. answer ≡ run_answer world.now (map (λ word. string_bytes word) words.now) steps) }
    // No run gets stuck: where the world has a method, there is something to print.
    ensures told { 1 ≤ length world.now.units → IfOk result IsTold }
{
    let Some(unit) = world.units.as_slice().first() else {
        return Ok(RunAnswer::Misfit(List::from_vec(Vec::new(alloc))));
    };
    let args = read_arguments(alloc, words, unit.args.as_slice())?;
    run_unit(alloc, world, unit, &args, run_limits(steps))
}
