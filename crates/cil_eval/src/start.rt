//! How runs start.

ghost use Rattle.std.specs.Prelude.{◌≡◌, ◌≤◌, MatchResult, Some, None, slice_get, true};
ghost use Rattle.cil_model.specs.Limits.{MAX_VARIABLES};
ghost use Rattle.cil_model.specs.declared.machine.World.{World};
ghost use Rattle.cil_eval.specs.Capacity.{HoldDepth};
ghost use Rattle.cil_eval.specs.Flows.{AreRunnable, IsRunnable};
ghost use Rattle.clause_eval.specs.GivenArrays.{heap_of};
ghost use Rattle.cil_eval.specs.Given.{args_fit as args_do_fit, values_of};
ghost use Rattle.cil_eval.specs.Starts.{IsAdmitted, IsBegun, start_refusal};
ghost use Rattle.clause_eval.specs.Stores.{cells_of};

use crate::enter::begin;
use crate::frames::Frames;
use crate::given::{args_fit, have_cells, put_arrays, put_values_of};
use crate::limits::Limits;
use crate::start_refusal::StartRefusal;
use crate::turn::unit_at;
use cil_model::{Arg, Unit, Value, World};
use clause_eval::{Arrays, Memory, Pile, false_requires};

/// The unit of an index, where a run of its method may start with these arguments. Their values are left on a list.
#[tactic(auto, using(crate::proofs::StartLemmas::fit_long, crate::proofs::StartLemmas::fit_short, crate::proofs::TurnLemmas::runnable))]
pub(crate) fn admitted<'w>(
    world: &'w World,
    limits: Limits,
    index: u32,
    args: &[Arg],
    values: &mut Pile<Value>,
) -> Result<&'w Unit, StartRefusal>
    requires runnable { AreRunnable world.now }
    requires room { values.old.room ≡ MAX_VARIABLES }
    ensures admitted { MatchResult result (λ unit. IsAdmitted world.now limits index args.now values.new.top unit.now) (λ refusal. start_refusal world.now limits index args.now ≡ Some refusal) }
    ensures room { values.new.room ≡ MAX_VARIABLES }
{
    let Some(unit) = unit_at(world, index) else {
        return Err(StartRefusal::Unit);
    };
    if !args_fit(unit.args.as_slice(), args) {
        return Err(StartRefusal::Arguments);
    }
    values.clear();
    put_values_of(args, values);
    if let Some(k) = false_requires(unit.clauses_in_force(), values, Arrays::Given(args)) {
        return Err(StartRefusal::Requires(k));
    }
    if !have_cells(args, limits.cells as usize) {
        return Err(StartRefusal::Cells);
    }
    Ok(unit)
}

/// Begins a run that was admitted, in place of the one before.
#[tactic(auto, using(crate::proofs::StartLemmas::fit_short, crate::proofs::Beginnings::few_values, crate::proofs::Beginnings::room_to_begin, crate::proofs::Beginnings::begun_for))]
pub(crate) fn reset(
    unit: &Unit,
    index: u32,
    args: &[Arg],
    values: &Pile<Value>,
    limits: Limits,
    frames: &mut Frames,
    memory: &mut Memory,
)
    requires runnable { IsRunnable unit.now }
    requires fit { args_do_fit unit.now.args args.now ≡ true }
    requires cells { cells_of (heap_of args.now) ≤ memory.old.limit }
    requires values { values.now.top ≡ values_of args.now }
    requires room { HoldDepth limits.depth frames.old }
    ensures begun { (w : World) → slice_get w.units index ≡ Some unit.now → IsBegun w index args.now unit.now frames.new memory.new }
    ensures room { HoldDepth limits.depth frames.new }
    ensures limit { memory.new.limit ≡ memory.old.limit }
{
    memory.clear();
    put_arrays(args, memory);
    frames.clear();
    begin(unit, index, values, frames, memory);
}
