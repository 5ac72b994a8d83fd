//! What no command shows of the machine: a run that is taken up again, and arrays of arguments for which there is no
//! room.

ghost use Rattle.std.specs.Prelude.{◌≡◌, ℕ, map, IfOk, IfSome};
ghost use Rattle.std.specs.List.{AllByRecursion};
ghost use Rattle.cil_model.specs.Worlds.{info_of};
ghost use Rattle.cil_eval.specs.RunWorlds.{CanBeRun};
ghost use Rattle.method_unit.specs.Units.{IsUnit};

use crate::steps::unit_of;
use cil_eval::{Limits, Machine, StartRefusal, Stop};
use cil_model::{Arg, List, Unit, Value, World};
use std::alloc::{AllocError, Global};
use std::process::Abort;
use std::test::Fail;

/// The indexes of the unit's callees in a world of its own, where it calls none.
fn own_callees(alloc: Global, unit: &Unit) -> Result<Option<Vec<u32>>, AllocError>
    ensures zeros { IfOk result (λ found. IfSome found (λ callees. AllByRecursion (λ (n : ℕ). n ≡ 0) callees.items)) }
    ensures are { IfOk result (λ found. IfSome found (λ callees. unit.now.callees ≡ map (λ (n : ℕ). info_of unit.now) callees.items)) }
{
    match unit.callees.as_slice() {
        [] => Ok(Some(Vec::new(alloc))),
        _ => Ok(None),
    }
}

/// The world of the unit alone, where it calls no method.
fn world_of(alloc: Global, unit: Unit) -> Result<Option<World>, AllocError>
    requires unit { IsUnit unit }
    ensures { IfOk result (λ found. IfSome found CanBeRun) }
{
    let Some(callees) = own_callees(alloc, &unit)? else {
        return Ok(None);
    };
    let mut lists = Vec::new(alloc);
    lists.push(List::from_vec(callees))?;
    let mut units = Vec::new(alloc);
    units.push(unit)?;
    Ok(Some(World {
        units: List::from_vec(units),
        callee: List::from_vec(lists),
    }))
}

/// An argument of a run.
enum Given {
    Int(i32),
    Ints(&'static [i32]),
    Same(u32),
}

use Given::{Int, Ints, Same};

/// A unit file.
type File = &'static [u8];

/// `Alias(int32[],int32[])`: puts 9 into the second array at 4, and loads from the first one at 7.
const ALIAS: File =
    b"CCU1\x10\0Demo.Calc::Alias\x02\x02\x04\x04\0\x03\0\0\x09\0\0\0\x03\x16\x1f\x09\x9e\x02\x16\x94\x2a";

/// An array and a number, which is required.
const NEEDS_ONE: File = b"CCU1\x04\0T::f\0\x02\x04\x02\0\x01\0\0\x07\0\0\0\x03\x28\x01\0\0\0\x2a";

/// Limits for small runs.
const WIDE: Limits = Limits {
    steps: 1000,
    cells: 100,
    depth: 10,
};

/// Arguments that no run starts with, and how many cells there are.
const REFUSED: [(File, &[Given], u32, StartRefusal); 3] = [
    // What is required comes before the cells, of which one is the array's own.
    (
        NEEDS_ONE,
        &[Ints(&[1]), Int(0)],
        0,
        StartRefusal::Requires(1),
    ),
    (NEEDS_ONE, &[Ints(&[1]), Int(1)], 1, StartRefusal::Cells),
    (ALIAS, &[Ints(&[1, 2]), Ints(&[])], 3, StartRefusal::Cells),
];

/// The argument that stands in a row.
fn arg_of(alloc: Global, given: &Given) -> Result<Arg, AllocError> {
    match given {
        Given::Int(n) => Ok(Arg::Int(*n)),
        Given::Same(k) => Ok(Arg::Same(*k)),
        Given::Ints(items) => {
            let items = Vec::from_slice(alloc, items)?;
            Ok(Arg::Ints(List::from_vec(items)))
        }
    }
}

/// The arguments that stand in a row.
fn args_of(alloc: Global, row: &[Given]) -> Result<Vec<Arg>, AllocError> {
    let mut args = Vec::new(alloc);
    for given in row {
        args.push(arg_of(alloc, given)?)?;
    }
    Ok(args)
}

/// The world of the unit of a file.
fn read_world(rt: &impl Abort, alloc: Global, file: &[u8]) -> Result<World, AllocError>
    ensures { IfOk result CanBeRun }
{
    let unit = unit_of(rt, alloc, file)?;
    match world_of(alloc, unit.into_unit())? {
        Some(world) => Ok(world),
        None => panic!(rt; "another method is called"),
    }
}

/// Why a run of a world's first method does not start with so many cells, if it does not.
fn refusal_of(
    alloc: Global,
    world: &World,
    args: &[Arg],
    cells: u32,
) -> Result<Option<StartRefusal>, AllocError>
    requires { CanBeRun world.now }
{
    let limits = Limits {
        steps: 1000,
        cells,
        depth: 10,
    };
    let mut machine = Machine::make(alloc, world, limits)?;
    Ok(machine.start(0, args).err())
}

#[test]
fn runs_do_not_start(rt: HostRuntime) -> Result<(), Fail> {
    let alloc = rt.alloc();
    for (file, given, cells, told) in REFUSED {
        let args = args_of(alloc, given)?;
        let world = read_world(&rt, alloc, file)?;
        assert!(rt;
            refusal_of(alloc, &world, &args, cells)? == Some(told),
            "{cells} cells"
        );
    }
    Ok(())
}

/// Returns whether a run starts.
fn starts(machine: &mut Machine<'_>, args: &[Arg]) -> bool {
    machine.start(0, args).is_ok()
}

/// Returns whether the run ends so within so many further steps.
fn ends_in(machine: &mut Machine<'_>, steps: u32, stop: Stop) -> bool {
    machine.run(steps) == stop
}

/// Returns whether one step more tells this.
fn steps_to(machine: &mut Machine<'_>, stop: Option<Stop>) -> bool {
    machine.step() == stop
}

/// Returns whether the machine has an array of these items there.
fn has_elements(machine: &Machine<'_>, array: u32, items: &[i32]) -> bool {
    match machine.elements(array) {
        Some(found) => found == items,
        None => false,
    }
}

/// Returns whether a run of `Alias` that is taken up and told again goes so.
fn goes_on(machine: &mut Machine<'_>) -> bool {
    let end = Stop::Returned(Some(Value::Int(9)));
    // The fourth instruction puts 9 into the array.
    ends_in(machine, 3, Stop::Steps)
        && has_elements(machine, 0, &[1, 2])
        && steps_to(machine, None)
        && has_elements(machine, 0, &[9, 2])
        && ends_in(machine, 10, end)
        && ends_in(machine, 0, end)
        && steps_to(machine, Some(end))
}

/// Returns whether a machine that was told to run another unit, and ran twice, did so.
fn starts_anew(machine: &mut Machine<'_>, same: &[Arg], two: &[Arg]) -> bool {
    machine.start(1, same) == Err(StartRefusal::Unit)
        && starts(machine, same)
        && goes_on(machine)
        && starts(machine, two)
        && ends_in(machine, 10, Stop::Returned(Some(Value::Int(1))))
        && has_elements(machine, 1, &[9, 5])
}

#[test]
fn a_machine_goes_on_and_starts_anew(rt: HostRuntime) -> Result<(), Fail> {
    let alloc = rt.alloc();
    let same = args_of(alloc, &[Ints(&[1, 2]), Same(0)])?;
    let two = args_of(alloc, &[Ints(&[1]), Ints(&[4, 5])])?;
    let world = read_world(&rt, alloc, ALIAS)?;
    let mut machine = Machine::make(alloc, &world, WIDE)?;
    assert!(rt; starts_anew(&mut machine, &same, &two));
    Ok(())
}
