//! Runs with one argument list.

ghost use Rattle.std.specs.Prelude.{◌≡◌, Some, MatchOption, is_some};
ghost use Rattle.cil_eval.specs.Machines.{IsSameMachine};
ghost use Rattle.cil_eval.specs.RunWorlds.{CanBeRun};
ghost use Rattle.witness_search.specs.Searches.{EndsInNoFault, ending, is_started, search_limits};

use cil_eval::{Limits, Machine, Stop};
use cil_model::{Arg, FaultKind};

/// The limits of each run.
pub(crate) const LIMITS: Limits = Limits {
    steps: 10_000,
    cells: 65_536,
    depth: 100,
};

/// A fault in which a run ended.
#[derive(Clone, Copy)]
pub(crate) struct Fault {
    pub kind: FaultKind,
    /// The index in the world of the unit that it is in.
    pub unit: u32,
    /// Its IL offset.
    pub at: u32,
}

/// The fault in which a run ended, if it ended in one.
pub(crate) fn fault_in(stop: Option<Stop>) -> Option<Fault>
    ensures { MatchOption result (EndsInNoFault stop) (λ fault. stop ≡ Some (Stop.Fault fault.kind fault.unit fault.at)) }
{
    match stop {
        Some(Stop::Fault(kind, unit, at)) => Some(Fault { kind, unit, at }),
        _ => None,
    }
}

/// How a run of the method of this unit ends with these arguments. None where it does not start.
pub(crate) fn ending(machine: &mut Machine<'_>, unit: u32, args: &[Arg]) -> Option<Stop>
    requires can { CanBeRun machine.old.world }
    requires limits { machine.old.limits ≡ search_limits }
    ensures ending { result ≡ ending machine.old.world unit args.now }
    ensures started { is_some result ≡ is_started machine.old.world unit args.now }
    ensures same { IsSameMachine machine.old machine.new }
{
    let Ok(()) = machine.start(unit, args) else {
        return None;
    };
    Some(machine.run(LIMITS.steps))
}
