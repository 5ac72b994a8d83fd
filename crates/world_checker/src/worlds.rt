//! Worlds, judged unit by unit.

ghost use Rattle.std.specs.Prelude.{◌≡◌, IfOk, IsTrue, length, map};
ghost use Rattle.std.specs.List.{AllByRecursion};
ghost use Rattle.obligation_prover.specs.Obligations.{obligations_of};
ghost use Rattle.unit_flow.specs.Flow.{IsLawful};
ghost use Rattle.world_checker.specs.WorldVerdicts.{MakesSafe, all_proved, verdicts_of_world};

use abs_state::Invariant;
use cil_model::List;
use domain_api::NoMemory;
use invariant_checker::{Verdict, judge};
use std::alloc::Global;
use unit_flow::UnitFlow;

/// The verdicts on each unit, under the invariant of its place.
fn judge_each(
    alloc: Global,
    codes: &[UnitFlow],
    invariants: &[Invariant],
) -> Result<Vec<List<Verdict>>, NoMemory>
    requires lawful { AllByRecursion IsLawful codes.now }
    requires count { length invariants.now ≡ length codes.now }
    ensures { IfOk result (λ found. found.items ≡ verdicts_of_world codes.now invariants.now) }
{
    let mut found = Vec::new(alloc);
    for unit in 0..codes.len() {
        let verdicts = judge(alloc, &codes[unit], &invariants[unit])?;
        found.push(List::from_vec(verdicts))?;
    }
    Ok(found)
}

/// Returns, for each unit of a world, whether each of its obligations is proved by an invariant, which may have come
/// from anywhere. There is an invariant for each unit, in their order.
///
/// Cost: that of `judge` for each unit.
pub fn judge_world(
    alloc: Global,
    codes: &[UnitFlow],
    invariants: &[Invariant],
) -> Result<Vec<List<Verdict>>, NoMemory>
    requires lawful { AllByRecursion IsLawful codes.now }
    requires count { length invariants.now ≡ length codes.now }
    // Each unit has the verdicts that `judge` finds of it.
    ensures value { IfOk result (λ found. found.items ≡ verdicts_of_world codes.now invariants.now) }
    // There is one for each obligation, in the order of the code.
    ensures each { IfOk result (λ found.
        map (map (λ verdict. verdict.obligation)) found.items ≡ map (λ code. obligations_of code.unit) codes.now) }
    // Where all are proved, each method is safe in every world of these units that agree on what they say of each
    // other.
    ensures sound { IfOk result (λ found. IsTrue (all_proved found.items) → MakesSafe codes.now) }
{
    let found = judge_each(alloc, codes, invariants)?;
    Ok(found)
}
