//! What is asked of an assembly.

ghost use Rattle.method_unit.specs.Units.{IsUnit};
ghost use Rattle.unit_builder.specs.Outcomes.{IfAnalysed};

use crate::texts::{entries_text, hex_text, tokens_text, world_text};
use asm_image::Assembly;
use method_unit::unit_bytes;
use rule_text::{Failure, check};
use std::alloc::{AllocError, Global};
use unit_builder::{Outcome, Units, WorldRefusal, build_units, callee_tokens, world_of};

/// `entries a = 06000001 N.C::f(int32) unit | 06000002 N.C::g() Instance`: what comes of each method.
pub fn entries(alloc: Global, assembly: &Assembly<'_>, told: &str) -> Result<(), Failure> {
    let entries = build_units(alloc, assembly)?;
    check(entries_text(alloc, &entries)?, told)
}

/// The bytes of the unit, or `none`.
fn unit_text(alloc: Global, outcome: &Outcome) -> Result<String, AllocError>
    requires { IfAnalysed outcome.now IsUnit }
{
    match outcome {
        Outcome::Analysed(unit) => hex_text(alloc, &unit_bytes(alloc, unit.unit())?),
        Outcome::Skipped(_) => String::from_str(alloc, "none"),
    }
}

/// `unit a 0 = 43435532..`: the unit of a method, in form 2.
pub fn unit(
    alloc: Global,
    assembly: &Assembly<'_>,
    index: usize,
    told: &str,
) -> Result<(), Failure> {
    let entries = build_units(alloc, assembly)?;
    if index >= entries.len() {
        return Err(Failure::Unmet("the method is there"));
    }
    check(unit_text(alloc, &entries[index].outcome)?, told)
}

/// `callees a 0 = 06000003 06000002`: the methods that a method calls.
pub fn callees(
    alloc: Global,
    assembly: &Assembly<'_>,
    index: usize,
    told: &str,
) -> Result<(), Failure> {
    let entries = build_units(alloc, assembly)?;
    let Some(entry) = entries.get(index) else {
        return Err(Failure::Unmet("the method is there"));
    };
    let tokens = callee_tokens(alloc, assembly, entry)?;
    check(tokens_text(alloc, &tokens)?, told)
}

/// `world a 0 = N.C::f 2 1 | N.C::h | N.C::g 0`: the units of the world of a method, with the indexes of their callees.
/// `world a 0 = without 06000002`: the method reaches this one, which has no unit.
pub fn world(
    alloc: Global,
    assembly: &Assembly<'_>,
    index: usize,
    told: &str,
) -> Result<(), Failure> {
    let Some(row) = assembly.methods().get(index) else {
        return Err(Failure::Unmet("the method is there"));
    };
    let token = row.token;
    if assembly.method(token).is_none() {
        return Err(Failure::Unmet("the method is there"));
    }
    let found = match world_of(alloc, Units::of(alloc, assembly)?, token) {
        Ok(world) => world_text(alloc, &world)?,
        Err(WorldRefusal::NotAnalysed(token)) => format!(in alloc; "without {:08x}", token.0)?,
        Err(WorldRefusal::NoMemory) => return Err(Failure::NoMemory),
    };
    check(found, told)
}
