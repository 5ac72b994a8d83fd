//! The lines of a state.

ghost use Rattle.std.specs.Prelude.{◌≡◌, ◌++◌, true, OnOk};
ghost use Rattle.abs_state.specs.StateParts.{AreParts, known_of};
ghost use Rattle.state_facts.specs.StateFacts.{StateFacts};
ghost use Rattle.invariant_text.specs.Shape.{IsPrintable};
ghost use Rattle.invariant_text.specs.StateText.{state_lines};

use crate::references::{put_apart, put_references};
use crate::symbols::{put_bounds, put_definitions, put_symbols};
use crate::variables::put_variables;
use abs_state::Parts;
use cil_model::Unit;
use domain_api::NoMemory;
use std::alloc::Global;

/// Appends the lines of what is known in a state.
#[tactic(auto, unfolding(crate::specs::StateText::state_lines))]
fn put_lines(alloc: Global, out: &mut Vec<u8>, unit: &Unit, parts: &Parts) -> Result<(), NoMemory>
    requires reached { parts.now.reached ≡ true }
    requires formed { AreParts parts.now }
    ensures { OnOk result (out.new.items ≡ out.old.items ++ state_lines unit.now (known_of parts.now)) }
{
    put_variables(alloc, out, unit, parts.variables.as_slice())?;
    put_symbols(alloc, out, parts.ranges.as_slice())?;
    put_references(alloc, out, parts.references.as_slice(), &parts.contents)?;
    put_bounds(alloc, out, parts.bounds.as_slice())?;
    put_definitions(alloc, out, parts.definitions.as_slice())?;
    put_apart(out, parts.apart.as_slice())
}

/// Appends the lines of what is known in a state of the unit, where something is reached: variables, ranges of symbols,
/// references, bounds, definitions, and which references are apart.
///
/// Cost: one pass over the parts, linear in what is appended.
///
/// # Errors
///
/// Want of memory may leave some of the lines.
pub fn put_state_lines(
    alloc: Global,
    out: &mut Vec<u8>,
    unit: &Unit,
    parts: &Parts,
) -> Result<(), NoMemory>
    requires reached { parts.now.reached ≡ true }
    requires formed { AreParts parts.now }
    ensures value { OnOk result (out.new.items ≡ out.old.items ++ state_lines unit.now (known_of parts.now)) }
    // Two states of which different things are known have different lines.
    ensures distinct { (first second : StateFacts) → IsPrintable first → IsPrintable second
        → state_lines unit.now first ≡ state_lines unit.now second → first ≡ second }
{
    put_lines(alloc, out, unit, parts)
}
