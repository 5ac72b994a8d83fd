//! Which methods a method reaches by calls.
//!
//! A method of which a callee is not analysed is analysed itself: what is known of the callee is its types, and its
//! clauses where these read. To run it, all that its calls can reach has to be analysed, also where the run never comes
//! there.

ghost use Rattle.std.specs.Prelude.{◌≡◌, ◌+◌, ◌≤◌, ◌^◌, [], length, IfOk, IsSome};
ghost use Rattle.asm_image.specs.Bodies.{method_of};
ghost use Rattle.asm_image.specs.Rows.{methods_of};
ghost use Rattle.unit_builder.specs.Met.{first_method};
ghost use Rattle.unit_builder.specs.Walks.{IsWhole, Tells, calls_in};

use crate::entry::Outcome;
use crate::met::{Met, index_of};
use crate::units::Units;
use asm_image::Assembly;
use cc_base::{NoMemory, Token};
use cil_model::Unit;
use std::alloc::Global;

/// A method that was visited: its unit, and the methods that it calls.
#[derive(Drop)]
pub(crate) struct Visited {
    pub unit: Unit,
    /// In order of first use.
    pub callees: Vec<Token>,
}

/// Visits a method. Returns None of one that is not analysed.
fn visit(alloc: Global, units: &mut Units<'_>, token: Token) -> Result<Option<Visited>, NoMemory>
    requires there { IsSome (method_of units.old token) }
    ensures same { units.new ≡ units.old }
    ensures told { IfOk result (Tells units.old token.0) }
{
    let index = token.row() as usize - 1;
    match units.outcome(alloc, index)? {
        Outcome::Analysed(unit) => {
            let callees = units.callees(alloc, index)?;
            let unit = unit.into_unit();
            Ok(Some(Visited { unit, callees }))
        }
        Outcome::Skipped(_) => Ok(None),
    }
}

/// The methods that a visited one calls.
fn calls_in(visited: &Option<Visited>) -> &[Token]
    ensures { result.now ≡ calls_in visited.now }
{
    match visited {
        Some(visited) => &visited.callees,
        None => &[],
    }
}

/// Returns how many methods an assembly has.
fn method_count(assembly: &Assembly<'_>) -> usize
    ensures value { result ≡ length (methods_of assembly.now) }
    ensures short { first_method + result ≤ 2 ^ 32 }
{
    match assembly.methods().last() {
        Some(last) => index_of(last.token) + 1,
        None => 0,
    }
}

/// No method of an assembly.
pub(crate) fn none_met(alloc: Global, assembly: &Assembly<'_>) -> Result<Met, NoMemory>
    ensures { IfOk result (λ met. met ≡ record { count = length (methods_of assembly.now); tokens = [] }) }
{
    Met::none(alloc, method_count(assembly))
}

/// The methods that a method reaches, in the order in which they were met.
#[derive(Drop)]
pub(crate) struct Reached {
    pub met: Met,
    /// What was made of each; none of a method that is not analysed.
    pub visits: Vec<Option<Visited>>,
}

/// Visits a method and all that it reaches, each once.
pub(crate) fn walk(alloc: Global, units: &mut Units<'_>, from: Token) -> Result<Reached, NoMemory>
    requires there { IsSome (method_of units.old from) }
    ensures same { units.new ≡ units.old }
    ensures count { IfOk result (λ reached. reached.met.count ≡ length (methods_of units.old)) }
    ensures whole { IfOk result (λ reached. IsWhole units.old from.0 reached.met.tokens reached.visits.items) }
{
    let mut met = none_met(alloc, units.assembly())?;
    met.meet(from)?;
    let mut visits = Vec::new(alloc);
    'visit: while visits.len() < met.len() {
        let visited = visit(alloc, units, met.tokens()[visits.len()])?;
        met.meet_all(calls_in(&visited))?;
        visits.push(visited)?;
    }
    Ok(Reached { met, visits })
}
