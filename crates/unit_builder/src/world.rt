//! The world of a method.

ghost use Rattle.std.specs.Prelude.{◌≡◌, ◌<◌, ◌↔◌, ℕ, List, None, Some, true, length, map, filter_map, IfOk, OnOk, IsSome, slice_index, slice_index_or, slice_set};
ghost use Rattle.std.specs.List.{AllByRecursion};
ghost use Rattle.asm_image.specs.Bodies.{method_of};
ghost use Rattle.asm_image.specs.Rows.{methods_of};
ghost use Rattle.cil_model.specs.Worlds.{Agree};
ghost use Rattle.unit_builder.specs.Met.{IsAmong, place_in};
ghost use Rattle.method_unit.specs.Units.{IsUnit};
ghost use Rattle.unit_builder.specs.Reach.{Reaches};
ghost use Rattle.unit_builder.specs.Walks.{IsWhole, calls_of, is_reached, numbers, unit_at};
ghost use Rattle.unit_builder.specs.WorldOf.{IfNotAnalysed, IsLeastSkipped, JudgesWorld, PutsNext, UnlessNoMemory, least_skipped, places_in, places_made, unit_made, world_of, world_tokens};
ghost use Rattle.unit_builder.specs.declared.world.WorldRefusal.TheVariants.{NoMemory};

use crate::met::Met;
use crate::reach::{Reached, Visited, none_met, walk};
use crate::units::Units;
use asm_image::Assembly;
use cc_base::Token;
use cil_model::{List, Unit, World};
use std::alloc::{AllocError, AllocFailed, Global};

/// Why a method has no world.
#[derive(Clone, Copy, Debug, PartialEq, Eq)]
pub enum WorldRefusal {
    /// The method reaches this one, which is not analysed. It is the first such one in the table MethodDef.
    NotAnalysed(Token),
    /// Memory ran out.
    NoMemory,
}

impl From<AllocError> for WorldRefusal {
    ghost from_gives = { λ _ e. e ≡ NoMemory };

    fn from(_error: AllocError) -> WorldRefusal {
        WorldRefusal::NoMemory
    }
}

/// Puts a method after the others, where it was reached and is not among them.
fn put_next(order: &mut Met, reached: &Reached, token: Token) -> Result<(), WorldRefusal>
    requires among { IsAmong order.old.count token.0 }
    requires all { length reached.now.visits.items ≡ length reached.now.met.tokens }
    ensures count { OnOk result (order.new.count ≡ order.old.count) }
    ensures put { (asm : List ℕ) (from : ℕ) → IsWhole asm from reached.now.met.tokens reached.now.visits.items
        → PutsNext asm from token.0 order.old.tokens order.new.tokens result }
{
    let Some(place) = reached.met.place(token) else {
        return Ok(());
    };
    if reached.visits[place as usize].is_none() {
        return Err(WorldRefusal::NotAnalysed(token));
    }
    order.meet(token)?;
    Ok(())
}

/// The methods of a world in its order.
fn order_of(
    alloc: Global,
    assembly: &Assembly<'_>,
    reached: &Reached,
    first: Token,
) -> Result<Met, WorldRefusal>
    requires there { IsSome (method_of assembly.now first) }
    requires whole { IsWhole assembly.now first.0 reached.now.met.tokens reached.now.visits.items }
    ensures judged { JudgesWorld result (least_skipped assembly.now first.0) (λ order. order.tokens ≡ world_tokens assembly.now first.0) }
{
    let mut order = none_met(alloc, assembly)?;
    order.meet(first)?;
    for method in assembly.methods() {
        put_next(&mut order, reached, method.token)?;
    }
    Ok(order)
}

/// The places of methods in the order of a world.
fn places_in(alloc: Global, order: &Met, tokens: &[Token]) -> Result<List<u32>, AllocError>
    ensures { IfOk result (λ places. places ≡ places_in order.now.tokens (numbers tokens.now)) }
{
    let mut places = Vec::new(alloc);
    for token in tokens {
        if let Some(place) = order.place(*token) {
            places.push(place)?;
        }
    }
    Ok(List::from_vec(places))
}

/// The world of these methods, out of what was made of them.
fn world_in(alloc: Global, reached: Reached, order: &Met) -> Result<World, AllocError>
    requires all { length reached.visits.items ≡ length reached.met.tokens }
    ensures units { IfOk result (λ world. world.units ≡ filter_map (unit_made reached.met.tokens reached.visits.items) order.now.tokens) }
    ensures callee { IfOk result (λ world. world.callee ≡ filter_map (places_made order.now.tokens reached.met.tokens reached.visits.items) order.now.tokens) }
{
    let Reached { met, mut visits } = reached;
    let tokens = order.tokens();
    let mut units = Vec::new(alloc);
    let mut callee = Vec::new(alloc);
    for token in tokens {
        let Some(place) = met.place(*token) else {
            continue;
        };
        let Some(visited) = visits[place as usize].take() else {
            continue;
        };
        callee.push(places_in(alloc, order, &visited.callees)?)?;
        units.push(visited.unit)?;
    }
    Ok(World {
        units: List::from_vec(units),
        callee: List::from_vec(callee),
    })
}

/// The world of a method: its own unit, and after it, by rising token, those of the other methods that it reaches by
/// calls in the bodies of analysed methods. An error is the least token of a method that it reaches and that is not
/// analysed, or that memory ran out.
///
/// Cost: what is reached is read and made into units, each method once. Besides there is a number for each method of
/// the assembly.
pub fn world_of(alloc: Global, units: Units<'_>, method: Token) -> Result<World, WorldRefusal>
    requires there { IsSome (method_of units method) }
    // The world is that of the method, and comes where each method that it reaches is analysed; the token is that of
    // the first that is not.
    ensures judged { JudgesWorld result (least_skipped units.entry method.0) (λ world. world ≡ world_of units.entry method.0) }
    // To be reached is to be in the least set with the method that is closed under calls.
    ensures reach { UnlessNoMemory result ((token : ℕ) → (is_reached units.entry method.0 token ≡ true) ↔ Reaches (calls_of units.entry) method.0 token) }
    ensures refused { IfNotAnalysed result (IsLeastSkipped units.entry method.0) }
    ensures analysed { IfOk result (λ _. (token : ℕ) → Reaches (calls_of units.entry) method.0 token → IsSome (unit_at units.entry token)) }
    // Each unit is well formed, and its body can be run; and they agree on what they say of each other.
    ensures units { IfOk result (λ world. AllByRecursion IsUnit world.units) }
    ensures agree { IfOk result Agree }
{
    let assembly = units.assembly();
    let mut units = units;
    let reached = walk(alloc, &mut units, method)?;
    let order = order_of(alloc, assembly, &reached, method)?;
    Ok(world_in(alloc, reached, &order)?)
}
