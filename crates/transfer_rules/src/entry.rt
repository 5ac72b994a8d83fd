//! The state where a method begins.

ghost use Rattle.std.specs.Prelude.{◌≡◌, [], ◌∷◌, slice_get, Some, IfOk, OnOk};
ghost use Rattle.std.specs.List.{AllByRecursion};
ghost use Rattle.std.specs.Option.{option_map};
ghost use Rattle.cil_model.specs.Clauses.{clauses_of};
ghost use Rattle.cil_model.specs.WellFormed.{IsWellFormed};
ghost use Rattle.cil_model.specs.declared.clause.ClauseKind.TheVariants as kinds;
ghost use Rattle.frame_names.specs.declared.var.Var.{Var};
ghost use Rattle.state_facts.specs.StateFacts.{variables_in};
ghost use Rattle.state_facts.specs.States.{push};
ghost use Rattle.transfer_rules.specs.Entry as rule;
ghost use Rattle.transfer_rules.specs.Entry.{HoldsAtEntry};
ghost use Rattle.transfer_rules.specs.Laws.BegunLaws.{entry_kinds};
ghost use Rattle.transfer_rules.specs.Laws.EntryLaws.{IsTestOf};
ghost use Rattle.transfer_rules.specs.Laws.Fitting.{AreKinds};

use abs_state::{AbsState, Contents, Parts, Var};
use cil_model::{Clause, ClauseKind, Place, Unit};
use clause_trees::{TreeEnv, assume_tree};
use domain_api::NoMemory;
use number_spans::constant;
use std::alloc::Global;

/// The state of a point without variables, of which nothing is known.
pub(crate) fn no_variables(alloc: Global) -> Result<AbsState, NoMemory>
    ensures { IfOk result (λ state. state ≡ Some rule.no_variables) }
{
    let parts = Parts {
        reached: true,
        variables: Vec::new(alloc),
        ranges: Vec::new(alloc),
        definitions: Vec::new(alloc),
        bounds: Vec::new(alloc),
        references: Vec::new(alloc),
        apart: Vec::new(alloc),
        contents: Contents::new(alloc),
    };
    match AbsState::of_parts(alloc, &parts)? {
        Some(state) => Ok(state),
        None => unreachable!(),
    }
}

/// Pushes a value of each of these types, of which no more is known.
pub(crate) fn push_unknown(state: &mut AbsState, places: &[Place]) -> Result<(), NoMemory>
    ensures { OnOk result (state.new ≡ rule.with_unknown places.now state.old) }
{
    for place in places {
        state.push_unknown(*place)?;
    }
    Ok(())
}

/// Pushes what the variable of this list index has.
fn push_again(state: &mut AbsState, i: u64) -> Result<(), NoMemory>
    ensures { OnOk result ((v : Var) → slice_get (variables_in state.old) i ≡ Some v → state.new ≡ push v state.old) }
{
    match state.var_at(i) {
        Some(value) => state.push(value),
        None => Ok(()),
    }
}

/// Pushes all variables once more.
#[tactic(auto, using(crate::proofs::Beginning::again))]
fn push_twice(state: &mut AbsState) -> Result<(), NoMemory>
    ensures { OnOk result (state.new ≡ option_map rule.twice state.old) }
{
    for i in 0..state.var_count() {
        push_again(state, i)?;
    }
    Ok(())
}

/// What a local of this type has before it is stored to.
fn zero_in(place: Place) -> Var
    ensures { result ≡ rule.zero_in place }
{
    match place {
        Place::Bools | Place::Ints => Var::Reference(0),
        Place::Bool | Place::Int | Place::Void => Var::Number(constant(0)),
    }
}

/// Pushes the zero of each of these types.
fn push_zeros(state: &mut AbsState, places: &[Place]) -> Result<(), NoMemory>
    ensures { OnOk result (state.new ≡ rule.with_zeros places.now state.old) }
{
    for place in places {
        state.push(zero_in(*place))?;
    }
    Ok(())
}

/// The state where nothing is known of arguments but their types, and locals have their zeros.
fn begun(alloc: Global, unit: &Unit) -> Result<AbsState, NoMemory>
    ensures { IfOk result (λ state. state ≡ rule.begun unit.now) }
{
    let mut state = no_variables(alloc)?;
    push_unknown(&mut state, unit.args.as_slice())?;
    push_twice(&mut state)?;
    push_zeros(&mut state, unit.locals.as_slice())?;
    Ok(state)
}

/// The state in which a clause is assumed to be true, where it is a Requires.
fn assume_required(
    alloc: Global,
    state: AbsState,
    unit: &Unit,
    clause: &Clause,
) -> Result<AbsState, NoMemory>
    requires kinds { AreKinds (entry_kinds unit.now) state }
    requires test { AllByRecursion (IsTestOf unit.now) (clauses_of kinds.Requires (clause.now ∷ [])) }
    ensures { IfOk result (λ new. new ≡ rule.required (clauses_of kinds.Requires (clause.now ∷ [])) state) }
{
    match clause.kind {
        ClauseKind::Requires => {
            let env = TreeEnv {
                args: 0,
                result: None,
            };
            assume_tree(alloc, &state, &clause.tree, &env)
        }
        ClauseKind::Ensures => Ok(state),
    }
}

/// The state in which each Requires of the unit is assumed to be true, one after another.
#[tactic(auto, using(crate::proofs::Requiring::requiring))]
fn required(alloc: Global, state: AbsState, unit: &Unit) -> Result<AbsState, NoMemory>
    requires formed { IsWellFormed unit.now }
    requires begun { AreKinds (entry_kinds unit.now) state }
    ensures { IfOk result (λ new. new ≡ rule.required (clauses_of kinds.Requires unit.now.clauses) state) }
{
    let mut known = state;
    for clause in unit.clauses.as_slice() {
        known = assume_required(alloc, known, unit, clause)?;
    }
    Ok(known)
}

/// The state where a method begins.
#[tactic(auto, unfolding(crate::specs::Entry::entry), using(crate::specs::Laws::BegunLaws::begun_kinds))]
fn entry(alloc: Global, unit: &Unit) -> Result<AbsState, NoMemory>
    requires formed { IsWellFormed unit.now }
    ensures { IfOk result (λ state. state ≡ rule.entry unit.now) }
{
    let begun = begun(alloc, unit)?;
    required(alloc, begun, unit)?.norm(alloc)
}

/// The state where a method begins: arguments have the values of those at the entry, of which their types are known and
/// what is required, and locals have their zeros. It is in normal form. Where what is required cannot be, nothing is
/// reached.
///
/// Cost: that of assuming the trees of what is required.
#[tactic(auto, using(crate::specs::Laws::EntryLaws::entry_holds))]
pub fn entry_state(alloc: Global, unit: &Unit) -> Result<AbsState, NoMemory>
    requires formed { IsWellFormed unit.now }
    ensures value { IfOk result (λ state. state ≡ rule.entry unit.now) }
    // It holds of each point with which a call may begin.
    ensures sound { IfOk result (HoldsAtEntry unit.now) }
{
    entry(alloc, unit)
}
