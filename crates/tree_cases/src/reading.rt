//! The test of what trees ask of their caller: they are read over the variables of a method, and have a kind there.

ghost use Rattle.std.specs.Prelude.{◌≡◌, ◌<◌, ◌+◌, ◌^◌, true, length, slice_get, OnOk, IsSome};
ghost use Rattle.std.specs.Option.{ForSome};
ghost use Rattle.state_facts.specs.StateFacts.{variables_in};
ghost use Rattle.clause_trees.specs.Meaning.{CanTest, HasIntsIn, IsTest};
ghost use Rattle.clause_trees.specs.VariableKinds.{IsOfPlace, IsReadable, place_in};
ghost use Rattle.tree_cases.specs.Types.{AreOfTypes, IsLeafOfInt, IsOfType, IsResultOf};

use abs_state::{AbsState, Var};
use cil_model::{Node, Place, Tree, is_tested};
use clause_trees::TreeEnv;
use rule_text::Failure;
use std::alloc::{AllocError, Global};

/// Whether a reference is an array of a type. Null is one of each type of arrays.
#[tactic(auto, using(crate::proofs::Types::arrays))]
fn is_array_of(state: &AbsState, r: u32, place: Place) -> bool
    requires reached { IsSome state.now }
    ensures { result ≡ true → ForSome state.now (λ known. IsOfPlace place (place_in known r)) }
{
    r == 0 || state.place(r) == place
}

/// Whether a value is one of a type.
fn is_of_type(state: &AbsState, v: Option<Var>, place: Place) -> bool
    requires reached { IsSome state.now }
    ensures { result ≡ true → ForSome state.now (λ known. IsOfType known place v) }
{
    match (place, v) {
        (Place::Void, _) | (Place::Bool | Place::Int, Some(Var::Number(_))) => true,
        (Place::Bools, Some(Var::Reference(r))) => is_array_of(state, r, Place::Bools),
        (Place::Ints, Some(Var::Reference(r))) => is_array_of(state, r, Place::Ints),
        _ => false,
    }
}

/// Whether the variable of a list index has a value of a type.
#[tactic(auto, using(crate::proofs::Types::variables))]
fn is_variable_of(state: &AbsState, i: u64, place: Place) -> bool
    ensures { result ≡ true
        → ForSome state.now (λ known. IsOfType known place (slice_get known.variables i)) }
{
    !state.reached() || is_of_type(state, state.var_at(i), place)
}

/// Whether the variables from one on have values of these types.
fn are_variables_of(state: &AbsState, i: u64, places: &[Place]) -> bool
    requires small { i + length places.now < 2 ^ 64 }
    ensures { result ≡ true → ForSome state.now (λ known. AreOfTypes known i places.now) }
{
    match places {
        [] => true,
        [first, others @ ..] => {
            is_variable_of(state, i, *first) && are_variables_of(state, i + 1, others)
        }
    }
}

/// Whether the variable that has the result has a value of a type.
fn is_result_of(state: &AbsState, at: Option<u32>, place: Place) -> bool
    ensures { result ≡ true → ForSome state.now (λ known. IsResultOf known at place) }
{
    match at {
        None => true,
        Some(i) => is_variable_of(state, u64::from(i), place),
    }
}

/// The variables that trees read have values of these types.
fn readable(state: &AbsState, env: &TreeEnv, args: &[Place], of: Place) -> Result<(), Failure>
    ensures { OnOk result (ForSome state.now (IsReadable env.now args.now of)) }
{
    if !state.reached() {
        return Ok(());
    }
    if args.len() < 65_536
        && are_variables_of(state, u64::from(env.args), args)
        && is_result_of(state, env.result, of)
    {
        Ok(())
    } else {
        Err(Failure::Unmet("the variables that are read have values of their types"))
    }
}

/// Whether the constant of a root is int32, if it is one. By its type it is.
fn is_int_root(root: &Tree) -> bool
    ensures { result ≡ true → IsLeafOfInt root.now }
{
    match root.node {
        Node::Const(n) => n <= i32::MAX,
        _ => true,
    }
}

/// Whether the constants of a tree are int32.
#[tactic(auto, using(crate::proofs::Types::both_ints))]
fn has_ints(tree: &Tree) -> bool
    ensures { result ≡ true → HasIntsIn tree.now }
{
    match &tree.node {
        Node::Const(_) | Node::Arg(_) | Node::Null | Node::Result => is_int_root(tree),
        Node::Len(a) | Node::Un(_, a) | Node::Old(a) => has_ints(a),
        Node::Elem(_, a, b) | Node::Bin(_, a, b) => has_ints(a) && has_ints(b),
        Node::Cond(test, a, b) => has_ints(test) && has_ints(a) && has_ints(b),
    }
}

/// A tree may be a test in a clause of a method of these types.
fn tested(tree: &Tree, args: &[Place], of: Place) -> Result<(), Failure>
    ensures { OnOk result (IsTest args.now of tree.now) }
{
    match tree.kind(args, of, true) {
        Some(kind) if is_tested(kind) && has_ints(tree) => Ok(()),
        _ => Err(Failure::Unmet("the tree has a kind, and may be a test")),
    }
}

/// The type of a variable. That of null is told. No tree reads a text or an address, which count as no value.
fn type_of(state: &AbsState, v: Var, of_null: Place) -> Place {
    match v {
        Var::Number(_) => Place::Int,
        Var::Reference(r) if r != 0 && state.reached() => state.place(r),
        Var::Reference(_) => of_null,
        Var::Text | Var::Address(..) => Place::Void,
    }
}

/// The types of the variables from one on. Where nothing is reached, some numbers.
fn types_from(
    alloc: Global,
    state: &AbsState,
    first: u32,
    of_null: Place,
) -> Result<Vec<Place>, AllocError> {
    let mut types = Vec::new(alloc);
    for i in first..first.saturating_add(256) {
        match state.var_at(u64::from(i)) {
            Some(v) => types.push(type_of(state, v, of_null))?,
            None if state.reached() => break,
            None => types.push(Place::Int)?,
        }
    }
    Ok(types)
}

/// The type of the result.
fn type_at(state: &AbsState, at: Option<u32>, of_null: Place) -> Place {
    let Some(i) = at else {
        return Place::Void;
    };
    match state.var_at(u64::from(i)) {
        Some(v) => type_of(state, v, of_null),
        None => Place::Int,
    }
}

/// The tree may be a test in this state, of a method whose types are those of the variables, and this one where they
/// are null.
fn can_test_by(
    alloc: Global,
    state: &AbsState,
    env: &TreeEnv,
    tree: &Tree,
    of_null: Place,
) -> Result<(), Failure>
    ensures { OnOk result (CanTest env.now tree.now state.now) }
{
    let args = types_from(alloc, state, env.args, of_null)?;
    let of = type_at(state, env.result, of_null);
    readable(state, env, args.as_slice(), of)?;
    tested(tree, args.as_slice(), of)
}

/// The tree may be a test in this state, of some method whose types are those of the variables.
pub fn can_test(alloc: Global, state: &AbsState, env: &TreeEnv, tree: &Tree) -> Result<(), Failure>
    ensures { OnOk result (CanTest env.now tree.now state.now) }
{
    match can_test_by(alloc, state, env, tree, Place::Ints) {
        Ok(()) => Ok(()),
        Err(_) => can_test_by(alloc, state, env, tree, Place::Bools),
    }
}
