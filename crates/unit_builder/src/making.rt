//! The unit of a method, made of its parts.

ghost use Rattle.std.specs.Prelude.{◌≡◌, ◌<◌, true, option_map, IfOk};
ghost use Rattle.std.specs.List.{list_all};
ghost use Rattle.cc_base.specs.Tests.{first_of, JudgesOrNoMemory};
ghost use Rattle.cil_model.specs.Passes.{KindsOf};
ghost use Rattle.stack_typer.specs.FirstTypeFault.{first_type_fault};
ghost use Rattle.cil_model.specs.Offsets.{AreLaidOut};
ghost use Rattle.unit_builder.specs.Bodies.{callee_keys};
ghost use Rattle.unit_builder.specs.Making.{AreCallees, AreVariablesOf, HasParts, IsOwnCode};
ghost use Rattle.unit_builder.specs.Reasons.{has_short_name, kind_tests, unit_shape};
ghost use Rattle.unit_builder.specs.Rows.{IsRowOf};
ghost use Rattle.unit_builder.specs.Scopes.{Scope};
ghost use Rattle.unit_builder.specs.Slots.{AreAllSlots};
ghost use Rattle.unit_builder.specs.Sources.{files_of, scope_at};
ghost use Rattle.unit_builder.specs.declared.reason.Reason.TheVariants as reasons;
ghost use Rattle.signature_blobs.specs.declared.method.SigTypes.TheVariants as types;

use crate::callees::callee_infos;
use crate::header::Variables;
use crate::names::unit_name;
use crate::own_code::OwnCode;
use crate::reason::{Reason, UnitRefusal};
use crate::slots::Slot;
use crate::sources::Sources;
use asm_image::MethodRow;
use cc_base::{NoMemory, Refusal};
use cil_model::{CalleeInfo, Instr, List, Shape, Unit};
use method_code::spell_code;
use signature_blobs::Signature;
use stack_typer::{Kinds, TypedUnit, type_code};
use std::alloc::Global;

/// Finds the kinds of the code.
fn find_kinds(alloc: Global, instrs: &[Instr], shape: &Shape) -> Result<Kinds, UnitRefusal>
    requires lie { AreLaidOut instrs.now }
    ensures { JudgesOrNoMemory result (option_map reasons.Kinds (first_type_fault instrs.now shape.now)) (KindsOf shape.now instrs.now) }
{
    match type_code(alloc, instrs, shape) {
        Ok(kinds) => Ok(kinds),
        Err(Refusal::Bad(fault)) => Err(Refusal::Bad(Reason::Kinds(fault))),
        Err(Refusal::NoMemory) => Err(Refusal::NoMemory),
    }
}

/// The shape of a method.
#[tactic(auto, unfolding(crate::specs::Reasons::unit_shape))]
fn shape_with(
    alloc: Global,
    signature: &Signature,
    variables: &Variables,
    callees: Vec<CalleeInfo>,
) -> Result<Shape, NoMemory>
    ensures { (scope : Scope) (method : MethodRow) → method.sig.types ≡ types.Known signature.now → AreVariablesOf scope.asm method variables.now
        → AreCallees scope.info (callee_keys scope method) callees.items → IfOk result (λ shape. shape ≡ unit_shape scope method) }
{
    Ok(Shape {
        result: signature.result,
        args: List::from_vec(signature.args.to_vec(alloc)?),
        locals: List::from_vec(variables.locals.to_vec(alloc)?),
        max_stack: variables.max_stack,
        callees: List::from_vec(callees),
    })
}

/// Makes the unit of a method. What is known of its callees is looked up here, and the kinds of its code are found.
#[tactic(auto, using(cc_base::proofs::TestLemmas::carried, cc_base::proofs::TestLemmas::first_tests))]
pub(crate) fn make_unit(
    alloc: Global,
    sources: &Sources<'_>,
    file: u32,
    slots: &mut [Vec<Slot>],
    method: &MethodRow,
    signature: &Signature,
    variables: &Variables,
    own: OwnCode,
) -> Result<TypedUnit, UnitRefusal>
    requires row { IsRowOf (scope_at sources.now file).asm method.now }
    requires types { method.now.sig.types ≡ types.Known signature.now }
    requires slots { AreAllSlots (files_of sources.now) slots.old }
    requires variables { AreVariablesOf (scope_at sources.now file).asm method.now variables.now }
    requires own { IsOwnCode (scope_at sources.now file) method.now own }
    requires short { list_all (has_short_name (scope_at sources.now file).info) (callee_keys (scope_at sources.now file) method.now) ≡ true }
    ensures slots { AreAllSlots (files_of sources.now) slots.new }
    ensures judged { JudgesOrNoMemory result (first_of (kind_tests (scope_at sources.now file) method.now)) (HasParts (scope_at sources.now file) method.now) }
{
    let callees = callee_infos(alloc, sources, slots, &own.callees)?;
    let shape = shape_with(alloc, signature, variables, callees)?;
    let kinds = find_kinds(alloc, own.instrs.as_slice(), &shape)?;
    let name = Vec::from_slice(alloc, unit_name(method))?;
    let code = spell_code(alloc, own.instrs.as_slice())?;
    let unit = Unit {
        name: List::from_vec(name),
        result: shape.result,
        args: shape.args,
        locals: shape.locals,
        max_stack: shape.max_stack,
        callees: shape.callees,
        code: List::from_vec(code),
        clauses: own.contracts.clauses,
        body_start: own.contracts.body_start,
        instrs: own.instrs,
    };
    Ok(TypedUnit::of(unit, kinds))
}
