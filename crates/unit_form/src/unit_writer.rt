//! Units, written as files of the second or the third form.

ghost use Rattle.std.specs.Prelude.{◌≡◌, ◌≤◌, ◌<◌, ◌++◌, ◌^◌, length, IfOk, OnOk};
ghost use Rattle.std.specs.List.{flat_map, AllByRecursion};
ghost use Rattle.cil_model.specs.WellFormed.{IsCallee};
ghost use Rattle.unit_form.specs.Callees.{kind_number};
ghost use Rattle.unit_form.specs.Forms.{magic};
ghost use Rattle.unit_form.specs.Spelling.{HasFields, callee_bytes, clause_bytes, clauses_bytes, fields_bytes, name_bytes, places_bytes, shape_bytes, unit_bytes};
ghost use Rattle.unit_form.specs.declared.form.UnitForm.TheVariants.{Second, Third};

use crate::added::added_clauses;
use crate::tree_writer::append_tree;
use cil_model::{CalleeInfo, Clause, ClauseKind, Place, Unit};
use std::alloc::{AllocError, Global};

/// Appends a name after its length.
fn append_name(out: &mut Vec<u8>, name: &[u8]) -> Result<(), AllocError>
    requires short { length name.now < 2 ^ 16 }
    ensures { OnOk result (out.new.items ≡ out.old.items ++ name_bytes name.now) }
{
    out.extend_from_slice(&(name.len() as u16).to_le_bytes())?;
    out.extend_from_slice(name)?;
    Ok(())
}

/// Appends places after their count.
fn append_places(out: &mut Vec<u8>, places: &[Place]) -> Result<(), AllocError>
    requires few { length places.now < 2 ^ 16 }
    ensures { OnOk result (out.new.items ≡ out.old.items ++ places_bytes Second places.now) }
{
    out.extend_from_slice(&(places.len() as u16).to_le_bytes())?;
    for place in places {
        out.push(place.number())?;
    }
    Ok(())
}

/// Appends a clause: the number of its kind, and its tree.
fn append_clause(out: &mut Vec<u8>, clause: &Clause) -> Result<(), AllocError>
    ensures { OnOk result (out.new.items ≡ out.old.items ++ clause_bytes Second clause.now) }
{
    let number = match clause.kind {
        ClauseKind::Requires => 1,
        ClauseKind::Ensures => 2,
    };
    out.push(number)?;
    append_tree(out, &clause.tree)
}

/// Appends clauses after their count.
fn append_clauses(out: &mut Vec<u8>, clauses: &[Clause]) -> Result<(), AllocError>
    requires few { length clauses.now < 2 ^ 8 }
    ensures { OnOk result (out.new.items ≡ out.old.items ++ clauses_bytes Second clauses.now) }
{
    out.push(clauses.len() as u8)?;
    for clause in clauses {
        append_clause(out, clause)?;
    }
    Ok(())
}

/// Appends what is said of a callee.
fn append_callee(out: &mut Vec<u8>, callee: &CalleeInfo) -> Result<(), AllocError>
    requires callee { IsCallee callee.now }
    ensures { OnOk result (out.new.items ≡ out.old.items ++ callee_bytes Second callee.now) }
{
    append_name(out, callee.name.as_slice())?;
    out.push(callee.result.number())?;
    append_places(out, callee.args.as_slice())?;
    append_clauses(out, callee.clauses.as_slice())
}

/// Appends what is said of callees.
fn append_callees(out: &mut Vec<u8>, callees: &[CalleeInfo]) -> Result<(), AllocError>
    requires callees { AllByRecursion IsCallee callees.now }
    ensures { OnOk result (out.new.items ≡ out.old.items ++ flat_map (callee_bytes Second) callees.now) }
{
    for callee in callees {
        append_callee(out, callee)?;
    }
    Ok(())
}

/// Appends the name, the places and the size of the stack of a unit.
#[tactic(auto, unfolding(crate::specs::Spelling::shape_bytes))]
fn append_shape(out: &mut Vec<u8>, unit: &Unit) -> Result<(), AllocError>
    requires fields { HasFields unit.now }
    ensures { OnOk result (out.new.items ≡ out.old.items ++ shape_bytes Second unit.now) }
{
    append_name(out, unit.name.as_slice())?;
    out.push(unit.result.number())?;
    append_places(out, unit.args.as_slice())?;
    append_places(out, unit.locals.as_slice())?;
    out.extend_from_slice(&unit.max_stack.to_le_bytes())?;
    Ok(())
}

/// Appends all fields of a unit that stand in each form, from the name to the code.
#[tactic(auto, unfolding(crate::specs::Spelling::fields_bytes))]
fn append_fields(out: &mut Vec<u8>, unit: &Unit) -> Result<(), AllocError>
    requires fields { HasFields unit.now }
    ensures { OnOk result (out.new.items ≡ out.old.items ++ fields_bytes Second unit.now) }
{
    append_shape(out, unit)?;
    let callees = unit.callees.as_slice();
    out.extend_from_slice(&(callees.len() as u16).to_le_bytes())?;
    append_callees(out, callees)?;
    let code = unit.code.as_slice();
    out.extend_from_slice(&(code.len() as u32).to_le_bytes())?;
    out.extend_from_slice(code)?;
    Ok(())
}

/// The bytes of the magic, the result, the size of the stack and the lengths and counts.
const FIXED_BYTES: usize = 19;

/// As many bytes as the file of a unit has that calls no method and to which no clauses were added.
fn least_room(unit: &Unit) -> usize {
    unit.name
        .as_slice()
        .len()
        .saturating_add(unit.args.as_slice().len())
        .saturating_add(unit.locals.as_slice().len())
        .saturating_add(unit.code.as_slice().len())
        .saturating_add(FIXED_BYTES)
}

/// The file of a unit to which no clauses were added, in the second form.
fn second_bytes(alloc: Global, unit: &Unit) -> Result<Vec<u8>, AllocError>
    requires fields { HasFields unit.now }
    ensures { IfOk result (λ bytes. bytes.items ≡ magic Second ++ fields_bytes Second unit.now) }
{
    let mut out = Vec::with_capacity(alloc, least_room(unit))?;
    out.extend_from_slice(b"CCU2")?;
    append_fields(&mut out, unit)?;
    Ok(out)
}

/// The file of a unit to which these clauses were added, in the third form. It has counts as the second form has.
fn third_bytes(alloc: Global, unit: &Unit, added: &[Clause]) -> Result<Vec<u8>, AllocError>
    requires fields { HasFields unit.now }
    requires few { length added.now < 2 ^ 8 }
    ensures { IfOk result (λ bytes. bytes.items ≡ magic Third ++ (fields_bytes Second unit.now ++ clauses_bytes Second added.now)) }
{
    let mut out = Vec::with_capacity(alloc, least_room(unit))?;
    out.extend_from_slice(b"CCU3")?;
    append_fields(&mut out, unit)?;
    append_clauses(&mut out, added)?;
    Ok(out)
}

/// The file of a unit: in the second form, or in the third where clauses were added.
#[tactic(auto, using(crate::proofs::UnitWritten::in_second, crate::proofs::UnitWritten::in_third))]
pub fn unit_bytes(alloc: Global, unit: &Unit) -> Result<Vec<u8>, AllocError>
    requires fields { HasFields unit.now }
    ensures { IfOk result (λ bytes. bytes.items ≡ unit_bytes unit.now) }
{
    let added = added_clauses(unit);
    if added.is_empty() {
        second_bytes(alloc, unit)
    } else {
        third_bytes(alloc, unit, added)
    }
}
