//! Lists of clauses, as they stand in a unit file.

ghost use Rattle.std.specs.Prelude.{◌≡◌, ◌+◌, ◌≤◌, true, length, map, take, IfOk};
ghost use Rattle.cc_base.specs.Tests.{first_of, JudgesOrNoMemory};
ghost use Rattle.cil_model.specs.Terms.{old_count, term_size};
ghost use Rattle.unit_form.specs.Callees.{clause_field, clause_fields, clause_tree, clauses_field, is_clause_tree, kept_tree, olds_in};
ghost use Rattle.unit_form.specs.Parses.{IsRead};
ghost use Rattle.unit_form.specs.Roots.{told};
ghost use Rattle.unit_form.specs.TreeFields.{tree_of_roots, tree_roots};

use crate::clause_list::ClauseList;
use crate::form::UnitForm;
use crate::numbers::u8_field;
use crate::root::Root;
use crate::tree_builder::tree_of_roots;
use crate::tree_reader::read_roots;
use crate::unit_fault::{UnitFault, UnitRefusal};
use cil_model::{Clause, ClauseKind, Kind, MAX_CONDITIONS, MAX_NODES, MAX_OLD_VALUES, Place, Tree};
use std::alloc::{AllocError, Global};

/// Returns whether a clause of a method of these arguments and this result may have the tree, after clauses with so
/// many old
/// values.
fn is_clause_tree(
    tree: &Tree,
    args: &[Place],
    result_place: Place,
    kind: ClauseKind,
    olds: u32,
) -> bool
    requires small { term_size tree.now ≤ 4096 }
    requires few { olds ≤ 64 }
    ensures { result ≡ is_clause_tree args.now result_place kind olds tree.now }
{
    tree.condition_depth() as usize <= MAX_CONDITIONS
        && (olds + tree.old_count()) as usize <= MAX_OLD_VALUES
        && matches!(
            tree.kind(args, result_place, kind == ClauseKind::Ensures),
            Some(Kind::Int)
        )
}

/// The tree of these roots, where a clause may have it.
fn kept_tree(
    alloc: Global,
    roots: &[Root],
    args: &[Place],
    result_place: Place,
    kind: ClauseKind,
    olds: u32,
) -> Result<Option<Tree>, AllocError>
    requires small { length roots.now ≤ 4096 → term_size (tree_of_roots (map told roots.now)) ≤ 4096 }
    requires few { olds ≤ 64 }
    ensures { IfOk result (λ tree. tree ≡ kept_tree args.now result_place kind olds (map told roots.now)) }
{
    if roots.len() > MAX_NODES {
        return Ok(None);
    }
    let tree = tree_of_roots(alloc, roots)?;
    if is_clause_tree(&tree, args, result_place, kind, olds) {
        return Ok(Some(tree));
    }
    Ok(None)
}

/// The tree of a clause at this offset, and the offset after it.
#[tactic(auto, using(crate::proofs::ClausesRead::kept_small, crate::proofs::ClausesRead::kept_read, crate::proofs::ClausesRead::kept_refused, crate::proofs::ClausesRead::tree_cut))]
fn read_tree(
    alloc: Global,
    form: UnitForm,
    bytes: &[u8],
    at: u32,
    args: &[Place],
    result_place: Place,
    kind: ClauseKind,
    olds: u32,
) -> Result<(Tree, u32), UnitRefusal>
    requires short { length bytes.now ≤ 2147483647 }
    requires inside { at ≤ length bytes.now }
    requires few { olds ≤ 64 }
    ensures { JudgesOrNoMemory result (first_of (clause_tree form args.now result_place kind olds bytes.now at).tests)
        (λ read. IsRead bytes.now (clause_tree form args.now result_place kind olds bytes.now at) read.0 read.1 × (is_clause_tree args.now result_place kind olds read.0 ≡ true)) }
{
    let (roots, next) = read_roots(alloc, form, bytes, at)?;
    match kept_tree(alloc, &roots, args, result_place, kind, olds)? {
        Some(tree) => Ok((tree, next)),
        None => Err(UnitFault::Form(at).into()),
    }
}

/// The clause of such a list at this offset, of a method of these arguments and this result, after clauses with so many
/// old values; and the offset after it.
#[tactic(auto, using(cc_base::proofs::TestLemmas::appended, cc_base::proofs::TestLemmas::first_tests, cc_base::proofs::TestLemmas::carried), unfolding(crate::specs::Callees::clause_field))]
fn read_clause(
    alloc: Global,
    list: ClauseList,
    form: UnitForm,
    bytes: &[u8],
    at: u32,
    args: &[Place],
    result_place: Place,
    olds: u32,
) -> Result<(Clause, u32), UnitRefusal>
    requires short { length bytes.now ≤ 2147483647 }
    requires few { olds ≤ 64 }
    ensures { JudgesOrNoMemory result (first_of (clause_field list form args.now result_place olds bytes.now at).tests)
        (λ read. IsRead bytes.now (clause_field list form args.now result_place olds bytes.now at) read.0 read.1 × (olds + old_count read.0.tree ≤ 64) × (term_size read.0.tree ≤ 4096)) }
{
    let number = u8_field(bytes, at)?;
    let Some(kind) = list.kind_of_number(number) else {
        return Err(UnitFault::Form(at).into());
    };
    let (tree, next) = read_tree(alloc, form, bytes, at + 1, args, result_place, kind, olds)?;
    Ok((Clause { kind, tree }, next))
}

/// So many clauses of such a list, of a method of these arguments and this result, from this offset on, and the offset
/// after them.
#[tactic(auto, using(crate::proofs::Counted::none_read, crate::proofs::Counted::all_read))]
fn read_each(
    alloc: Global,
    list: ClauseList,
    form: UnitForm,
    bytes: &[u8],
    start: u32,
    count: u8,
    args: &[Place],
    result_place: Place,
) -> Result<(Vec<Clause>, u32), UnitRefusal>
    requires short { length bytes.now ≤ 2147483647 }
    requires inside { start ≤ length bytes.now }
    ensures { JudgesOrNoMemory result (first_of (clause_fields list form count args.now result_place bytes.now start).tests)
        (λ read. IsRead bytes.now (clause_fields list form count args.now result_place bytes.now start) read.0.items read.1) }
{
    let mut clauses: Vec<Clause> = Vec::with_capacity(alloc, usize::from(count))?;
    let mut at = start;
    let mut olds = 0;
    for _clause in 0..count {
        let (clause, next) = read_clause(alloc, list, form, bytes, at, args, result_place, olds)?;
        olds += clause.tree.old_count();
        clauses.push(clause)?;
        at = next;
    }
    Ok((clauses, at))
}

/// The clauses of such a list, of a method of these arguments and this result, after their count, and the offset after
/// them.
#[tactic(auto, using(cc_base::proofs::TestLemmas::appended, cc_base::proofs::TestLemmas::first_tests, cc_base::proofs::TestLemmas::carried), unfolding(crate::specs::Callees::clauses_field, crate::specs::Fields::u8_field))]
pub fn read_clauses(
    alloc: Global,
    list: ClauseList,
    form: UnitForm,
    bytes: &[u8],
    at: u32,
    args: &[Place],
    result_place: Place,
) -> Result<(Vec<Clause>, u32), UnitRefusal>
    requires short { length bytes.now ≤ 2147483647 }
    ensures { JudgesOrNoMemory result (first_of (clauses_field list form args.now result_place bytes.now at).tests)
        (λ read. IsRead bytes.now (clauses_field list form args.now result_place bytes.now at) read.0.items read.1) }
{
    let count = u8_field(bytes, at)?;
    if !list.may_count(count) {
        return Err(UnitFault::Form(at).into());
    }
    read_each(alloc, list, form, bytes, at + 1, count, args, result_place)
}
