//! Trees, as they stand in a unit file.

ghost use Rattle.std.specs.Prelude.{◌≡◌, ◌≤◌, length, map, take, OnOk};
ghost use Rattle.cc_base.specs.Tests.{first_of, JudgesOrNoMemory};
ghost use Rattle.unit_form.specs.Roots.{told};
ghost use Rattle.unit_form.specs.TreeFields.{kept_with, tree_roots};

use crate::form::UnitForm;
use crate::root::Root;
use crate::root_reader::read_root;
use crate::unit_fault::{UnitFault, UnitRefusal};
use cil_model::MAX_NODES;
use std::alloc::{AllocError, Global};

/// Keeps the next root, unless there are more than the nodes of a clause.
#[tactic(auto, unfolding(crate::specs::TreeFields::kept_with))]
fn keep(roots: &mut Vec<Root>, root: Root) -> Result<(), AllocError>
    ensures { OnOk result (roots.new.items ≡ kept_with roots.old.items root) }
{
    if roots.len() <= MAX_NODES {
        roots.push(root)?;
    }
    Ok(())
}

/// The roots of the tree at an offset, in preorder, and the offset after it. Of a tree with more roots than a clause
/// may
/// have nodes only so many are kept, and one more.
#[tactic(auto, using(crate::proofs::RootsRead::reading))]
pub fn read_roots(
    alloc: Global,
    form: UnitForm,
    bytes: &[u8],
    start: u32,
) -> Result<(Vec<Root>, u32), UnitRefusal>
    requires short { length bytes.now ≤ 2147483647 }
    requires inside { start ≤ length bytes.now }
    ensures { JudgesOrNoMemory result (first_of (tree_roots form bytes.now start).tests)
        (λ read. (map told read.0.items ≡ take 4097 (tree_roots form bytes.now start).value) × (read.1 ≡ (tree_roots form bytes.now start).next) × (read.1 ≤ length bytes.now)) }
{
    let mut roots = Vec::new(alloc);
    let mut at = start;
    let mut trees = 1;
    for _root in 0..bytes.len() {
        if trees == 0 {
            return Ok((roots, at));
        }
        let (root, next) = read_root(form, bytes, at)?;
        keep(&mut roots, root)?;
        trees = trees - 1 + root.arity();
        at = next;
    }
    if trees == 0 {
        return Ok((roots, at));
    }
    Err(UnitFault::Short(at).into())
}
