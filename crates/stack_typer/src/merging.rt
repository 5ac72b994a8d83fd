//! What comes of two stacks that meet at an instruction (ECMA-335 III.1.8.1.3).

ghost use Rattle.std.specs.Prelude.{◌≡◌, ◌<◌, Some, is_some, false, true};
ghost use Rattle.std.specs.Option.{option_or};
ghost use Rattle.cil_model.specs.Passes.{merged};
ghost use Rattle.stack_typer.specs.Room.{changed_kind, nulls};

use cil_model::{Kind, merged_kind};

/// Returns whether each kind merges with the one at its place.
#[tactic(auto, using(crate::proofs::MergeLemmas::merges_rules))]
pub fn merges(before: &[Kind], stack: &[Kind]) -> bool
    ensures { result ≡ is_some (merged before.now stack.now) }
{
    if before.len() != stack.len() {
        return false;
    }
    for index in 0..before.len() {
        if merged_kind(before[index], stack[index]).is_none() {
            return false;
        }
    }
    true
}

/// The kind that one becomes by merging with another, where they merge and it changes: null becomes an array.
fn changed_kind(before: Kind, kind: Kind) -> Option<Kind>
    ensures { result ≡ changed_kind before kind }
{
    match (before, kind) {
        (Kind::NullRef, Kind::Ints | Kind::Bools) => Some(kind),
        _ => None,
    }
}

/// Merges each kind with the one at its place, where all merge, and says whether one changed.
pub fn merge_into(before: &mut [Kind], stack: &[Kind]) -> bool
    ensures stack { Some before.new ≡ option_or (merged before.old stack.now) (Some before.old) }
    ensures same { result ≡ false → before.new ≡ before.old }
    ensures fewer { result ≡ true → nulls before.new < nulls before.old }
{
    if !merges(before, stack) {
        return false;
    }
    let mut changed = false;
    for index in 0..before.len() {
        if let Some(kind) = changed_kind(before[index], stack[index]) {
            before[index] = kind;
            changed = true;
        }
    }
    changed
}
