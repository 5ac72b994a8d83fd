//! Tests of whole lists of pairs.

ghost use Rattle.std.specs.Prelude.{◌≡◌, ◌↔◌, IsTrue};
ghost use Rattle.alias_facts.specs.Following.{follows, stands_behind};
ghost use Rattle.alias_facts.specs.PairsOf.{AreInOrder, AreProper};

use crate::pair_list::{comes_before, is_proper};

/// Returns whether a pair stands behind the one before it, if there is one.
fn follows(previous: Option<(u32, u32)>, pair: (u32, u32)) -> bool
    ensures { result ≡ follows previous pair }
{
    match previous {
        None => true,
        Some(previous) => comes_before(previous, pair),
    }
}

/// Returns whether a pair is proper, and stands behind the one before it.
fn stands_behind(previous: Option<(u32, u32)>, pair: (u32, u32)) -> bool
    ensures { result ≡ stands_behind previous pair }
{
    is_proper(pair) && follows(previous, pair)
}

/// Returns whether the pairs are in order, each once, and all are proper.
pub(crate) fn are_kept_pairs(pairs: &[(u32, u32)]) -> bool
    ensures { IsTrue result ↔ (AreInOrder pairs.now × AreProper pairs.now) }
{
    let mut previous = None;
    for pair in pairs {
        if !stands_behind(previous, *pair) {
            return false;
        }
        previous = Some(*pair);
    }
    true
}
