//! Between which numbers those of a symbol lie.

ghost use Rattle.std.specs.Prelude.{IsTrue};
ghost use Rattle.pentagon_domain.specs.Settled.{AreWithin};

/// The numbers of a symbol: from a least one to a greatest.
#[derive(Clone, Copy, PartialEq, Eq)]
pub struct Ends {
    /// The least.
    pub lo: i64,
    /// The greatest.
    pub hi: i64,
}

/// Returns whether the ends of each symbol are there too, and are no wider.
#[tactic(auto, using(crate::proofs::TightWithin::within_more))]
pub(crate) fn are_within(wide: &[Ends], ends: &[Ends]) -> bool
    ensures { IsTrue result → AreWithin wide.now ends.now }
{
    if ends.len() < wide.len() {
        return false;
    }
    for s in 0..wide.len() {
        if ends[s].lo < wide[s].lo || wide[s].hi < ends[s].hi {
            return false;
        }
    }
    true
}
