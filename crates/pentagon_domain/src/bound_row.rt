//! One bound.

ghost use Rattle.std.specs.Prelude.{◌≡◌};

/// A bound: the number of the symbol `s` and `k` more are at most the number of the symbol `t`.
#[derive(Clone, Copy, Debug, PartialEq, Eq)]
pub struct BoundRow {
    /// The symbol from which the bound goes.
    pub s: u32,
    /// The symbol to which it goes.
    pub t: u32,
    /// How much may be added to the number of `s`.
    pub k: i64,
}

impl BoundRow {
    ghost use Rattle.pentagon_domain.specs.Rows.{is_pair, is_before, is_of};
    ghost use Rattle.pentagon_domain.specs.Targets.{turned};

    /// Returns whether it is of two symbols of which a bound is stored: distinct ones, and none is 0.
    pub(crate) fn is_pair(&self) -> bool
        ensures { result ≡ is_pair self.now.s self.now.t }
    {
        self.s != 0 && self.t != 0 && self.s != self.t
    }

    /// Returns whether the row stands before any of these two symbols.
    pub(crate) fn is_before(&self, s: u32, t: u32) -> bool
        ensures { result ≡ is_before self.now s t }
    {
        self.s < s || self.s == s && self.t < t
    }

    /// Returns whether the row stands before any of these two symbols where the second symbol counts first.
    pub(crate) fn is_before_to(&self, s: u32, t: u32) -> bool
        ensures { result ≡ is_before (turned self.now) t s }
    {
        self.t < t || self.t == t && self.s < s
    }

    /// Returns whether it is the row of these two symbols.
    pub(crate) fn is_of(&self, s: u32, t: u32) -> bool
        ensures { result ≡ is_of self.now s t }
    {
        self.s == s && self.t == t
    }
}
