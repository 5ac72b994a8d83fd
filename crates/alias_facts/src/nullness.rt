//! Knowledge of references that may be null.

ghost use Rattle.std.specs.Prelude.{◌≡◌, Bool, IsTrue};
ghost use Rattle.alias_facts.specs.NullnessOf.{Agrees, entailed, joined};

/// A reference may be null, or it is known to be null or not.
#[derive(Clone, Copy, Debug, PartialEq, Eq)]
pub enum Nullness {
    /// It may be null.
    May,
    /// It is an array.
    NotNull,
    /// It is null.
    Null,
}

/// Returns the knowledge where the one or the other holds.
fn joined(a: Nullness, b: Nullness) -> Nullness
    ensures { result ≡ joined a b }
{
    if a == b { a } else { Nullness::May }
}

/// Returns whether the first tells at least as much as the second.
fn is_entailed(a: Nullness, b: Nullness) -> bool
    ensures { result ≡ entailed a b }
{
    b == Nullness::May || a == b
}

impl Nullness {
    /// Returns the knowledge where the one or the other holds: nothing, unless both are equal.
    pub fn join(self, other: Nullness) -> Nullness
        ensures value { result ≡ joined self other }
        ensures left { (is_null : Bool) → Agrees self is_null → Agrees result is_null }
        ensures right { (is_null : Bool) → Agrees other is_null → Agrees result is_null }
    {
        joined(self, other)
    }

    /// Returns whether this tells at least as much as the other.
    pub fn entails(self, other: Nullness) -> bool
        ensures value { result ≡ entailed self other }
        ensures holds { IsTrue result → (is_null : Bool) → Agrees self is_null → Agrees other is_null }
    {
        is_entailed(self, other)
    }
}
