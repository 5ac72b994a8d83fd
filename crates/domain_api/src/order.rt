//! What is known of how symbols lie to each other.

ghost use Rattle.std.specs.Prelude.{◌≡◌, ℕ, ℤ, ◌+ℤ◌, ◌≤ℤ◌, Option, Some};
ghost use Rattle.domain_api.specs.Order.{gap_is_at_least};

/// Knowledge of the differences of symbols.
pub trait Order {
    /// The value allows this number for each symbol.
    ghost allows: { Self → (ℕ → ℤ) → Type 0 };

    /// How far the second symbol is known to lie above the first.
    ghost gap: { Self → ℕ → ℕ → Option ℤ };

    /// A number that may be added to the symbol s without passing the symbol t. None means that nothing is
    /// known.
    fn gap(&self, s: u32, t: u32) -> Option<i64>
        ensures { result ≡ gap self.now s t };

    ghost gap_allowed: { (a : Self) (number : ℕ → ℤ) (s t : ℕ) (k : ℤ) → gap a s t ≡ Some k → allows a number →
        (number s +ℤ k) ≤ℤ number t };
}

/// Returns whether a gap is known and is so much at least.
pub fn gap_is_at_least(gap: Option<i64>, least: i128) -> bool
    ensures { result ≡ gap_is_at_least gap least }
{
    match gap {
        None => false,
        Some(gap) => least <= i128::from(gap),
    }
}
