//! Counts of work done.

ghost use Rattle.std.specs.Prelude.{◌≡◌, ℕ, ◌≤◌};
ghost use Rattle.domain_api.specs.Meter.{after_tick};

/// A count of work. No call makes or copies one, so who is handed a meter has no other.
pub trait Meter {
    /// How much was counted.
    ghost count: { Self → ℕ };

    /// Counts one more. A count of 2^64 - 1 stays.
    fn tick(&mut self)
        ensures { count self.new ≡ after_tick (count self.old) };
}

/// A count of ticks.
#[derive(Drop, Debug)]
pub struct Ticks {
    /// How many there were, up to 2^64 - 1.
    pub count: u64,
}

impl Meter for Ticks {
    ghost count = { λ ticks. ticks.count };

    fn tick(&mut self) {
        self.count = self.count.saturating_add(1);
    }
}
