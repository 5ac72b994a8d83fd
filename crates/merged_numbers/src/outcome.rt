//! What is known of new symbols.

use interval_domain::Range;
use pentagon_domain::Bounds;
use std::marker::Model;

/// What is known of new symbols, each of which stands for a key.
#[derive(Drop)]
pub struct Merged {
    /// The range of each symbol, that of symbol s at place s - 1.
    pub ranges: Vec<Range>,
    /// How symbols lie to each other.
    pub bounds: Bounds,
}

impl Model for Merged {
    ghost use Rattle.merged_numbers.specs.Merging.{Outcome};

    ghost Value = { Outcome };

    ghost view = { λ merged. record { ranges = merged.ranges.items; bounds = merged.bounds } };
}
