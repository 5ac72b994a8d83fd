//! What is noted of bounds.

use crate::ends::Ends;

/// Ends over which bounds are tight, that of symbol s at place s, and whether bounds are known to be settled over them.
#[derive(Drop)]
pub struct Note {
    /// The ends.
    pub ends: Vec<Ends>,
    /// Whether it is known that no bound cuts an end, and that each tells more than the ends.
    pub is_settled: bool,
}
