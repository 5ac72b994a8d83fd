//! Methods that call each other: each run of a world is cut into runs of its units by themselves, whose calls are free;
//! so a world whose units are safe by themselves is safe, recursion included.
#![tactic(auto)]

mod entry;

pub use entry::Entry;
