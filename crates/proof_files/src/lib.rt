//! Proof files: units, each with the states of its invariant, as text.
#![tactic(auto)]

mod cuts;
mod entry_reader;
mod hex_text;
mod known_entries;
mod proof_entry;
mod proof_fault;
mod proof_reader;
mod proof_text;
mod unit_lines;

pub use proof_entry::ProofEntry;
pub use proof_fault::{ProofFault, ProofRefusal};
pub use proof_reader::read_proof;
pub use proof_text::{ProofText, proof_bytes};

/// The most bytes of a proof file.
pub const MAX_PROOF_BYTES: usize = 67_108_864;

/// The line that a proof file begins with.
const FIRST_LINE: &[u8] = b"cccheck proof 1\n";
