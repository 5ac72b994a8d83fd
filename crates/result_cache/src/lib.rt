//! Invariants of units, kept in a file between calls.
#![tactic(auto)]

mod buckets;
mod cache;
mod cache_fault;
mod cache_form;
mod cache_reader;
mod cache_writer;
mod entry_reader;
mod fields;
mod first_form;
mod link;
mod packed;
mod row;

pub use cache::Cache;
pub use cache_fault::{CacheFault, CacheRefusal};
pub use cache_form::CacheForm;
pub use cache_writer::{Entries, cache_bytes};
