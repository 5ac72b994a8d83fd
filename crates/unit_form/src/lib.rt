//! The form of unit files: their fields, read and written.
#![tactic(auto)]

mod added;
mod callees;
mod clause_list;
mod clauses;
mod form;
mod names;
mod numbers;
mod places;
mod root;
mod root_reader;
mod tree_builder;
mod tree_reader;
mod tree_writer;
mod unit_fault;
mod unit_fields;
mod unit_writer;

pub use added::{added_clauses, told_count};
pub use form::UnitForm;
pub use unit_fault::{UnitFault, UnitRefusal};
pub use unit_fields::{UnitFields, read_fields};
pub use unit_writer::unit_bytes;
