//! The tables and the heaps of metadata (ECMA-335 II.22 and II.24.2). Nothing here takes memory.
#![tactic(auto)]

pub mod column;
mod fault;
mod fields;
mod heaps;
mod layout;
mod root;
mod schema;
pub mod table;
mod tables;
mod width;

pub use fault::TableFault;
pub use schema::{CodedIndex, Column, TABLES, columns};
pub use tables::Tables;
