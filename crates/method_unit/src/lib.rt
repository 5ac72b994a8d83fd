//! Methods in the unit form: a file for one method, with all that its check depends on.
#![tactic(auto)]

mod callee_order;
mod equality;
mod spelling;
mod unit_clauses;
mod unit_code;
mod unit_kinds;
mod unit_reader;

pub use equality::same_unit;
pub use spelling::unit_bytes;
pub use unit_code::names_something;
pub use unit_form::{UnitFault, UnitRefusal};
pub use unit_reader::read_unit;
