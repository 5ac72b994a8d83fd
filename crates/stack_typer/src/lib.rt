//! The kinds of values on the stack before each instruction of a method's code (ECMA-335 III.1.7.5).
#![tactic(auto)]

mod arrivals;
mod branches;
mod calls;
mod conflicts;
mod follow;
mod kinds;
mod merging;
mod nearby;
mod operands;
mod operations;
mod passes;
mod stack;
mod successors;
mod type_instr;
mod typed_unit;

pub use kinds::{Kinds, TypeRefusal};
pub use passes::type_code;
pub use typed_unit::TypedUnit;
