//! Methods of .NET assemblies as this checker sees them: their instructions, clauses and units, and
//! the machine that runs them.
#![tactic(auto)]

mod arg;
mod clause;
mod copies;
mod instruction;
mod kind_rules;
mod limits;
mod list;
mod machine;
mod offsets;
mod operand_counts;
mod parameters;
mod place;
mod shape;
mod tree;
mod tree_kinds;
mod type_fault;
mod unit;
mod unit_copies;
mod unit_numbers;

pub use arg::Arg;
pub use clause::{Clause, ClauseKind};
pub use copies::copy_clauses;
pub use instruction::{BinOp, CmpOp, Instr, Op, Targets, Test, UnOp};
pub use kind_rules::{
    address_kind, compares_kinds, comparison_of, is_address_of, is_array_of, is_number,
    is_reference, is_tested, kind_of, merged_kind, pushes_comparison, takes,
};
pub use limits::{
    MAX_BLOCKS, MAX_CLAUSES, MAX_CODE_BYTES, MAX_CONDITIONS, MAX_FILE_BYTES, MAX_INSTRUCTIONS,
    MAX_NAME_BYTES, MAX_NODES, MAX_OLD_VALUES, MAX_VARIABLES,
};
pub use list::List;
pub use machine::{ArrayCell, Config, FaultKind, Frame, Obligation, Value, World};
pub use offsets::index_of;
pub use operand_counts::{callee, operand_count};
pub use parameters::append_parameters;
pub use place::{Kind, Place};
pub use shape::Shape;
pub use tree::{Node, Tree};
pub use tree_kinds::{branch_kind, element_kind, length_kind, operator_kind, unary_kind};
pub use type_fault::TypeFault;
pub use unit::{CalleeInfo, Unit};
pub use unit_numbers::{UnitCall, array_place, is_assert, unit_call};
