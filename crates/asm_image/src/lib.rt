//! .NET assemblies (ECMA-335, Partition II): a whole file with its types and methods.
#![tactic(auto)]

mod assembly;
mod assembly_file;
mod callee;
mod calls;
mod contract_op;
mod fault;
mod found;
mod members;
mod metadata;
mod method_row;
mod method_walk;
mod methods;
mod name_table;
mod names;
mod tokens;
mod types;

pub use assembly::Assembly;
pub use assembly_file::AssemblyFile;
pub use callee::Callee;
pub use contract_op::ContractOp;
pub use fault::{AsmFault, AsmRefusal, Cause};
pub use found::Found;
pub use members::Member;
pub use method_row::{Method, MethodRow};
pub use method_walk::MethodWalk;
