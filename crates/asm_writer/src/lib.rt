//! Writes small .NET assemblies: one class with static or instance methods over int32, bool and arrays
//! of them, and references to the contract calls and to methods of other assemblies (ECMA-335 II.22 to II.25).
#![tactic(auto)]

mod blob;
mod bodies;
mod field;
mod generator;
mod headers;
mod layout;
mod metadata;
mod name;
mod number;
mod packed;
mod padding;
mod plan;
mod rows;
mod signature;
mod table;
mod tables;
mod template;
mod writer;

pub use generator::generate;
pub use plan::{AsmPlan, Extern, MethodPlan, WriteRefusal};
pub use writer::{write_assembly, write_linked};
