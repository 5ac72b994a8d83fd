//! Numbers of calls of the class `Contract`.
//!
//! The class is known by its name and its namespace, whatever assembly it is taken from. Also where a linked file has
//! such a class, a call of a listed method of it is a contract call, and means no method.

/// A call of a method of `System.Diagnostics.Contracts.Contract`, by its number.
///
/// `Requires`, `Ensures`, `Assert` and `Assume` have 1, 3, 5 and 7, and one more with a message.
/// `EndContractBlock` has 9. `Result` has 10 and `OldValue` 20, to which the type argument adds 1 for
/// `bool`, 2 for `int32`, 3 for `bool[]` and 4 for `int32[]`.
#[derive(Clone, Copy, Debug, PartialEq, Eq)]
pub struct ContractOp(pub u32);
